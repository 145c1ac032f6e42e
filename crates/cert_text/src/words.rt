//! The words of a line, taken one after the other.
ghost use Rattle.std.specs.Prelude.{◌≡◌, ◌↔◌, [], ◌∷◌, IsTrue, MatchOption};
ghost use Rattle.cert_text.specs.Reading.{Takes, goal_kind, line_kind, name, number, part_kind, place, reason_kind};

use crate::kinds::{GoalKind, LineKind, PartKind, reason_of_word};
use crate::parsing::TextFault;
use cluster::Name;
use numerals::number;
use reasons::ReasonKind;
use std::alloc::Global;
use std::marker::Model;

/// The words of a line that are left. Contracts see it as their list.
#[derive(Drop)]
pub(crate) struct Words<'a> {
    rest: &'a [&'a [u8]],
}

impl<'a> Model for Words<'a> {
    ghost use Rattle.std.specs.Prelude.{List, ℕ, map};

    ghost Value = { List (List ℕ) };

    ghost view = { λ a. map (λ w. w.now) a.rest.now };
}

impl<'a> Words<'a> {
    ghost use Rattle.std.specs.Prelude.{map};

    /// All of these words.
    pub fn new(rest: &'a [&'a [u8]]) -> Words<'a>
        ensures { result ≡ map (λ w. w.now) rest.now }
    {
        Words { rest }
    }

    /// The next word, which is taken.
    fn next(&mut self) -> Option<&'a [u8]>
        ensures { MatchOption result ((self.old ≡ []) × (self.new ≡ [])) (λ w. self.old ≡ w.now ∷ self.new) }
    {
        match self.rest {
            [] => None,
            [word, rest @ ..] => {
                self.rest = rest;
                Some(word)
            }
        }
    }

    /// Whether no word is left.
    pub fn is_over(&self) -> bool
        ensures { IsTrue result ↔ (self.now ≡ []) }
    {
        self.rest.is_empty()
    }

    /// All words that are left, which are taken.
    pub fn take_rest(&mut self) -> &'a [&'a [u8]]
        ensures words { map (λ w. w.now) result.now ≡ self.old }
        ensures over { self.new ≡ [] }
    {
        let rest = self.rest;
        self.rest = &[];
        rest
    }

    /// A name.
    #[tactic(auto, unfolding(crate::specs::Reading::name))]
    pub fn name(&mut self, alloc: Global) -> Result<Name, TextFault>
        ensures { Takes result self.new (name self.old) }
    {
        let Some(word) = self.next() else {
            return Err(TextFault::NotALine);
        };
        Ok(Name::new(alloc, word)?)
    }

    /// A node's name, or `-` for nowhere.
    #[tactic(auto, unfolding(crate::specs::Reading::place))]
    pub fn place(&mut self, alloc: Global) -> Result<Option<Name>, TextFault>
        ensures { Takes result self.new (place self.old) }
    {
        let Some(word) = self.next() else {
            return Err(TextFault::NotALine);
        };
        if word == "-".as_bytes() {
            return Ok(None);
        }
        Ok(Some(Name::new(alloc, word)?))
    }

    /// A number.
    #[tactic(auto, unfolding(crate::specs::Reading::number))]
    pub fn number(&mut self) -> Result<u64, TextFault>
        ensures { Takes result self.new (number self.old) }
    {
        let Some(word) = self.next() else {
            return Err(TextFault::NotALine);
        };
        number(word).ok_or(TextFault::NotALine)
    }

    /// The kind of a line.
    #[tactic(auto, unfolding(crate::specs::Reading::line_kind))]
    pub fn line_kind(&mut self) -> Result<LineKind, TextFault>
        ensures { Takes result self.new (line_kind self.old) }
    {
        let Some(word) = self.next() else {
            return Err(TextFault::NotALine);
        };
        LineKind::of_word(word).ok_or(TextFault::NotALine)
    }

    /// The kind of a part.
    #[tactic(auto, unfolding(crate::specs::Reading::part_kind))]
    pub fn part_kind(&mut self) -> Result<PartKind, TextFault>
        ensures { Takes result self.new (part_kind self.old) }
    {
        let Some(word) = self.next() else {
            return Err(TextFault::NotALine);
        };
        PartKind::of_word(word).ok_or(TextFault::NotALine)
    }

    /// The kind of a goal.
    #[tactic(auto, unfolding(crate::specs::Reading::goal_kind))]
    pub fn goal_kind(&mut self) -> Result<GoalKind, TextFault>
        ensures { Takes result self.new (goal_kind self.old) }
    {
        let Some(word) = self.next() else {
            return Err(TextFault::NotALine);
        };
        GoalKind::of_word(word).ok_or(TextFault::NotALine)
    }

    /// The kind of a reason.
    #[tactic(auto, unfolding(crate::specs::Reading::reason_kind))]
    pub fn reason_kind(&mut self) -> Result<ReasonKind, TextFault>
        ensures { Takes result self.new (reason_kind self.old) }
    {
        let Some(word) = self.next() else {
            return Err(TextFault::NotALine);
        };
        reason_of_word(word).ok_or(TextFault::NotALine)
    }
}
