//! The tokens of a line, taken one after the other.
ghost use Rattle.std.specs.Prelude.{◌≡◌, [], ◌∷◌, MatchOption, drop};
ghost use Rattle.rule_script.specs.Grammar.{Takes, bar, closes, colon, comma, equals, is_over, keyword, kind_at, name, number, opens, variable};
ghost use Rattle.rule_script.specs.Sets.{set_at};

use crate::faults::LineFault;
use crate::kinds::{RuleKind, kind_of};
use crate::sets::SetText;
use crate::text::Text;
use crate::tokens::Token;
use cluster::names::is_name_text;
use numerals::number;
use std::marker::Model;

/// The tokens of a line that are left. Contracts see them as their list.
#[derive(Drop)]
pub(crate) struct Tokens<'a> {
    tokens: &'a [Token<'a>],
    at: usize,
}

impl<'a> Model for Tokens<'a> {
    ghost use Rattle.std.specs.Prelude.{List, drop};
    ghost use Rattle.rule_script.specs.declared.tokens.Token.{Token};

    ghost Value = { List Token };

    ghost view = { λ a. drop a.at a.tokens.now };
}

impl<'a> Tokens<'a> {
    /// All of these tokens.
    pub fn new(tokens: &'a [Token<'a>]) -> Tokens<'a>
        ensures { result ≡ tokens.now }
    {
        Tokens { tokens, at: 0 }
    }

    /// The next token, which is taken.
    #[tactic(auto, using(crate::proofs::CursorLemmas::place_rules))]
    fn next(&mut self) -> Option<&'a Token<'a>>
        ensures { MatchOption result ((self.old ≡ []) × (self.new ≡ [])) (λ t. self.old ≡ t.now ∷ self.new) }
    {
        let tokens = self.tokens;
        if self.at >= tokens.len() {
            return None;
        }
        let token = &tokens[self.at];
        self.at += 1;
        Some(token)
    }

    /// Whether no token is left.
    #[tactic(auto, using(crate::proofs::CursorLemmas::place_rules))]
    pub fn is_over(&self) -> bool
        ensures { result ≡ is_over self.now }
    {
        let tokens = self.tokens;
        self.at >= tokens.len()
    }

    /// The set that stands next.
    pub fn set(&mut self) -> Result<SetText<'a>, LineFault>
        ensures { Takes result self.new (set_at self.old) }
    {
        let tokens = self.tokens;
        match SetText::read(tokens, self.at) {
            Some((set, after)) => {
                self.at = after;
                Ok(set)
            }
            None => Err(LineFault::NotALine),
        }
    }

    /// A variable.
    #[tactic(auto, unfolding(crate::specs::Grammar::variable))]
    pub fn variable(&mut self) -> Result<Text<'a>, LineFault>
        ensures { Takes result self.new (variable self.old) }
    {
        match self.next() {
            Some(Token::Variable(text)) => Ok(text.again()),
            _ => Err(LineFault::NotALine),
        }
    }

    /// `(`
    #[tactic(auto, unfolding(crate::specs::Grammar::opens))]
    pub fn opens(&mut self) -> Result<(), LineFault>
        ensures { Takes result self.new (opens self.old) }
    {
        match self.next() {
            Some(Token::Opens) => Ok(()),
            _ => Err(LineFault::NotALine),
        }
    }

    /// `)`
    #[tactic(auto, unfolding(crate::specs::Grammar::closes))]
    pub fn closes(&mut self) -> Result<(), LineFault>
        ensures { Takes result self.new (closes self.old) }
    {
        match self.next() {
            Some(Token::Closes) => Ok(()),
            _ => Err(LineFault::NotALine),
        }
    }

    /// `,`
    #[tactic(auto, unfolding(crate::specs::Grammar::comma))]
    pub fn comma(&mut self) -> Result<(), LineFault>
        ensures { Takes result self.new (comma self.old) }
    {
        match self.next() {
            Some(Token::Comma) => Ok(()),
            _ => Err(LineFault::NotALine),
        }
    }

    /// `:`
    #[tactic(auto, unfolding(crate::specs::Grammar::colon))]
    pub fn colon(&mut self) -> Result<(), LineFault>
        ensures { Takes result self.new (colon self.old) }
    {
        match self.next() {
            Some(Token::Colon) => Ok(()),
            _ => Err(LineFault::NotALine),
        }
    }

    /// `=`
    #[tactic(auto, unfolding(crate::specs::Grammar::equals))]
    pub fn equals(&mut self) -> Result<(), LineFault>
        ensures { Takes result self.new (equals self.old) }
    {
        match self.next() {
            Some(Token::Equals) => Ok(()),
            _ => Err(LineFault::NotALine),
        }
    }

    /// A number.
    #[tactic(auto, unfolding(crate::specs::Grammar::number))]
    pub fn number(&mut self) -> Result<u64, LineFault>
        ensures { Takes result self.new (number self.old) }
    {
        match self.next() {
            Some(Token::Word(text)) => number(text.bytes()).ok_or(LineFault::NotALine),
            _ => Err(LineFault::NotALine),
        }
    }

    /// The name of a resource.
    #[tactic(auto, unfolding(crate::specs::Grammar::name))]
    pub fn name(&mut self) -> Result<Text<'a>, LineFault>
        ensures { Takes result self.new (name self.old) }
    {
        match self.next() {
            Some(Token::Word(text)) if is_name_text(text.bytes()) => Ok(text.again()),
            _ => Err(LineFault::NotALine),
        }
    }

    /// The word of a kind.
    #[tactic(auto, unfolding(crate::specs::Grammar::kind_at))]
    pub fn kind(&mut self) -> Result<RuleKind, LineFault>
        ensures { Takes result self.new (kind_at self.old) }
    {
        match self.next() {
            Some(Token::Word(text)) => match kind_of(text.bytes()) {
                Some(kind) => Ok(kind),
                None => Err(LineFault::NotALine),
            },
            _ => Err(LineFault::NotALine),
        }
    }

    /// The next token, which is left.
    #[tactic(auto, using(crate::proofs::CursorLemmas::place_rules))]
    fn peek(&self) -> Option<&'a Token<'a>>
        ensures { MatchOption result (self.now ≡ []) (λ t. self.now ≡ t.now ∷ drop 1 self.now) }
    {
        let tokens = self.tokens;
        if self.at >= tokens.len() {
            return None;
        }
        Some(&tokens[self.at])
    }

    /// Whether that word stands next; it is then taken.
    #[tactic(auto, unfolding(crate::specs::Grammar::keyword))]
    pub fn keyword(&mut self, word: &[u8]) -> bool
        ensures { keyword word.now self.old ≡ (result, self.new) }
    {
        match self.peek() {
            Some(Token::Word(text)) if text.bytes() == word => {
                let _ = self.next();
                true
            }
            _ => false,
        }
    }

    /// Whether `|` stands next; it is then taken.
    #[tactic(auto, unfolding(crate::specs::Grammar::bar))]
    pub fn bar(&mut self) -> bool
        ensures { bar self.old ≡ (result, self.new) }
    {
        match self.peek() {
            Some(Token::Bar) => {
                let _ = self.next();
                true
            }
            _ => false,
        }
    }
}
