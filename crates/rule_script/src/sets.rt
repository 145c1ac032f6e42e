//! Sets as they are written, by their tokens.
ghost use Rattle.std.specs.Prelude.{◌≡◌, IsSome, MatchOption, None, Some, drop, option_map, if◌then◌else◌};
ghost use Rattle.rule_script.specs.SetSteps.{is_whole, rest_of, step};
ghost use Rattle.rule_script.specs.Sets.{set_at, set_or};

use crate::tokens::Token;
use cluster::names::is_name_text;
use std::marker::Model;

/// At most so many round brackets are open within a set.
pub const MAX_OPEN: usize = 64;

/// What is due after some tokens of a set.
#[derive(Clone, Copy)]
pub struct SetState {
    /// Whether a term is due.
    pub is_due: bool,
    /// How many brackets are open.
    pub brackets: usize,
}

/// What is due after a token that goes on with the set; `None` where it does not.
#[tactic(auto, unfolding(crate::specs::SetSteps::step))]
fn step(state: SetState, token: &Token) -> Option<SetState>
    ensures { result ≡ step state token.now }
{
    let brackets = state.brackets;
    if state.is_due {
        return match token {
            Token::Word(name) if is_name_text(name.bytes()) => Some(SetState {
                is_due: false,
                brackets,
            }),
            Token::Span(..) | Token::Variable(_) => Some(SetState {
                is_due: false,
                brackets,
            }),
            Token::Opens if brackets < MAX_OPEN => Some(SetState {
                is_due: true,
                brackets: brackets + 1,
            }),
            _ => None,
        };
    }
    match token {
        Token::Sign(_) => Some(SetState {
            is_due: true,
            brackets,
        }),
        Token::Closes if 0 < brackets => Some(SetState {
            is_due: false,
            brackets: brackets - 1,
        }),
        _ => None,
    }
}

/// The place, if a set may end there.
fn end_where(now: SetState, at: usize) -> Option<usize>
    ensures { result ≡ (if is_whole now then Some at else None) }
{
    if !now.is_due && now.brackets == 0 {
        Some(at)
    } else {
        None
    }
}

/// The place after the set that begins at a place; `None` where none begins there.
#[tactic(auto, using(crate::proofs::SetLemmas::end_rules))]
fn end_of_set(tokens: &[Token], first: usize) -> Option<usize>
    ensures { option_map (λ at. drop at tokens.now) result ≡ rest_of (set_at (drop first tokens.now)) }
{
    let mut now = SetState {
        is_due: true,
        brackets: 0,
    };
    let mut at = first;
    'tokens: while at < tokens.len() {
        match step(now, &tokens[at]) {
            Some(next) => {
                now = next;
                at += 1;
            }
            None => return end_where(now, at),
        }
    }
    end_where(now, at)
}

/// A set as it is written: the tokens that begin with it. Contracts see it as the tree of the set.
#[derive(Drop)]
pub struct SetText<'a> {
    tokens: &'a [Token<'a>],
    first: usize,
}

impl<'a> Model for SetText<'a> {
    ghost use Rattle.std.specs.Prelude.{◌≡◌, drop, is_some, true};
    ghost use Rattle.rule_script.specs.Sets.{Set, set_at, set_or};
    ghost use Rattle.rule_script.specs.SetCode.{set_code};

    ghost Value = { Set };

    ghost coded = { set_code };

    ghost view = { λ a. set_or (set_at (drop a.first a.tokens.now)) };

    ghost invariant = { λ a. is_some (set_at (drop a.first a.tokens.now)) ≡ true };
}

impl<'a> SetText<'a> {
    /// The set that begins at a place, and the place after it; none where no set begins there.
    #[tactic(auto, using(crate::proofs::SetLemmas::found_rules))]
    pub(crate) fn read(tokens: &'a [Token<'a>], first: usize) -> Option<(SetText<'a>, usize)>
        ensures { MatchOption result (set_at (drop first tokens.now) ≡ None) (λ x. set_at (drop first tokens.now) ≡ Some (x.0, drop x.1 tokens.now)) }
    {
        match end_of_set(tokens, first) {
            Some(after) => Some((SetText { tokens, first }, after)),
            None => None,
        }
    }

    /// The tokens that begin with the set.
    #[tactic(auto, using(crate::proofs::SetLemmas::begins_within))]
    pub(crate) fn tokens(&self) -> &'a [Token<'a>]
        ensures some { IsSome (set_at result.now) }
        ensures set { set_or (set_at result.now) ≡ self.now }
    {
        let tokens = self.tokens;
        &tokens[self.first..]
    }
}

/// Sets as they are written. Contracts see them as their list.
#[derive(Drop)]
pub struct SetTexts<'a> {
    sets: Vec<SetText<'a>>,
}

impl<'a> Model for SetTexts<'a> {
    ghost use Rattle.std.specs.Prelude.{List};
    ghost use Rattle.rule_script.specs.Sets.{Set};
    ghost use Rattle.std.specs.Coded.{coded_list};
    ghost use Rattle.rule_script.specs.SetCode.{set_code};

    ghost Value = { List Set };

    ghost coded = { coded_list set_code };

    ghost view = { λ a. a.sets.items };
}

impl<'a> SetTexts<'a> {
    ghost use Rattle.std.specs.Prelude.{◌≡◌};

    /// The list of these sets.
    pub(crate) fn new(sets: Vec<SetText<'a>>) -> SetTexts<'a>
        ensures { result ≡ sets.entry.items }
    {
        SetTexts { sets }
    }

    /// The sets in their order.
    pub(crate) fn items(&self) -> &[SetText<'a>]
        ensures { result.now ≡ self.now }
    {
        &self.sets
    }
}
