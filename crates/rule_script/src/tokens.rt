//! The tokens of a line.
ghost use Rattle.std.specs.Prelude.{◌≡◌, ◌≤◌, ◌==◌, ◌++◌, ◌∷◌, [], IfOk, IfSome, OnOk, length};
ghost use Rattle.std.specs.List.{position};
ghost use Rattle.rule_script.specs.Tokens.{content, mark_of, range_in, range_of, span_of, token_of, tokens_of, variable_of, with_piece, with_token};

use crate::digits::read_number;
use crate::pieces::{goes_on, piece_len};
use crate::text::Text;
use base::Memory;
use cluster::names::is_name_text;
use std::alloc::Global;

/// How two sets are put together.
#[derive(Clone, Copy, Debug, PartialEq, Eq)]
pub enum Operator {
    /// `+`: the first, and then what the second has besides.
    Plus,
    /// `-`: what the second has not.
    Minus,
    /// `&`: what both have, in the order of the first.
    Both,
}

/// A token of a line: its longest runs of name bytes, ranges, and marks.
#[derive(Drop)]
pub enum Token<'a> {
    /// A run of letters, digits, `_`, `.` and `-` that is not `-` alone.
    Word(Text<'a>),
    /// `$` and such a run, which is the name of a variable.
    Variable(Text<'a>),
    /// `NAME[NUM:NUM]`.
    Span(Text<'a>, u64, u64),
    /// `+`, `-` or `&`.
    Sign(Operator),
    /// `(`
    Opens,
    /// `)`
    Closes,
    /// `[`
    From,
    /// `]`
    Upto,
    /// `:`
    Colon,
    /// `,`
    Comma,
    /// `|`
    Bar,
    /// `=`
    Equals,
    /// What is no token.
    Other,
}

/// The variable of that name; no token where it has none, or is `-` alone.
fn variable_of<'a>(name: &'a [u8]) -> Token<'a>
    ensures { result ≡ variable_of name.now }
{
    if name.is_empty() || name == b"-".as_slice() {
        return Token::Other;
    }
    Token::Variable(Text::new(name))
}

/// The mark that a byte is, if it is one.
fn mark_of<'a>(byte: u8) -> Token<'a>
    ensures { result ≡ mark_of byte }
{
    match byte {
        b'+' => Token::Sign(Operator::Plus),
        b'&' => Token::Sign(Operator::Both),
        b'(' => Token::Opens,
        b')' => Token::Closes,
        b'[' => Token::From,
        b']' => Token::Upto,
        b':' => Token::Colon,
        b',' => Token::Comma,
        b'|' => Token::Bar,
        b'=' => Token::Equals,
        _ => Token::Other,
    }
}

/// The token that a piece of a line is.
#[tactic(auto, unfolding(crate::specs::Tokens::token_of))]
fn token_of<'a>(piece: &'a [u8]) -> Token<'a>
    ensures { result ≡ token_of piece.now }
{
    match piece {
        [] => Token::Other,
        [b'$', name @ ..] => variable_of(name),
        [b'-'] => Token::Sign(Operator::Minus),
        [first, ..] => {
            if goes_on(*first) {
                Token::Word(Text::new(piece))
            } else {
                mark_of(*first)
            }
        }
    }
}

/// A range of that name, from one number to another; no token where it has no name or no numbers.
fn span_of<'a>(name: &Text<'a>, first: &Text, last: &Text) -> Token<'a>
    ensures { result ≡ span_of name.now first.now last.now }
{
    if !is_name_text(name.bytes()) {
        return Token::Other;
    }
    match (read_number(first.bytes()), read_number(last.bytes())) {
        (Some(first), Some(last)) => Token::Span(name.again(), first, last),
        _ => Token::Other,
    }
}

/// The range that five tokens are the front of, up to its `]`.
fn range_of<'a>(
    name: &Token<'a>,
    from: &Token,
    first: &Token,
    colon: &Token,
    last: &Token,
) -> Option<Token<'a>>
    ensures { result ≡ range_of name.now from.now first.now colon.now last.now }
{
    let Token::Word(name) = name else {
        return None;
    };
    let Token::From = from else {
        return None;
    };
    let Token::Word(first) = first else {
        return None;
    };
    let Token::Colon = colon else {
        return None;
    };
    let Token::Word(last) = last else {
        return None;
    };
    Some(span_of(name, first, last))
}

/// The range that these tokens are the front of, up to its `]`.
#[tactic(auto, using(crate::proofs::RangeLemmas::five_read, crate::proofs::RangeLemmas::not_five))]
fn range_in<'a>(tokens: &[Token<'a>]) -> Option<Token<'a>>
    ensures { result ≡ range_in tokens.now }
{
    if tokens.len() != 5 {
        return None;
    }
    range_of(&tokens[0], &tokens[1], &tokens[2], &tokens[3], &tokens[4])
}

/// Puts a token at the end. There mostly is room for it.
#[inline(always)]
fn put<'a>(found: &mut Vec<Token<'a>>, token: Token<'a>) -> Result<(), Memory>
    ensures { OnOk result (found.new.items ≡ found.old.items ++ token.entry ∷ []) }
{
    if found.len() < found.capacity() {
        found.push_reserved(token);
    } else {
        found.push(token)?;
    }
    Ok(())
}

/// Adds a token; with the `]` of a range, the five before it become one.
fn add_token<'a>(found: &mut Vec<Token<'a>>, token: Token<'a>) -> Result<(), Memory>
    ensures { OnOk result (found.new.items ≡ with_token found.old.items token.entry) }
{
    if let Token::Upto = token {
        let kept = found.len().saturating_sub(5);
        if let Some(range) = range_in(&found[kept..]) {
            found.truncate(kept);
            return put(found, range);
        }
    }
    put(found, token)
}

/// Adds the token of a piece, unless it is a blank.
fn add_piece<'a>(found: &mut Vec<Token<'a>>, piece: &'a [u8]) -> Result<(), Memory>
    ensures { OnOk result (found.new.items ≡ with_piece found.old.items piece.now) }
{
    match piece {
        [b' '] => Ok(()),
        _ => add_token(found, token_of(piece)),
    }
}

/// The place of the first `#`.
fn comment_at(line: &[u8]) -> Option<usize>
    ensures place { result ≡ position (λ b. b == 35) line.now }
    ensures within { IfSome result (λ at. at ≤ length line.now) }
{
    line.iter().position(|b| *b == b'#')
}

/// What stands before `#`.
#[tactic(auto, using(std::proofs::lemmas::List::take_all))]
fn content(line: &[u8]) -> &[u8]
    ensures { result.now ≡ content line.now }
{
    match comment_at(line) {
        Some(at) => &line[..at],
        None => line,
    }
}

/// The tokens of a line, in their order. Its one error is want of memory.
pub fn tokens_of(alloc: Global, line: &[u8]) -> Result<Vec<Token<'_>>, Memory>
    ensures { IfOk result (λ found. found.items ≡ tokens_of line.now) }
{
    let mut rest = content(line);
    let mut found = Vec::with_capacity(alloc, rest.len() / 2)?;
    'pieces: while !rest.is_empty() {
        let len = piece_len(rest);
        add_piece(&mut found, &rest[..len])?;
        rest = &rest[len..];
    }
    Ok(found)
}
