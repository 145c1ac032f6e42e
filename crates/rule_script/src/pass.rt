//! The value of a set, by one pass over its tokens.
ghost use Rattle.std.specs.Prelude.{◌≡◌, ◌++◌, ◌+◌, ◌^◌, ◌≤◌, [], ◌∷◌, Some, true, IfOk, IfSome, MatchOption, OnOk};
ghost use Rattle.std.specs.Fmt.{decimal};
ghost use Rattle.cluster.specs.Inventory.{element_named, IsListed};
ghost use Rattle.rule_script.specs.Answers.{Answers};
ghost use Rattle.rule_script.specs.Pass.{closed, more_next, advance, run, term_next, whole, with_term};
ghost use Rattle.rule_script.specs.Small.{is_small};
ghost use Rattle.rule_script.specs.Values.{alone, joined_value, numbered, span_value, value_of};
ghost use Rattle.rule_script.specs.declared.pass.Due.TheVariants.{More, Term};
ghost use Rattle.rule_script.specs.declared.pass.Next.TheVariants.{On};
ghost use Rattle.rule_script.specs.declared.pass.Waiting.TheVariants.{Nothing};

use crate::bindings::Bindings;
use crate::digits::is_decimal;
use crate::elements::Elements;
use crate::faults::{Mistake, Refusal};
use crate::gathered::Gathered;
use crate::sets::SetText;
use crate::tokens::{Operator, Token};
use base::Memory;
use cluster::{Cluster, Element, NodeId, VmId};
use itoa::Buffer;
use std::alloc::Global;
use std::marker::Model;

/// A range has fewer numbers between its first and its last than this.
const MAX_RANGE: u64 = 4_096;

/// The digits of a number of 64 bits, at most.
const MAX_DIGITS: usize = 20;

/// What waits for a term.
#[derive(Drop)]
enum Waiting {
    /// Nothing: it is the first of its set.
    Nothing,
    /// What stands before the term is worth, and the operator between.
    Left(Result<Gathered, Mistake>, Operator),
}

/// What is due after some tokens of a set.
#[derive(Drop)]
enum Due {
    /// A term.
    Term(Waiting),
    /// An operator, a closing bracket or the end; and what the set is worth so far.
    More(Result<Gathered, Mistake>),
}

/// Whether a token goes on with a set.
#[derive(Drop)]
enum Next {
    /// It does, and this is due after it.
    On(Due),
    /// It does not, and the set is worth so much.
    Done(Result<Gathered, Mistake>),
}

/// What waits at each open bracket. Contracts see it as a list, the innermost first.
#[derive(Drop)]
struct Brackets {
    waiting: Vec<Waiting>,
}

impl Model for Brackets {
    ghost use Rattle.std.specs.Prelude.{List, reverse};
    ghost use Rattle.rule_script.specs.declared.pass.Waiting.{Waiting};

    ghost Value = { List Waiting };

    ghost view = { λ a. reverse a.waiting.items };
}

impl Brackets {
    fn new(alloc: Global) -> Brackets
        ensures { result ≡ [] }
    {
        Brackets {
            waiting: Vec::new(alloc),
        }
    }

    fn allocator(&self) -> Global {
        *self.waiting.allocator()
    }

    fn push(&mut self, waiting: Waiting) -> Result<(), Memory>
        ensures { IfOk result (λ _. self.new ≡ waiting ∷ self.old) }
    {
        self.waiting.push(waiting)?;
        Ok(())
    }

    fn pop(&mut self) -> Option<Waiting>
        ensures { MatchOption result ((self.old ≡ []) × (self.new ≡ [])) (λ w. self.old ≡ w ∷ self.new) }
    {
        self.waiting.pop()
    }
}

/// Two values put together: the first that has none from the left decides.
#[inline(always)]
fn joined(
    operator: Operator,
    left: Result<Gathered, Mistake>,
    right: Result<Gathered, Mistake>,
) -> Result<Result<Gathered, Mistake>, Memory>
    ensures { IfOk result (λ worth. worth ≡ joined_value operator left right) }
{
    match left {
        Err(mistake) => Ok(Err(mistake)),
        Ok(left) => match right {
            Err(mistake) => Ok(Err(mistake)),
            Ok(right) => Ok(Ok(left.joined(operator, right.settled()?)?)),
        },
    }
}

#[inline(always)]
fn with_term(
    waiting: Waiting,
    term: Result<Gathered, Mistake>,
) -> Result<Result<Gathered, Mistake>, Memory>
    ensures { IfOk result (λ worth. worth ≡ with_term waiting term) }
{
    match waiting {
        Waiting::Nothing => Ok(term),
        Waiting::Left(left, operator) => joined(operator, left, term),
    }
}

/// The element of that name, if there is one.
fn found(cluster: &Cluster, name: &[u8]) -> Option<Element>
    ensures element { result ≡ element_named cluster.now.given name.now }
    ensures small { IfSome result (λ e. is_small e ≡ true) }
{
    cluster.find(name)
}

/// The one element of that name.
fn named(alloc: Global, cluster: &Cluster, name: &[u8]) -> Result<Result<Elements, Mistake>, Memory>
    ensures { IfOk result (λ worth. worth ≡ alone (element_named cluster.now.given name.now)) }
{
    match found(cluster, name) {
        Some(element) => Ok(Ok(Elements::one(alloc, element)?)),
        None => Ok(Err(Mistake::NoSuch)),
    }
}

/// The one after an element, in the order of its sort, if there is one.
fn next_of(cluster: &Cluster, element: Element) -> Option<Element>
    ensures { IfSome result (IsListed cluster.now.given) }
{
    match element {
        Element::Vm(v) => {
            let next = v.0.checked_add(1)?;
            if (next as usize) < cluster.machines().len() {
                Some(Element::Vm(VmId(next)))
            } else {
                None
            }
        }
        Element::Node(n) => {
            let next = n.0.checked_add(1)?;
            if (next as usize) < cluster.nodes().len() {
                Some(Element::Node(NodeId(next)))
            } else {
                None
            }
        }
    }
}

/// Whether a text is a name with a number after it.
#[tactic(auto, using(crate::proofs::PassLemmas::joined_rules))]
fn is_joined(text: &[u8], name: &[u8], number: u64) -> bool
    ensures { result ≡ true → text.now ≡ name.now ++ decimal number }
{
    if text.len() < name.len() {
        return false;
    }
    let (front, rest) = text.split_at(name.len());
    is_decimal(rest, number) && front == name
}

/// Whether a listed element has that name with a number after it.
fn is_named(cluster: &Cluster, element: Element, name: &[u8], number: u64) -> bool
    requires { IsListed cluster.now.given element }
    ensures { result ≡ true → element_named cluster.now.given (name.now ++ decimal number) ≡ Some element }
{
    is_joined(cluster.name(element).as_bytes(), name, number)
}

/// The one after the last of these, if it has that name with a number after it.
fn guessed(cluster: &Cluster, before: &[Element], name: &[u8], number: u64) -> Option<Element>
    ensures element { IfSome result (λ e. element_named cluster.now.given (name.now ++ decimal number) ≡ Some e) }
    ensures small { IfSome result (λ e. is_small e ≡ true) }
{
    let next = next_of(cluster, *before.last()?)?;
    if is_named(cluster, next, name, number) {
        Some(next)
    } else {
        None
    }
}

/// The element of that name with these digits after it, if there is one. The name is left as it was.
fn found_joined(
    cluster: &Cluster,
    name: &mut Vec<u8>,
    digits: &[u8],
) -> Result<Option<Element>, Memory>
    ensures element { IfOk result (λ e. e ≡ element_named cluster.now.given (name.old.items ++ digits.now)) }
    ensures small { IfOk result (λ o. IfSome o (λ e. is_small e ≡ true)) }
    ensures name { OnOk result (name.new.items ≡ name.old.items) }
{
    let len = name.len();
    name.extend_from_slice(digits)?;
    let element = found(cluster, name);
    name.truncate(len);
    Ok(element)
}

/// The element of that name with a number after it, if there is one. The name is left as it was.
fn found_numbered(
    cluster: &Cluster,
    name: &mut Vec<u8>,
    number: u64,
) -> Result<Option<Element>, Memory>
    ensures element { IfOk result (λ e. e ≡ element_named cluster.now.given (name.old.items ++ decimal number)) }
    ensures small { IfOk result (λ o. IfSome o (λ e. is_small e ≡ true)) }
    ensures name { OnOk result (name.new.items ≡ name.old.items) }
{
    let mut digits = Buffer::new();
    found_joined(cluster, name, digits.format(number).as_bytes())
}

/// The element of that name with a number after it, if there is one. Elements of one range mostly
/// stand side by side, so the one after the last before it is looked at first.
fn found_after(
    cluster: &Cluster,
    before: &[Element],
    name: &mut Vec<u8>,
    number: u64,
) -> Result<Option<Element>, Memory>
    ensures element { IfOk result (λ e. e ≡ element_named cluster.now.given (name.old.items ++ decimal number)) }
    ensures small { IfOk result (λ o. IfSome o (λ e. is_small e ≡ true)) }
    ensures name { OnOk result (name.new.items ≡ name.old.items) }
{
    match guessed(cluster, before, name, number) {
        Some(element) => Ok(Some(element)),
        None => found_numbered(cluster, name, number),
    }
}

/// The elements of that name with so many numbers after it, from the first on.
fn numbered(
    alloc: Global,
    cluster: &Cluster,
    name: &[u8],
    first: u64,
    count: u64,
) -> Result<Result<Elements, Mistake>, Memory>
    requires { first + count ≤ 2 ^ 64 }
    ensures { IfOk result (λ worth. worth ≡ numbered cluster.now.given name.now first count) }
{
    let mut text = Vec::with_capacity(alloc, name.len() + MAX_DIGITS)?;
    text.extend_from_slice(name)?;
    let mut elements = Elements::with_room(alloc, count as usize)?;
    for step in 0..count {
        match found_after(cluster, elements.items(), &mut text, first + step)? {
            Some(element) => elements.push(element)?,
            None => return Ok(Err(Mistake::NoSuch)),
        }
    }
    Ok(Ok(elements))
}

/// The elements of a range.
#[tactic(auto, unfolding(crate::specs::Values::span_value))]
fn span(
    alloc: Global,
    cluster: &Cluster,
    name: &[u8],
    first: u64,
    last: u64,
) -> Result<Result<Elements, Mistake>, Memory>
    ensures { IfOk result (λ worth. worth ≡ span_value cluster.now.given name.now first last) }
{
    if last < first || MAX_RANGE <= last - first {
        return Ok(Err(Mistake::OutOfRange));
    }
    numbered(alloc, cluster, name, first, last - first + 1)
}

/// What is due after a term.
#[inline(always)]
fn after(waiting: Waiting, term: Result<Gathered, Mistake>) -> Result<Next, Memory>
    ensures { IfOk result (λ n. n ≡ On (More (with_term waiting term))) }
{
    Ok(Next::On(Due::More(with_term(waiting, term)?)))
}

/// What is due after a term that is a list.
#[inline(always)]
fn after_list(waiting: Waiting, term: Result<Elements, Mistake>) -> Result<Next, Memory>
    ensures { IfOk result (λ n. n ≡ On (More (with_term waiting term))) }
{
    match term {
        Ok(list) => after(waiting, Ok(Gathered::new(list))),
        Err(mistake) => after(waiting, Err(mistake)),
    }
}

/// After a token where a term is due.
#[inline(always)]
#[tactic(auto, unfolding(crate::specs::Values::value_of))]
fn term_next(
    cluster: &Cluster,
    bindings: &Bindings,
    waiting: Waiting,
    brackets: &mut Brackets,
    token: &Token,
) -> Result<Next, Memory>
    ensures { IfOk result (λ n. term_next cluster.now.given bindings.now waiting brackets.old token.now ≡ (n, brackets.new)) }
{
    let alloc = brackets.allocator();
    match token {
        Token::Word(name) => after_list(waiting, named(alloc, cluster, name.bytes())?),
        Token::Span(name, first, last) => {
            after_list(waiting, span(alloc, cluster, name.bytes(), *first, *last)?)
        }
        Token::Variable(name) => after_list(waiting, bindings.value(name.bytes())?),
        Token::Opens => {
            brackets.push(waiting)?;
            Ok(Next::On(Due::Term(Waiting::Nothing)))
        }
        Token::Sign(_)
        | Token::Closes
        | Token::From
        | Token::Upto
        | Token::Colon
        | Token::Comma
        | Token::Bar
        | Token::Equals
        | Token::Other => Ok(Next::Done(Ok(Gathered::none(alloc)))),
    }
}

/// After a closing bracket.
#[inline(always)]
fn closed(worth: Result<Gathered, Mistake>, brackets: &mut Brackets) -> Result<Next, Memory>
    ensures { IfOk result (λ n. closed worth brackets.old ≡ (n, brackets.new)) }
{
    match brackets.pop() {
        Some(waiting) => after(waiting, worth),
        None => Ok(Next::Done(worth)),
    }
}

/// After a token that stands after a term.
#[inline(always)]
fn more_next(
    worth: Result<Gathered, Mistake>,
    brackets: &mut Brackets,
    token: &Token,
) -> Result<Next, Memory>
    ensures { IfOk result (λ n. more_next worth brackets.old token.now ≡ (n, brackets.new)) }
{
    match token {
        Token::Sign(operator) => Ok(Next::On(Due::Term(Waiting::Left(worth, *operator)))),
        Token::Closes => closed(worth, brackets),
        Token::Word(_)
        | Token::Span(..)
        | Token::Variable(_)
        | Token::Opens
        | Token::From
        | Token::Upto
        | Token::Colon
        | Token::Comma
        | Token::Bar
        | Token::Equals
        | Token::Other => Ok(Next::Done(worth)),
    }
}

/// After one more token.
#[inline(always)]
#[tactic(auto, unfolding(crate::specs::Pass::advance))]
fn advance(
    cluster: &Cluster,
    bindings: &Bindings,
    due: Due,
    brackets: &mut Brackets,
    token: &Token,
) -> Result<Next, Memory>
    ensures { IfOk result (λ n. advance cluster.now.given bindings.now due brackets.old token.now ≡ (n, brackets.new)) }
{
    match due {
        Due::Term(waiting) => term_next(cluster, bindings, waiting, brackets, token),
        Due::More(worth) => more_next(worth, brackets, token),
    }
}

/// What a set is worth that ends there.
fn whole(alloc: Global, due: Due) -> Result<Gathered, Mistake>
    ensures { result ≡ whole due }
{
    match due {
        Due::Term(_) => Ok(Gathered::none(alloc)),
        Due::More(worth) => worth,
    }
}

/// What the set is worth that these tokens begin with.
fn worth(
    alloc: Global,
    cluster: &Cluster,
    bindings: &Bindings,
    tokens: &[Token],
) -> Result<Result<Gathered, Mistake>, Memory>
    ensures { IfOk result (λ worth. worth ≡ run cluster.now.given bindings.now (Term Nothing) [] tokens.now) }
{
    let mut brackets = Brackets::new(alloc);
    let mut due = Due::Term(Waiting::Nothing);
    for token in tokens {
        match advance(cluster, bindings, due, &mut brackets, token)? {
            Next::On(more) => due = more,
            Next::Done(worth) => return Ok(worth),
        }
    }
    Ok(whole(alloc, due))
}

/// The value of a set: its elements, or its first mistake from the left. It takes time linear in
/// the lists that it goes through.
pub fn value(
    alloc: Global,
    cluster: &Cluster,
    bindings: &Bindings,
    set: &SetText,
) -> Result<Elements, Refusal>
    ensures { Answers result (value_of cluster.now.given bindings.now set.now) }
{
    match worth(alloc, cluster, bindings, set.tokens())? {
        Ok(gathered) => Ok(gathered.settled()?),
        Err(mistake) => Err(Refusal::Wrong(mistake)),
    }
}
