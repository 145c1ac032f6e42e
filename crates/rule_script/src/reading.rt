//! What the tokens of a line say, by descent.
ghost use Rattle.std.specs.Prelude.{codes};
ghost use Rattle.rule_script.specs.Grammar.{Gives, Takes, arguments, binding, call_at, each_of, needs, plain_set, set_and_number, set_resource_number, sets_at, spoken, statement, two_sets, unflagged};

use crate::cursor::Tokens;
use crate::faults::LineFault;
use crate::kinds::RuleKind;
use crate::sets::{SetText, SetTexts};
use crate::statement::{Call, Statement};
use crate::text::Text;
use crate::tokens::Token;
use std::alloc::Global;

/// Sets with `|` between each two.
#[tactic(auto, using(crate::proofs::ReadingLemmas::sets_rules))]
fn sets<'a>(alloc: Global, rest: &mut Tokens<'a>) -> Result<SetTexts<'a>, LineFault>
    ensures { Takes result rest.new (sets_at rest.old) }
{
    let mut found = Vec::new(alloc);
    'sets: loop {
        found.push(rest.set()?)?;
        if !rest.bar() {
            return Ok(SetTexts::new(found));
        }
    }
}

fn two_sets<'a>(rest: &mut Tokens<'a>) -> Result<(SetText<'a>, SetText<'a>), LineFault>
    ensures { Takes result rest.new (two_sets rest.old) }
{
    let first = rest.set()?;
    rest.comma()?;
    let second = rest.set()?;
    Ok((first, second))
}

fn set_and_number<'a>(rest: &mut Tokens<'a>) -> Result<(SetText<'a>, u64), LineFault>
    ensures { Takes result rest.new (set_and_number rest.old) }
{
    let set = rest.set()?;
    rest.comma()?;
    let number = rest.number()?;
    Ok((set, number))
}

fn set_resource_number<'a>(rest: &mut Tokens<'a>) -> Result<(SetText<'a>, Text<'a>, u64), LineFault>
    ensures { Takes result rest.new (set_resource_number rest.old) }
{
    let set = rest.set()?;
    rest.comma()?;
    let resource = rest.name()?;
    rest.comma()?;
    let number = rest.number()?;
    Ok((set, resource, number))
}

/// `always` stands only before the kinds that carry the flag.
fn unflagged(always: bool, rest: &mut Tokens) -> Result<(), LineFault>
    ensures { Takes result rest.new (unflagged always rest.old) }
{
    if always {
        Err(LineFault::NotALine)
    } else {
        Ok(())
    }
}

/// A set of machines or of nodes, before which `always` may not stand.
fn plain_set<'a>(always: bool, rest: &mut Tokens<'a>) -> Result<SetText<'a>, LineFault>
    ensures { Takes result rest.new (plain_set always rest.old) }
{
    unflagged(always, rest)?;
    rest.set()
}

/// The arguments of a call of that kind.
#[tactic(auto, unfolding(crate::specs::Grammar::arguments))]
fn arguments<'a>(
    alloc: Global,
    always: bool,
    kind: RuleKind,
    rest: &mut Tokens<'a>,
) -> Result<Call<'a>, LineFault>
    ensures { Takes result rest.new (arguments always kind rest.old) }
{
    match kind {
        RuleKind::Spread => Ok(Call::Spread(rest.set()?, always)),
        RuleKind::Gather => Ok(Call::Gather(rest.set()?, always)),
        RuleKind::Lonely => Ok(Call::Lonely(rest.set()?, always)),
        RuleKind::Ban => {
            let (machines, nodes) = two_sets(rest)?;
            Ok(Call::Ban(machines, nodes, always))
        }
        RuleKind::Fence => {
            let (machines, nodes) = two_sets(rest)?;
            Ok(Call::Fence(machines, nodes, always))
        }
        RuleKind::Among => {
            let machines = rest.set()?;
            rest.comma()?;
            Ok(Call::Among(machines, sets(alloc, rest)?, always))
        }
        RuleKind::Split => Ok(Call::Split(sets(alloc, rest)?, always)),
        RuleKind::ResourceCapacity => {
            let (nodes, resource, amount) = set_resource_number(rest)?;
            Ok(Call::ResourceCapacity(nodes, resource, amount, always))
        }
        RuleKind::RunningCapacity => {
            let (nodes, amount) = set_and_number(rest)?;
            Ok(Call::RunningCapacity(nodes, amount, always))
        }
        RuleKind::MaxOnline => {
            let (nodes, amount) = set_and_number(rest)?;
            Ok(Call::MaxOnline(nodes, amount, always))
        }
        RuleKind::Root => Ok(Call::Root(plain_set(always, rest)?)),
        RuleKind::Serialize => Ok(Call::Serialize(plain_set(always, rest)?)),
        RuleKind::Online => Ok(Call::Online(plain_set(always, rest)?)),
        RuleKind::Offline => Ok(Call::Offline(plain_set(always, rest)?)),
        RuleKind::Running => Ok(Call::Running(plain_set(always, rest)?)),
        RuleKind::Sleeping => Ok(Call::Sleeping(plain_set(always, rest)?)),
        RuleKind::Ready => Ok(Call::Ready(plain_set(always, rest)?)),
        RuleKind::Killed => Ok(Call::Killed(plain_set(always, rest)?)),
        RuleKind::Precedence => {
            unflagged(always, rest)?;
            let (before, after) = two_sets(rest)?;
            Ok(Call::Precedence(before, after))
        }
        RuleKind::Preserve => {
            unflagged(always, rest)?;
            let (machines, resource, amount) = set_resource_number(rest)?;
            Ok(Call::Preserve(machines, resource, amount))
        }
        RuleKind::Overbook => {
            unflagged(always, rest)?;
            let (nodes, resource, num) = set_resource_number(rest)?;
            rest.comma()?;
            Ok(Call::Overbook(nodes, resource, num, rest.number()?))
        }
    }
}

/// A call, with `always` before it or without.
#[tactic(auto, unfolding(crate::specs::Grammar::call_at))]
fn call<'a>(alloc: Global, rest: &mut Tokens<'a>) -> Result<Call<'a>, LineFault>
    ensures { Takes result rest.new (call_at rest.old) }
{
    let always = rest.keyword(b"always".as_slice());
    let kind = rest.kind()?;
    rest.opens()?;
    let call = arguments(alloc, always, kind, rest)?;
    rest.closes()?;
    Ok(call)
}

/// The word `in`.
fn needs_in(rest: &mut Tokens) -> Result<(), LineFault>
    ensures { Takes result rest.new (needs (codes "in") rest.old) }
{
    if rest.keyword(b"in".as_slice()) {
        Ok(())
    } else {
        Err(LineFault::NotALine)
    }
}

/// What stands after `let`.
#[tactic(auto, unfolding(crate::specs::Grammar::binding))]
fn binding<'a>(rest: &mut Tokens<'a>) -> Result<Statement<'a>, LineFault>
    ensures { Takes result rest.new (binding rest.old) }
{
    let variable = rest.variable()?;
    rest.equals()?;
    Ok(Statement::Let(variable, rest.set()?))
}

/// What stands after `each`.
#[tactic(auto, unfolding(crate::specs::Grammar::each_of))]
fn each_of<'a>(alloc: Global, rest: &mut Tokens<'a>) -> Result<Statement<'a>, LineFault>
    ensures { Takes result rest.new (each_of rest.old) }
{
    let variable = rest.variable()?;
    needs_in(rest)?;
    let set = rest.set()?;
    rest.colon()?;
    Ok(Statement::Each(variable, set, call(alloc, rest)?))
}

/// The statement that the first tokens say.
#[tactic(auto, unfolding(crate::specs::Grammar::spoken, crate::specs::Grammar::once))]
fn spoken<'a>(alloc: Global, rest: &mut Tokens<'a>) -> Result<Statement<'a>, LineFault>
    ensures { Takes result rest.new (spoken rest.old) }
{
    if rest.is_over() {
        return Ok(Statement::Nothing);
    }
    if rest.keyword(b"let".as_slice()) {
        return binding(rest);
    }
    if rest.keyword(b"each".as_slice()) {
        return each_of(alloc, rest);
    }
    Ok(Statement::Once(call(alloc, rest)?))
}

/// What the tokens of a line say.
///
/// `NotALine` exactly where no statement is spelled so.
#[tactic(auto, unfolding(crate::specs::Grammar::statement))]
pub fn statement<'a>(alloc: Global, tokens: &'a [Token<'a>]) -> Result<Statement<'a>, LineFault>
    ensures { Gives result (statement tokens.now) }
{
    let mut rest = Tokens::new(tokens);
    let said = spoken(alloc, &mut rest)?;
    if !rest.is_over() {
        return Err(LineFault::NotALine);
    }
    Ok(said)
}
