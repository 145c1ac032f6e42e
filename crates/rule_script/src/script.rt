//! Scripts: their lines are read in order, and what they say is added to a problem.
ghost use Rattle.std.specs.Prelude.{◌≡◌, ◌==◌, ◌≤◌, length, IfSome};
ghost use Rattle.std.specs.List.{position, position_or_len};
ghost use Rattle.rule_script.specs.Answers.{Answers, Reaches};
ghost use Rattle.catalogue.specs.Instance.{inventory_of};
ghost use Rattle.rule_script.specs.Calls.{constraint_of};
ghost use Rattle.rule_script.specs.Script.{at, called, called_for_each, done, line_done};
ghost use Rattle.rule_script.specs.Reads.{ReadsScript, ReadsLines, fault_at};
ghost use Rattle.rule_script.specs.Values.{value_of};

use crate::bindings::{Bindings, Variables};
use crate::calls::Scope;
use crate::elements::Elements;
use crate::faults::{Mistake, Refusal, ScriptFault};
use crate::reading::statement;
use crate::sets::SetText;
use crate::statement::{Call, Statement};
use crate::text::Text;
use crate::tokens::tokens_of;
use catalogue::{Constraint, Problem};
use std::alloc::Global;

/// Bytes of a line, at most, its newline not counted.
pub const MAX_LINE_BYTES: usize = 65_536;

/// The constraint that a call means.
fn meant(
    alloc: Global,
    problem: &Problem,
    bindings: Bindings,
    call: &Call,
) -> Result<Constraint, Refusal>
    ensures { Answers result (constraint_of (inventory_of problem.now.given) bindings.entry call.now) }
{
    let scope = Scope {
        alloc,
        cluster: problem.cluster(),
        bindings,
    };
    scope.constraint(call)
}

/// Adds the constraint that a call means.
#[tactic(auto, using(crate::proofs::ScriptLemmas::call_rules))]
fn make(
    alloc: Global,
    problem: &mut Problem,
    bindings: Bindings,
    call: &Call,
) -> Result<(), Refusal>
    ensures { Reaches result problem.new.given (called problem.old.given bindings.entry call.now) }
{
    let constraint = meant(alloc, problem, bindings, call)?;
    problem.add(constraint)?;
    Ok(())
}

/// Adds the constraint that a call means for each element, with the variable bound to it alone.
fn make_for_each(
    alloc: Global,
    problem: &mut Problem,
    variables: &Variables,
    name: &Text,
    call: &Call,
    elements: &Elements,
) -> Result<(), Refusal>
    ensures { Reaches result problem.new.given (called_for_each problem.old.given variables.now name.now call.now elements.now) }
{
    let list = elements.items();
    for element in list {
        let own = Elements::one(alloc, *element)?;
        make(
            alloc,
            problem,
            Bindings::with(variables, name.again(), own),
            call,
        )?;
    }
    Ok(())
}

/// The value of a set.
fn elements_of(
    alloc: Global,
    problem: &Problem,
    variables: &Variables,
    set: &SetText,
) -> Result<Elements, Refusal>
    ensures { Answers result (value_of (inventory_of problem.now.given) variables.now set.now) }
{
    let scope = Scope {
        alloc,
        cluster: problem.cluster(),
        bindings: Bindings::new(variables),
    };
    scope.elements(set)
}

/// Does what a line says.
#[tactic(auto, unfolding(crate::specs::Script::done))]
fn take(
    alloc: Global,
    problem: &mut Problem,
    variables: &mut Variables,
    statement: &Statement,
) -> Result<(), Refusal>
    ensures { Reaches result (at problem.new.given variables.new) (done problem.old.given variables.old statement.now) }
{
    match statement {
        Statement::Nothing => Ok(()),
        Statement::Let(name, set) => {
            let value = elements_of(alloc, problem, variables, set)?;
            variables.bind(alloc, name.bytes(), value)?;
            Ok(())
        }
        Statement::Once(call) => make(alloc, problem, Bindings::new(variables), call),
        Statement::Each(name, set, call) => {
            let elements = elements_of(alloc, problem, variables, set)?;
            make_for_each(alloc, problem, variables, name, call, &elements)
        }
    }
}

/// Reads a line, and does what it says.
#[tactic(auto, unfolding(crate::specs::Script::line_done))]
fn read_line(
    alloc: Global,
    problem: &mut Problem,
    variables: &mut Variables,
    line: &[u8],
) -> Result<(), Refusal>
    ensures { Reaches result (at problem.new.given variables.new) (line_done problem.old.given variables.old line.now) }
{
    if line.len() > MAX_LINE_BYTES {
        return Err(Refusal::Wrong(Mistake::TooLong));
    }
    let tokens = tokens_of(alloc, line)?;
    let said = statement(alloc, &tokens)?;
    take(alloc, problem, variables, &said)
}

/// The place of the first newline.
fn newline_at(bytes: &[u8]) -> Option<usize>
    ensures place { result ≡ position (λ b. b == 10) bytes.now }
    ensures within { IfSome result (λ at. at ≤ length bytes.now) }
{
    bytes.iter().position(|b| *b == b'\n')
}

/// How many bytes stand before the first newline, or in all.
#[tactic(auto, using(crate::proofs::ScriptLemmas::found_len, crate::proofs::ScriptLemmas::none_len))]
fn line_len(bytes: &[u8]) -> usize
    ensures len { result ≡ position_or_len (λ b. b == 10) bytes.now }
    ensures within { result ≤ length bytes.now }
{
    match newline_at(bytes) {
        Some(len) => len,
        None => bytes.len(),
    }
}

/// The refusal of a line by its number.
fn fault_at(number: u64, refusal: Refusal) -> ScriptFault
    ensures { result ≡ fault_at number refusal }
{
    match refusal {
        Refusal::Wrong(mistake) => ScriptFault::Line(number, mistake),
        Refusal::Memory => ScriptFault::Memory,
    }
}

/// Reads the lines, and does what they say.
fn read_lines(alloc: Global, problem: &mut Problem, bytes: &[u8]) -> Result<(), ScriptFault>
    ensures { ReadsLines problem.old.given bytes.now result problem.new.given }
{
    let mut variables = Variables::new(alloc);
    let mut number = 1;
    let mut rest = bytes;
    'lines: loop {
        let len = line_len(rest);
        match read_line(alloc, problem, &mut variables, &rest[..len]) {
            Ok(()) => {}
            Err(refusal) => return Err(fault_at(number, refusal)),
        }
        if len == rest.len() {
            return Ok(());
        }
        rest = &rest[len + 1..];
        number += 1;
    }
}

/// Puts what a script says into a problem, after its own constraints.
///
/// `Ok` exactly where no line is wrong; else the first line that is. A refusal drops the problem.
pub fn read_script(alloc: Global, p: Problem, bytes: &[u8]) -> Result<Problem, ScriptFault>
    ensures { ReadsScript p.given bytes.now result }
{
    let mut problem = p;
    read_lines(alloc, &mut problem, bytes)?;
    Ok(problem)
}
