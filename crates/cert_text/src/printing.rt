//! Lines of steps and goals, put together in a buffer that is kept from line to line.
ghost use Rattle.std.specs.Prelude.{◌≡◌, ◌<◌, ◌≤◌, ℕ, false, [], ◌∷◌, ◌++◌, IsTrue, OnOk, length, string_bytes};
ghost use Rattle.std.specs.Fmt.{decimal};
ghost use Rattle.cert_text.specs.Prelude.{all_spaced, AreListed, element_name, end_line, goal_words, has_all, has_node, HasPart, HasPlace, HasReason, HasStep, IsElement, joined, machine_count, node_count, node_names, nodes_text, nodes_words, part_text, part_words, place_name, place_word, reason_text, reason_words, resource_name, spaced, step_line, step_text, step_words};

use crate::kinds::{GoalKind, LineKind, PartKind, reason_word};
use base::Memory;
use catalogue::Problem;
use cluster::{Element, NodeId, NodeSet, Place, VmId};
use domains::Part;
use reasons::{Reason, ReasonKind};
use trees::{Goal, Step};

/// The first line of a certificate, with its newline.
pub const HEADER_LINE: &str = "btrplan certificate 1\n";

/// Adds a word after a blank.
fn push_word(line: &mut String, word: &str) -> Result<(), Memory>
    ensures { OnOk result (string_bytes line.new ≡ string_bytes line.old ++ spaced word.now) }
{
    line.push(' ')?;
    line.push_str(word)?;
    Ok(())
}

/// Adds a number after a blank.
fn push_number(line: &mut String, n: u64) -> Result<(), Memory>
    ensures { OnOk result (string_bytes line.new ≡ string_bytes line.old ++ spaced (decimal n)) }
{
    write!(line, " {n}")?;
    Ok(())
}

/// Adds the name of an element.
fn push_element(line: &mut String, p: &Problem, e: Element) -> Result<(), Memory>
    requires { IsElement p.now.given e }
    ensures { OnOk result (string_bytes line.new ≡ string_bytes line.old ++ spaced (element_name p.now.given e)) }
{
    push_word(line, p.cluster().name(e))
}

/// Adds the name of a resource.
fn push_resource(line: &mut String, p: &Problem, r: u8) -> Result<(), Memory>
    requires { r < length p.now.given.resources }
    ensures { OnOk result (string_bytes line.new ≡ string_bytes line.old ++ spaced (resource_name p.now.given r)) }
{
    push_word(line, p.cluster().resources()[r as usize].as_text())
}

/// Adds the name of a place, or `-` for nowhere.
fn push_place(line: &mut String, p: &Problem, place: Place) -> Result<(), Memory>
    requires { HasPlace p.now.given place }
    ensures { OnOk result (string_bytes line.new ≡ string_bytes line.old ++ spaced (place_word (place_name p.now.given place))) }
{
    match place {
        Place::Nowhere => push_word(line, "-"),
        Place::At(n) => push_element(line, p, Element::Node(n)),
    }
}

/// Adds a part.
fn push_part(line: &mut String, p: &Problem, part: Part) -> Result<(), Memory>
    requires { HasPart p.now.given part }
    ensures { OnOk result (string_bytes line.new ≡ string_bytes line.old ++ all_spaced (part_words (part_text p.now.given part))) }
{
    match part {
        Part::Idle => push_word(line, PartKind::Idle.word()),
        Part::Upto(place, start) => {
            push_word(line, PartKind::Upto.word())?;
            push_place(line, p, place)?;
            push_number(line, start as u64)
        }
        Part::From(place, start) => {
            push_word(line, PartKind::From.word())?;
            push_place(line, p, place)?;
            push_number(line, start as u64)
        }
    }
}

/// Whether a set has each node of the problem.
fn has_all(p: &Problem, set: &NodeSet) -> bool
    ensures { result ≡ has_all p.now.given set.now }
{
    (0..p.cluster().nodes().len()).all(|n| set.has(NodeId(n as u32)))
}

/// The first node of the problem, from a number on, that the set has; how many nodes there are where none is left.
fn next_in(p: &Problem, set: &NodeSet, from: usize) -> usize
    requires { from ≤ node_count p.now.given }
    ensures low { from ≤ result }
    ensures within { result ≤ node_count p.now.given }
    ensures there { result < node_count p.now.given → IsTrue (has_node set.now result) }
    ensures none { (m : ℕ) → from ≤ m → m < result → has_node set.now m ≡ false }
{
    let count = p.cluster().nodes().len();
    match set.first_from(from) {
        None => count,
        Some(n) => count.min(n.0 as usize),
    }
}

/// Adds the names of the nodes that a set has, in their order.
#[tactic(auto, using(crate::proofs::NodeLemmas::spaced_listed))]
fn push_listed(line: &mut String, p: &Problem, set: &NodeSet) -> Result<(), Memory>
    ensures { OnOk result (string_bytes line.new ≡ string_bytes line.old ++ all_spaced (node_names p.now.given set.now)) }
{
    let count = p.cluster().nodes().len();
    let mut n = next_in(p, set, 0);
    while n < count {
        push_element(line, p, Element::Node(NodeId(n as u32)))?;
        n = next_in(p, set, n + 1);
    }
    Ok(())
}

/// Adds `*` where the set has each node, and else their names.
fn push_nodes(line: &mut String, p: &Problem, set: &NodeSet) -> Result<(), Memory>
    ensures { OnOk result (string_bytes line.new ≡ string_bytes line.old ++ all_spaced (nodes_words (nodes_text p.now.given set.now))) }
{
    if has_all(p, set) {
        return push_word(line, "*");
    }
    push_listed(line, p, set)
}

/// Adds the numbers of a constraint and of an instant.
fn push_constraint(line: &mut String, c: u32, t: u32) -> Result<(), Memory>
    ensures { OnOk result (string_bytes line.new ≡ string_bytes line.old ++ all_spaced (decimal c ∷ decimal t ∷ [])) }
{
    push_number(line, c as u64)?;
    push_number(line, t as u64)
}

/// Adds the name of a machine, and that of a node.
fn push_machine_at(line: &mut String, p: &Problem, v: VmId, n: NodeId) -> Result<(), Memory>
    requires machine { v.0 < machine_count p.now.given }
    requires node { n.0 < node_count p.now.given }
    ensures { OnOk result (string_bytes line.new ≡ string_bytes line.old
        ++ all_spaced (element_name p.now.given (Element.Vm v) ∷ element_name p.now.given (Element.Node n) ∷ [])) }
{
    push_element(line, p, Element::Vm(v))?;
    push_element(line, p, Element::Node(n))
}

/// Adds a reason.
fn push_reason(line: &mut String, p: &Problem, reason: &Reason) -> Result<(), Memory>
    requires { HasReason p.now.given reason.now }
    ensures { OnOk result (string_bytes line.new ≡ string_bytes line.old ++ all_spaced (reason_words (reason_text p.now.given reason.now))) }
{
    match reason {
        Reason::Empty(e) => {
            push_word(line, reason_word(ReasonKind::Empty))?;
            push_element(line, p, *e)
        }
        Reason::Bound => push_word(line, reason_word(ReasonKind::Bound)),
        Reason::Load(t, r, set) => {
            push_word(line, reason_word(ReasonKind::Load))?;
            push_number(line, *t as u64)?;
            push_resource(line, p, *r)?;
            push_nodes(line, p, set)
        }
        Reason::Pair(c, t, v, w, n) => {
            push_word(line, reason_word(ReasonKind::Pair))?;
            push_constraint(line, *c, *t)?;
            push_element(line, p, Element::Vm(*v))?;
            push_machine_at(line, p, *w, *n)
        }
        Reason::Place(c, t, v, n) => {
            push_word(line, reason_word(ReasonKind::Place))?;
            push_constraint(line, *c, *t)?;
            push_machine_at(line, p, *v, *n)
        }
        Reason::Group(c, t) => {
            push_word(line, reason_word(ReasonKind::Group))?;
            push_constraint(line, *c, *t)
        }
        Reason::SetLoad(c, t) => {
            push_word(line, reason_word(ReasonKind::SetLoad))?;
            push_constraint(line, *c, *t)
        }
        Reason::Power(c, t) => {
            push_word(line, reason_word(ReasonKind::Power))?;
            push_constraint(line, *c, *t)
        }
        Reason::Usable(t, v, n) => {
            push_word(line, reason_word(ReasonKind::Usable))?;
            push_number(line, *t as u64)?;
            push_machine_at(line, p, *v, *n)
        }
        Reason::Hall(c, t, set) => {
            push_word(line, reason_word(ReasonKind::Hall))?;
            push_constraint(line, *c, *t)?;
            push_nodes(line, p, set)
        }
    }
}

/// Adds the line of a step, with its newline. Names are copied, and nothing else is changed.
///
/// Its one error is a refused allocation; the buffer then ends with a part of the line.
#[tactic(auto, unfolding(crate::specs::Spelling::step_line))]
pub fn push_step_line(line: &mut String, p: &Problem, step: &Step) -> Result<(), Memory>
    requires { HasStep p.now.given step.now }
    ensures { OnOk result (string_bytes line.new ≡ string_bytes line.old ++ step_line p.now.given step.now) }
{
    push_step(line, p, step)?;
    line.push('\n')?;
    Ok(())
}

/// Adds a step.
#[tactic(auto, using(crate::proofs::SpacedLemmas::pushed_rules))]
fn push_step(line: &mut String, p: &Problem, step: &Step) -> Result<(), Memory>
    requires { HasStep p.now.given step.now }
    ensures { OnOk result (string_bytes line.new ≡ string_bytes line.old ++ joined (step_words (step_text p.now.given step.now))) }
{
    match step {
        Step::Decide(e, part) => {
            line.push_str(LineKind::Decide.word())?;
            push_element(line, p, *e)?;
            push_part(line, p, *part)
        }
        Step::Cut(e, part, reason) => {
            line.push_str(LineKind::Cut.word())?;
            push_element(line, p, *e)?;
            push_part(line, p, *part)?;
            push_reason(line, p, reason)
        }
        Step::Fail(reason) => {
            line.push_str(LineKind::Fail.word())?;
            push_reason(line, p, reason)
        }
        Step::Plan(cost) => {
            line.push_str(LineKind::Plan.word())?;
            push_number(line, *cost)
        }
        Step::Left => {
            line.push_str(LineKind::Left.word())?;
            Ok(())
        }
    }
}

/// Adds a goal.
fn push_goal(line: &mut String, goal: Goal) -> Result<(), Memory>
    ensures { OnOk result (string_bytes line.new ≡ string_bytes line.old ++ all_spaced (goal_words goal)) }
{
    match goal {
        Goal::Optimal(cost) => {
            push_word(line, GoalKind::Optimal.word())?;
            push_number(line, cost)
        }
        Goal::Infeasible => push_word(line, GoalKind::Infeasible.word()),
        Goal::Undecided(count) => {
            push_word(line, GoalKind::Undecided.word())?;
            push_number(line, count)
        }
    }
}

/// Adds the line of a goal, with its newline, as `push_step_line` does.
#[tactic(auto, unfolding(crate::specs::Spelling::end_line))]
pub fn push_end_line(line: &mut String, goal: Goal) -> Result<(), Memory>
    ensures { OnOk result (string_bytes line.new ≡ string_bytes line.old ++ end_line goal) }
{
    line.push_str(LineKind::End.word())?;
    push_goal(line, goal)?;
    line.push('\n')?;
    Ok(())
}
