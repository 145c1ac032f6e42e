//! The lines of a report.
ghost use Rattle.std.specs.Prelude.{◌≡◌, ◌++◌, ◌<◌, length, IfOk, IfSome, OnOk, string_bytes};
ghost use Rattle.replay.specs.Prelude.{at_line, broken_line, cell, choices_of, InRange, IsPlanOf, loads_text, node_count, node_text, nodes_text, resource_name, rule_text, verdict_line};

use base::Memory;
use catalogue::Problem;
use cluster::{Element, Instant, NodeId};
use judge::{Broken, Loads, Rule, loads_at};
use slices::Plan;
use slices::plan::cost;
use std::alloc::Global;

fn resource_name(p: &Problem, r: u8) -> &str
    requires { r < length p.now.given.resources }
    ensures { result.now ≡ resource_name p.now.given r }
{
    p.cluster().resources()[r as usize].as_text()
}

// ---- an instant

/// Adds the loads of a node, one for each resource in order.
#[tactic(auto, using(base::proofs::Ranges::text_more))]
fn push_loads(line: &mut String, p: &Problem, table: &Loads, n: NodeId) -> Result<(), Memory>
    requires { n.0 < node_count p.now.given }
    ensures { OnOk result (string_bytes line.new ≡ string_bytes line.old ++ loads_text p.now.given (cell table.now) n.0) }
{
    for r in 0..p.cluster().resources().len() {
        let load = table[n.0 as usize][r];
        write!(line, " {load}")?;
    }
    Ok(())
}

/// Adds a node's name and its loads.
#[tactic(auto, unfolding(crate::specs::Lines::node_text))]
fn push_node(line: &mut String, p: &Problem, table: &Loads, n: NodeId) -> Result<(), Memory>
    requires { n.0 < node_count p.now.given }
    ensures { OnOk result (string_bytes line.new ≡ string_bytes line.old ++ node_text p.now.given (cell table.now) n.0) }
{
    let name = p.cluster().name(Element::Node(n));
    write!(line, " {name}")?;
    push_loads(line, p, table, n)
}

/// Adds each node in order.
#[tactic(auto, using(base::proofs::Ranges::text_more))]
fn push_nodes(line: &mut String, p: &Problem, table: &Loads) -> Result<(), Memory>
    ensures { OnOk result (string_bytes line.new ≡ string_bytes line.old ++ nodes_text p.now.given (cell table.now)) }
{
    for n in 0..p.cluster().nodes().len() {
        push_node(line, p, table, NodeId(n as u32))?;
    }
    Ok(())
}

/// The line of an instant: each node in order, and after it its load of each resource in order.
#[tactic(auto, using(crate::proofs::Texts::same_loads), unfolding(crate::specs::Lines::at_line))]
pub(crate) fn at_line(alloc: Global, p: &Problem, plan: &Plan, t: Instant) -> Result<String, Memory>
    requires { IsPlanOf p.now.given plan.now }
    ensures { IfOk result (λ line. string_bytes line ≡ at_line p.now.given (choices_of plan.now) t) }
{
    let mut line = format!(in alloc; "at {t}")?;
    push_nodes(&mut line, p, &loads_at(p, plan, t))?;
    line.push('\n')?;
    Ok(line)
}

// ---- the verdict

/// A rule, by the names of what it speaks of: `load NODE RESOURCE`, `usable MACHINE NODE` or
/// `rule C`, with a constraint's number.
fn rule_text(alloc: Global, p: &Problem, rule: Rule) -> Result<String, Memory>
    requires { InRange p.now.given rule }
    ensures { IfOk result (λ text. string_bytes text ≡ rule_text p.now.given rule) }
{
    let text = match rule {
        Rule::Load(n, r) => format!(in alloc;
            "load {} {}",
            p.cluster().name(Element::Node(n)),
            resource_name(p, r)
        )?,
        Rule::Usable(v, n) => format!(in alloc;
            "usable {} {}",
            p.cluster().name(Element::Vm(v)),
            p.cluster().name(Element::Node(n))
        )?,
        Rule::Constraint(c) => format!(in alloc; "rule {c}")?,
    };
    Ok(text)
}

/// The line `broken T RULE`, of a rule that is broken at an instant.
#[tactic(auto, unfolding(crate::specs::Lines::broken_line))]
pub fn broken_line(alloc: Global, p: &Problem, broken: Broken) -> Result<String, Memory>
    requires { InRange p.now.given broken.rule }
    ensures { IfOk result (λ line. string_bytes line ≡ broken_line p.now.given broken) }
{
    let rule = rule_text(alloc, p, broken.rule)?;
    Ok(format!(in alloc; "broken {} {rule}\n", broken.at)?)
}

/// The last line of a report: `valid C` with the cost of a valid plan, or what is broken.
#[tactic(auto, unfolding(crate::specs::Lines::verdict_line))]
pub(crate) fn verdict_line(
    alloc: Global,
    p: &Problem,
    plan: &Plan,
    answer: Option<Broken>,
) -> Result<String, Memory>
    requires plan { IsPlanOf p.now.given plan.now }
    requires rule { IfSome answer (λ b. InRange p.now.given b.rule) }
    ensures { IfOk result (λ line. string_bytes line ≡ verdict_line p.now.given (choices_of plan.now) answer) }
{
    match answer {
        Some(broken) => broken_line(alloc, p, broken),
        None => Ok(format!(in alloc; "valid {}\n", cost(p, plan))?),
    }
}
