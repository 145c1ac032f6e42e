//! The lines of a listing.
ghost use Rattle.std.specs.Prelude.{◌≡◌, ◌++◌, ◌<◌, string_bytes, IfOk, IfSome, OnOk};
ghost use Rattle.std.specs.Fmt.{decimal};
ghost use Rattle.show.specs.Prelude.{action_line, choices_of, element_count, InRange, inventory_of, IsPlanOf, last_end, last_line, spaced, total_line};

use crate::actions::Action;
use crate::names::{host_of, kind_text, node_name, target_of};
use base::Memory;
use catalogue::Problem;
use cluster::Instant;
use judge::Broken;
use replay::broken_line;
use slices::Plan;
use slices::plan::cost;
use std::alloc::Global;

/// Adds a word after a blank.
fn push_word(line: &mut String, word: &str) -> Result<(), Memory>
    ensures { OnOk result (string_bytes line.new ≡ string_bytes line.old ++ spaced word.now) }
{
    write!(line, " {word}")?;
    Ok(())
}

/// Adds a number after a blank.
fn push_number(line: &mut String, number: u64) -> Result<(), Memory>
    ensures { OnOk result (string_bytes line.new ≡ string_bytes line.old ++ spaced (decimal number)) }
{
    write!(line, " {number}")?;
    Ok(())
}

/// The line of an action: `START END KIND ELEMENT FROM TO`, with `-` where there is no place.
#[tactic(auto, unfolding(crate::specs::Lines::action_line))]
pub(crate) fn action_line(
    alloc: Global,
    p: &Problem,
    plan: &Plan,
    action: &Action,
) -> Result<String, Memory>
    requires plan { IsPlanOf p.now.given plan.now }
    requires number { action.now.number < element_count (inventory_of p.now.given) }
    ensures { IfOk result (λ line. string_bytes line ≡ action_line p.now.given (choices_of plan.now) action.now) }
{
    let e = p.cluster().element(action.number);
    let choice = plan.choice(e);
    let mut line = action.start.to_string(alloc)?;
    push_number(&mut line, u64::from(action.end))?;
    push_word(&mut line, kind_text(p, e, choice))?;
    push_word(&mut line, p.cluster().name(e))?;
    push_word(&mut line, node_name(p, host_of(p, e)))?;
    push_word(&mut line, node_name(p, target_of(choice)))?;
    line.push('\n')?;
    Ok(line)
}

/// The instant at which the last of some actions ends, 0 where there is none.
pub fn last_end(actions: &[Action]) -> Instant
    ensures { result ≡ last_end actions.now }
{
    actions.iter().fold(0, |last, action| action.end.max(last))
}

/// How many actions there are, when the last ends and what the plan costs.
#[tactic(auto, unfolding(crate::specs::Lines::total_line))]
fn total_line(alloc: Global, p: &Problem, plan: &Plan, actions: &[Action]) -> Result<String, Memory>
    requires { IsPlanOf p.now.given plan.now }
    ensures { IfOk result (λ line. string_bytes line ≡ total_line p.now.given (choices_of plan.now) actions.now) }
{
    let mut line = "actions".to_string(alloc)?;
    push_number(&mut line, actions.len() as u64)?;
    push_word(&mut line, "last")?;
    push_number(&mut line, u64::from(last_end(actions)))?;
    push_word(&mut line, "cost")?;
    push_number(&mut line, cost(p, plan))?;
    line.push('\n')?;
    Ok(line)
}

/// The last line: how many actions there are, when the last ends and what the plan costs, or what
/// is broken.
#[tactic(auto, unfolding(crate::specs::Lines::last_line))]
pub(crate) fn last_line(
    alloc: Global,
    p: &Problem,
    plan: &Plan,
    actions: &[Action],
    answer: Option<Broken>,
) -> Result<String, Memory>
    requires plan { IsPlanOf p.now.given plan.now }
    requires rule { IfSome answer (λ b. InRange p.now.given b.rule) }
    ensures { IfOk result (λ line. string_bytes line ≡ last_line p.now.given (choices_of plan.now) actions.now answer) }
{
    match answer {
        Some(broken) => broken_line(alloc, p, broken),
        None => total_line(alloc, p, plan, actions),
    }
}
