//! Constraints.

ghost use Rattle.std.specs.Prelude.{◌≡◌, ◌<◌, ◌≤◌, ◌+◌, ◌++◌, ◌∷◌, [], IfOk, OnOk, Some, codes, length, map, slice_get, true};
ghost use Rattle.instance_json.specs.Prelude.{constraint_by, constraint_from, constraint_step, constraint_words, constraints_from, each, fault_of, Field, Gives, instance_fault_of, inventory_of, is_rule, max_constraints, path_of, word_field, word_field_of};
ghost use Rattle.serde_json.specs.View.{view};

use crate::constraint_kind::{CONSTRAINT_KINDS, ConstraintKind};
use crate::fault::InstanceFault;
use crate::fields;
use base::Memory;
use catalogue::constraint::{CONSTRAINT_WORDS, RuleFault};
use catalogue::limits::MAX_CONSTRAINTS;
use catalogue::{Constraint, Problem};
use cluster::Cluster;
use json_walk::{PathRef, WalkFault};
use serde_json::Value;
use std::alloc::Global;

fn kind_at(kinds: &[ConstraintKind], place: usize) -> ConstraintKind
    requires { place < length kinds.now }
    ensures { slice_get kinds.now place ≡ Some result }
{
    kinds[place]
}

/// The place of the word of a constraint's kind.
fn kind_place(alloc: Global, value: &Value, path: &PathRef) -> Result<usize, WalkFault>
    ensures gives { Gives fault_of (λ place. place) result
        (word_field_of (view value.now) (path_of path.now) (codes "kind") constraint_words) }
    ensures in_table { IfOk result (λ place. place < 21) }
{
    json_walk::word_field(alloc, value, path, "kind", &CONSTRAINT_WORDS)
}

/// The kind of a constraint, by its word.
#[tactic(auto, unfolding(json_walk::specs::Members::word_field))]
fn kind(alloc: Global, value: &Value, path: &PathRef) -> Result<ConstraintKind, InstanceFault>
    ensures { Gives instance_fault_of (λ kind. kind) result
        (word_field Field constraint_words CONSTRAINT_KINDS (view value.now) (path_of path.now) (codes "kind")) }
{
    let place = kind_place(alloc, value, path)?;
    Ok(kind_at(&CONSTRAINT_KINDS, place))
}

/// A constraint of that kind.
#[tactic(auto, unfolding(crate::specs::Rules::constraint_by))]
fn constraint_by(
    alloc: Global,
    cluster: &Cluster,
    kind: ConstraintKind,
    value: &Value,
    path: &PathRef,
) -> Result<Constraint, InstanceFault>
    ensures gives { Gives instance_fault_of (λ c. c) result
        (constraint_by cluster.now.given kind (view value.now) (path_of path.now)) }
    ensures rule { IfOk result (λ c. is_rule cluster.now.given c ≡ true) }
{
    match kind {
        ConstraintKind::Spread => {
            let (machines, continuous) = fields::flagged_machines_fields(
                alloc, cluster, value, path,
            )?;
            Ok(Constraint::Spread {
                machines,
                continuous,
            })
        }
        ConstraintKind::Gather => {
            let (machines, continuous) = fields::flagged_machines_fields(
                alloc, cluster, value, path,
            )?;
            Ok(Constraint::Gather {
                machines,
                continuous,
            })
        }
        ConstraintKind::Lonely => {
            let (machines, continuous) = fields::flagged_machines_fields(
                alloc, cluster, value, path,
            )?;
            Ok(Constraint::Lonely {
                machines,
                continuous,
            })
        }
        ConstraintKind::Ban => {
            let (machines, nodes, continuous) = fields::both_fields(alloc, cluster, value, path)?;
            Ok(Constraint::Ban {
                machines,
                nodes,
                continuous,
            })
        }
        ConstraintKind::Fence => {
            let (machines, nodes, continuous) = fields::both_fields(alloc, cluster, value, path)?;
            Ok(Constraint::Fence {
                machines,
                nodes,
                continuous,
            })
        }
        ConstraintKind::Among => fields::among(alloc, cluster, value, path),
        ConstraintKind::Split => fields::split(alloc, cluster, value, path),
        ConstraintKind::Root => Ok(Constraint::Root {
            machines: fields::machines_fields(alloc, cluster, value, path)?,
        }),
        ConstraintKind::Precedence => fields::precedence(alloc, cluster, value, path),
        ConstraintKind::Serialize => Ok(Constraint::Serialize {
            machines: fields::machines_fields(alloc, cluster, value, path)?,
        }),
        ConstraintKind::Preserve => fields::preserve(alloc, cluster, value, path),
        ConstraintKind::ResourceCapacity => fields::resource_capacity(alloc, cluster, value, path),
        ConstraintKind::RunningCapacity => {
            let (nodes, amount, continuous) = fields::node_count_fields(
                alloc, cluster, value, path,
            )?;
            Ok(Constraint::RunningCapacity {
                nodes,
                amount,
                continuous,
            })
        }
        ConstraintKind::MaxOnline => {
            let (nodes, amount, continuous) = fields::node_count_fields(
                alloc, cluster, value, path,
            )?;
            Ok(Constraint::MaxOnline {
                nodes,
                amount,
                continuous,
            })
        }
        ConstraintKind::Overbook => fields::overbook(alloc, cluster, value, path),
        ConstraintKind::Online => Ok(Constraint::Online {
            nodes: fields::nodes_fields(alloc, cluster, value, path)?,
        }),
        ConstraintKind::Offline => Ok(Constraint::Offline {
            nodes: fields::nodes_fields(alloc, cluster, value, path)?,
        }),
        ConstraintKind::Running => Ok(Constraint::Running {
            machines: fields::machines_fields(alloc, cluster, value, path)?,
        }),
        ConstraintKind::Sleeping => Ok(Constraint::Sleeping {
            machines: fields::machines_fields(alloc, cluster, value, path)?,
        }),
        ConstraintKind::Ready => Ok(Constraint::Ready {
            machines: fields::machines_fields(alloc, cluster, value, path)?,
        }),
        ConstraintKind::Killed => Ok(Constraint::Killed {
            machines: fields::machines_fields(alloc, cluster, value, path)?,
        }),
    }
}

/// A constraint.
#[tactic(auto, unfolding(crate::specs::Rules::constraint_from))]
fn constraint(
    alloc: Global,
    cluster: &Cluster,
    value: &Value,
    path: &PathRef,
) -> Result<Constraint, InstanceFault>
    ensures gives { Gives instance_fault_of (λ c. c) result
        (constraint_from cluster.now.given (view value.now) (path_of path.now)) }
    ensures rule { IfOk result (λ c. is_rule cluster.now.given c ≡ true) }
{
    let kind = kind(alloc, value, path)?;
    constraint_by(alloc, cluster, kind, value, path)
}

/// Adds a constraint that has no fault.
#[tactic(auto, using(crate::proofs::RuleLemmas::no_rule_fault))]
fn add_rule(problem: &mut Problem, constraint: Constraint) -> Result<(), Memory>
    requires room { length problem.old.given.constraints < max_constraints }
    requires rule { is_rule (inventory_of problem.old.given) constraint ≡ true }
    ensures { OnOk result (problem.new.given ≡ record problem.old.given { constraints = problem.old.given.constraints ++ constraint ∷ [] }) }
{
    match problem.add(constraint) {
        Ok(()) => Ok(()),
        Err(RuleFault::Memory) => Err(Memory),
        Err(_) => unreachable!(),
    }
}

#[tactic(auto, unfolding(crate::specs::Rules::constraint_step))]
fn push_constraint(
    alloc: Global,
    path: &PathRef,
    place: u64,
    problem: &mut Problem,
    value: &Value,
) -> Result<(), InstanceFault>
    requires { length problem.old.given.constraints < max_constraints }
    ensures gives { Gives instance_fault_of (λ _. problem.new.given) result
        (constraint_step (path_of path.now) place problem.old.given (view value.now)) }
    ensures longer { OnOk result (length problem.new.given.constraints ≡ length problem.old.given.constraints + 1) }
{
    let one = constraint(alloc, problem.cluster(), value, &path.item(place))?;
    add_rule(problem, one)?;
    Ok(())
}

#[tactic(auto, using(json_walk::proofs::Public::loop_rules))]
fn constraints_in(
    alloc: Global,
    problem: &mut Problem,
    values: &[Value],
    path: &PathRef,
) -> Result<(), InstanceFault>
    requires empty { problem.old.given.constraints ≡ [] }
    requires few { length values.now ≤ max_constraints }
    ensures { Gives instance_fault_of (λ _. problem.new.given) result
        (each (constraint_step (path_of path.now)) 0 problem.old.given (map view values.now)) }
{
    for (i, value) in values.iter().enumerate() {
        push_constraint(alloc, path, i as u64, problem, value)?;
    }
    Ok(())
}

/// Adds the listed constraints.
#[tactic(auto, unfolding(crate::specs::Rules::constraints_from))]
pub(crate) fn add_constraints(
    alloc: Global,
    problem: &mut Problem,
    value: &Value,
    path: &PathRef,
) -> Result<(), InstanceFault>
    requires { problem.old.given.constraints ≡ [] }
    ensures { Gives instance_fault_of (λ _. problem.new.given) result
        (constraints_from problem.old.given (view value.now) (path_of path.now)) }
{
    let values = json_walk::list_at(alloc, value, path)?;
    if values.len() > MAX_CONSTRAINTS {
        return Err(InstanceFault::Limit(path.to_text(alloc)?));
    }
    constraints_in(alloc, problem, values, path)
}
