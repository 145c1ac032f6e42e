//! The part of a plan, and the union of the plans of all parts.
ghost use Rattle.std.specs.Prelude.{◌≡◌, ◌++◌, ◌∷◌, [], if◌then◌else◌, ℕ, OnOk, IfOk, IfSome, IfNone, map, slice_index_or, length};
ghost use Rattle.std.specs.List.{range_with_len};
ghost use Rattle.cluster.specs.declared.choices.Choice.TheVariants.{Idle as TheIdle};
ghost use Rattle.catalogue.specs.Prelude.{has_node};
ghost use Rattle.slices.specs.Elements.{node_count};
ghost use Rattle.slices.specs.Plans.{choices_of, IsPlanOf};
ghost use Rattle.parts.specs.Cuts.{renumbered_choice, renumbered_place};
ghost use Rattle.parts.specs.Groups.{in_group};
ghost use Rattle.parts.specs.Numbers.{passing};
ghost use Rattle.partition.specs.Plans.{ArePartPlans, choices_in, cut_choices, IsPartPlan, IsUnion, joined_choice, joined_machines, joined_nodes, listed_in, part_stays_by, PartLeaves, stays_by};
ghost use Rattle.partition.specs.Division.{Divides};
ghost use Rattle.partition.specs.Numbering.{AreNumbers};
ghost use Rattle.parts.specs.Laws.{Split};
ghost use Rattle.parts.specs.Parts.{part_of};
ghost use Rattle.partition.specs.Reach.{at as the_at};

use crate::faults::Division;
use crate::numbering::Numbers;
use crate::reach::at;
use base::Memory;
use catalogue::Problem;
use cluster::{Choice, Element, NodeId, NodeSet, Place, VmId};
use slices::Plan;
use std::alloc::Global;
use std::marker::Model;

/// What a table says of a number; 0 past its end.
fn number_at(table: &[u32], x: usize) -> u32
    ensures { result ≡ the_at table.now x }
{
    table.get(x).copied().unwrap_or(0)
}

/// A place, with the number that a table gives to its node.
fn renumbered_place(table: &[u32], place: Place) -> Place
    ensures { result ≡ renumbered_place (the_at table.now) place }
{
    match place {
        Place::Nowhere => Place::Nowhere,
        Place::At(n) => Place::At(NodeId(number_at(table, n.0 as usize))),
    }
}

/// A choice, with the number that a table gives to its node.
fn renumbered(table: &[u32], choice: Choice) -> Choice
    ensures { result ≡ renumbered_choice (the_at table.now) choice }
{
    match choice {
        Choice::Idle => Choice::Idle,
        Choice::Act { place, start } => Choice::Act {
            place: renumbered_place(table, place),
            start,
        },
    }
}

/// The choice at a place; idle past the end.
fn choice_at(choices: &[Choice], x: usize) -> Choice
    ensures { result ≡ slice_index_or choices.now x TheIdle }
{
    choices.get(x).copied().unwrap_or(Choice::Idle)
}

/// The choice of an element; idle where a plan has none.
fn choice_of(plan: &Plan, e: Element) -> Choice
    ensures { result ≡ choices_of plan.now e }
{
    match e {
        Element::Vm(v) => choice_at(plan.machines(), v.0 as usize),
        Element::Node(n) => choice_at(plan.nodes(), n.0 as usize),
    }
}

/// Adds a choice, if it is one of those that are wanted.
fn put_if(found: &mut Vec<Choice>, wanted: bool, choice: Choice) -> Result<(), Memory>
    ensures { OnOk result (found.new.items ≡ found.old.items ++ (if wanted then choice ∷ [] else [])) }
{
    if wanted {
        found.push(choice)?;
    }
    Ok(())
}

/// Adds the choices of those whose group a table gives as this one, with new numbers of their nodes.
fn cut_choices(
    found: &mut Vec<Choice>,
    groups: &[usize],
    i: usize,
    numbers: &[u32],
    choices: &[Choice],
) -> Result<(), Memory>
    ensures { OnOk result (found.new.items ≡ found.old.items ++ cut_choices groups.now i numbers.now choices.now) }
{
    for x in 0..groups.len() {
        put_if(
            found,
            groups[x] == i,
            renumbered(numbers, choice_at(choices, x)),
        )?;
    }
    Ok(())
}

/// The choice that a plan of some has for an element.
fn choice_in(plans: &[Plan], i: usize, e: Element) -> Choice
    ensures { result ≡ choices_in plans.now i e }
{
    if i < plans.len() {
        choice_of(&plans[i], e)
    } else {
        Choice::Idle
    }
}

/// The nodes of a group in their order.
#[derive(Drop)]
struct GroupNodes {
    nodes: Vec<u32>,
}

impl Model for GroupNodes {
    ghost use Rattle.std.specs.Prelude.{List, ℕ};

    ghost Value = { List ℕ };

    ghost view = { λ a. a.nodes.items };
}

/// The nodes of a problem that a set has.
#[tactic(auto, using(base::proofs::Ranges::passes_more, base::proofs::Ranges::fails_more))]
fn nodes_of_group(alloc: Global, p: &Problem, set: &NodeSet) -> Result<GroupNodes, Memory>
    ensures { IfOk result (λ list. list ≡ passing (λ n. has_node set.now n) (node_count p.now.given)) }
{
    let mut nodes = Vec::new(alloc);
    for n in 0..p.cluster().nodes().len() {
        if set.has(NodeId(n as u32)) {
            nodes.push(n as u32)?;
        }
    }
    Ok(GroupNodes { nodes })
}

/// The nodes of each group.
fn nodes_of_groups(
    alloc: Global,
    p: &Problem,
    groups: &[NodeSet],
) -> Result<Vec<GroupNodes>, Memory>
    ensures { IfOk result (λ lists. lists.items ≡ listed_in p.now.given groups.now) }
{
    let mut lists = Vec::new(alloc);
    for i in 0..groups.len() {
        lists.push(nodes_of_group(alloc, p, &groups[i])?)?;
    }
    Ok(lists)
}

/// The choice that the plan of a part has for an element, with the number that its node has in the whole.
fn joined_choice(lists: &[GroupNodes], plans: &[Plan], i: usize, e: Element) -> Choice
    ensures { result ≡ joined_choice lists.now plans.now i e }
{
    let choice = choice_in(plans, i, e);
    if i < lists.len() {
        let list = &lists[i];
        renumbered(&list.nodes, choice)
    } else {
        renumbered(&[], choice)
    }
}

/// Adds the choice of each machine, by its group and its number there.
fn join_machines(
    found: &mut Vec<Choice>,
    groups: &[usize],
    numbers: &[u32],
    lists: &[GroupNodes],
    plans: &[Plan],
) -> Result<(), Memory>
    ensures { OnOk result (found.new.items ≡ found.old.items ++ joined_machines groups.now numbers.now lists.now plans.now) }
{
    for v in 0..groups.len() {
        let e = Element::Vm(VmId(number_at(numbers, v)));
        found.push(joined_choice(lists, plans, groups[v], e))?;
    }
    Ok(())
}

/// Adds the choice of each node, by its group and its number there.
fn join_nodes(
    found: &mut Vec<Choice>,
    groups: &[usize],
    numbers: &[u32],
    lists: &[GroupNodes],
    plans: &[Plan],
) -> Result<(), Memory>
    ensures { OnOk result (found.new.items ≡ found.old.items ++ joined_nodes groups.now numbers.now lists.now plans.now) }
{
    for n in 0..groups.len() {
        let e = Element::Node(NodeId(number_at(numbers, n)));
        found.push(joined_choice(lists, plans, groups[n], e))?;
    }
    Ok(())
}

/// Whether a choice is at no node, or at one whose group a table gives as this one.
fn stays_at(nodes: &[usize], i: usize, choice: Choice) -> bool
    ensures { result ≡ stays_by nodes.now i choice }
{
    match choice {
        Choice::Idle => true,
        Choice::Act { place, .. } => match place {
            Place::Nowhere => true,
            Place::At(n) => at(nodes, n.0 as usize) == i,
        },
    }
}

/// Whether a plan keeps each machine of a part there.
fn stays(d: &Division, i: usize, plan: &Plan) -> bool
    ensures { result ≡ part_stays_by d.now.nodes.items d.now.machines.items i plan.now }
{
    (0..d.machines.len()).all(|v| at(&d.machines, v) != i
        || stays_at(&d.nodes, i, choice_at(plan.machines(), v)))
}

/// The choices of a part, machines first.
fn cut(
    alloc: Global,
    d: &Division,
    numbers: &Numbers,
    i: usize,
    plan: &Plan,
) -> Result<Vec<Choice>, Memory>
    ensures { IfOk result (λ choices. choices.items ≡ cut_choices d.now.machines.items i numbers.now.nodes.items plan.now.machines ++ cut_choices d.now.nodes.items i numbers.now.nodes.items plan.now.nodes) }
{
    let mut choices = Vec::new(alloc);
    cut_choices(
        &mut choices,
        &d.machines,
        i,
        &numbers.nodes,
        plan.machines(),
    )?;
    cut_choices(&mut choices, &d.nodes, i, &numbers.nodes, plan.nodes())?;
    Ok(choices)
}

/// The plan of a part, taken from a plan of the whole; nothing where a machine of the part does not stay there.
pub(crate) fn part_plan(
    alloc: Global,
    p: &Problem,
    part: &Problem,
    groups: &[NodeSet],
    d: &Division,
    numbers: &Numbers,
    i: usize,
    plan: &Plan,
) -> Result<Option<Plan>, Memory>
    requires split { Split p.now.given groups.now }
    requires part { part.now.given ≡ part_of p.now.given groups.now i }
    requires divides { Divides p.now.given groups.now d.now.nodes.items d.now.machines.items }
    requires numbers { AreNumbers p.now.given groups.now numbers.now.nodes.items numbers.now.machines.items }
    requires plan { IsPlanOf p.now.given plan.now }
    ensures plan { IfOk result (λ found. IfSome found (λ q. IsPartPlan p.now.given groups.now i (choices_of plan.now) q)) }
    ensures leaves { IfOk result (λ found. IfNone found (PartLeaves p.now.given groups.now i (choices_of plan.now))) }
{
    if !stays(d, i, plan) {
        return Ok(None);
    }
    let choices = cut(alloc, d, numbers, i, plan)?;
    Ok(Some(Plan::idle_or(part, choices)))
}

/// The choices of all elements, machines first, by the plans of all parts.
fn joined(
    alloc: Global,
    p: &Problem,
    groups: &[NodeSet],
    d: &Division,
    numbers: &Numbers,
    plans: &[Plan],
) -> Result<Vec<Choice>, Memory>
    ensures { let lists = listed_in p.now.given groups.now in
        IfOk result (λ choices. choices.items ≡ joined_machines d.now.machines.items numbers.now.machines.items lists plans.now ++ joined_nodes d.now.nodes.items numbers.now.nodes.items lists plans.now) }
{
    let lists = nodes_of_groups(alloc, p, groups)?;
    let mut choices = Vec::new(alloc);
    join_machines(&mut choices, &d.machines, &numbers.machines, &lists, plans)?;
    join_nodes(&mut choices, &d.nodes, &numbers.nodes, &lists, plans)?;
    Ok(choices)
}

/// The union of the plans of all parts. Its one error is want of memory.
pub(crate) fn union(
    alloc: Global,
    p: &Problem,
    groups: &[NodeSet],
    d: &Division,
    numbers: &Numbers,
    plans: &[Plan],
) -> Result<Plan, Memory>
    requires split { Split p.now.given groups.now }
    requires divides { Divides p.now.given groups.now d.now.nodes.items d.now.machines.items }
    requires numbers { AreNumbers p.now.given groups.now numbers.now.nodes.items numbers.now.machines.items }
    requires plans { ArePartPlans p.now.given groups.now plans.now }
    ensures { IfOk result (IsUnion p.now.given groups.now plans.now) }
{
    let choices = joined(alloc, p, groups, d, numbers, plans)?;
    Ok(Plan::idle_or(p, choices))
}
