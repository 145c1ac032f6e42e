//! Which groups are named: none, just one, or several.
ghost use Rattle.std.specs.Prelude.{◌≡◌, fold};
ghost use Rattle.catalogue.specs.Prelude.{all_of, has_node};
ghost use Rattle.slices.specs.Forms.{form_seen, separation_seen, separated};
ghost use Rattle.partition.specs.Reach.{and_group, and_machines, and_node as the_and_node, and_nodes, and_sets, at as the_at, first_of, fits, form_reach as the_form_reach, is_several, only_of};

use catalogue::Vms;
use cluster::limits::MAX_NODES;
use cluster::{NodeId, NodeSet, VmId};
use slices::Form;
use slices::form::{Groups, Separation};

/// What is known of the groups that are named.
#[derive(Clone, Copy)]
pub(crate) enum Reach {
    /// None is.
    Nowhere,
    /// Just this one is.
    One(usize),
    /// This one is, and another one after it.
    Several(usize),
}

impl Reach {
    /// With one more group that is named.
    pub(crate) fn and(self, group: usize) -> Reach
        ensures { result ≡ and_group self group }
    {
        match self {
            Reach::Nowhere => Reach::One(group),
            Reach::One(first) => if group == first {
                Reach::One(first)
            } else if group < first {
                Reach::Several(group)
            } else {
                Reach::Several(first)
            },
            Reach::Several(first) => if group < first {
                Reach::Several(group)
            } else {
                Reach::Several(first)
            },
        }
    }

    /// The one that is named, if there is just one.
    pub(crate) fn only(self) -> Option<usize>
        ensures { result ≡ only_of self }
    {
        match self {
            Reach::One(group) => Some(group),
            Reach::Nowhere | Reach::Several(_) => None,
        }
    }

    /// Whether no other group is named.
    pub(crate) fn fits(self, group: usize) -> bool
        ensures { result ≡ fits self group }
    {
        match self {
            Reach::Nowhere => true,
            Reach::One(only) => only == group,
            Reach::Several(_) => false,
        }
    }

    /// The first that is named; if none is, the first of all.
    pub(crate) fn first(self) -> usize
        ensures { result ≡ first_of self }
    {
        match self {
            Reach::Nowhere => 0,
            Reach::One(group) | Reach::Several(group) => group,
        }
    }

    /// Whether two are named.
    pub(crate) fn is_several(self) -> bool
        ensures { result ≡ is_several self }
    {
        match self {
            Reach::Nowhere | Reach::One(_) => false,
            Reach::Several(_) => true,
        }
    }
}

/// What a table says of a number; past its end, 0.
pub(crate) fn at(table: &[usize], number: usize) -> usize
    ensures { result ≡ the_at table.now number }
{
    match table.get(number) {
        Some(value) => *value,
        None => 0,
    }
}

/// With the groups of machines.
pub(crate) fn and_machines(reach: Reach, table: &[usize], machines: &[VmId]) -> Reach
    ensures { result ≡ and_machines table.now reach machines.now }
{
    machines
        .iter()
        .fold(reach, |r, v| r.and(at(table, v.0 as usize)))
}

/// With the groups of the machines of each list.
fn and_lists(reach: Reach, table: &[usize], lists: &[Vms]) -> Reach
    ensures { result ≡ fold (and_machines table.now) reach lists.now }
{
    lists
        .iter()
        .fold(reach, |r, list| and_machines(r, table, list.items()))
}

/// With the groups of the machines of all lists.
fn and_all(reach: Reach, table: &[usize], lists: &[Vms]) -> Reach
    ensures { result ≡ and_machines table.now reach (all_of lists.now) }
{
    and_lists(reach, table, lists)
}

/// Whether a set has the node of a number; one past the limit is never in one.
#[tactic(auto, using(crate::proofs::ReachLemmas::past_limit))]
pub(crate) fn has_at(set: &NodeSet, n: usize) -> bool
    ensures { result ≡ has_node set.now n }
{
    n < MAX_NODES && set.has(NodeId(n as u32))
}

/// With the group of a node, if the set has it.
fn and_node(reach: Reach, table: &[usize], set: &NodeSet, n: usize) -> Reach
    ensures { result ≡ the_and_node table.now set.now reach n }
{
    if has_at(set, n) {
        reach.and(at(table, n))
    } else {
        reach
    }
}

/// With the groups of the nodes of a set, of those that the table has.
pub(crate) fn and_nodes(reach: Reach, table: &[usize], set: &NodeSet) -> Reach
    ensures { result ≡ and_nodes table.now reach set.now }
{
    (0..table.len()).fold(reach, |r, n| and_node(r, table, set, n))
}

/// With the groups of the nodes of each set.
pub(crate) fn and_sets(reach: Reach, table: &[usize], sets: &[NodeSet]) -> Reach
    ensures { result ≡ and_sets table.now reach sets.now }
{
    sets.iter().fold(reach, |r, set| and_nodes(r, table, set))
}

/// The groups of the machines that are kept apart.
fn separation_reach(machines: &[usize], separation: &Separation) -> Reach
    ensures { result ≡ and_machines machines.now Reach.Nowhere (separated (separation_seen separation.now)) }
{
    match separation {
        Separation::Each(vs) | Separation::FromOthers(vs) => {
            and_machines(Reach::Nowhere, machines, vs.items())
        }
        Separation::Between(parts) => and_all(Reach::Nowhere, machines, parts.items()),
    }
}

/// The groups that a form names, if it is one that speaks of all that it names together, by the groups of machines and
/// nodes.
pub(crate) fn form_reach(machines: &[usize], nodes: &[usize], form: &Form) -> Reach
    ensures { result ≡ the_form_reach machines.now nodes.now (form_seen form.now) }
{
    let none = Reach::Nowhere;
    match form {
        Form::Apart(separation) => separation_reach(machines, separation),
        Form::Together(vs, Groups::AnyNode) | Form::InTurn(vs) => {
            and_machines(none, machines, vs.items())
        }
        Form::Together(vs, Groups::AnyOf(sets)) => and_sets(
            and_machines(none, machines, vs.items()),
            nodes,
            sets.items(),
        ),
        Form::Ordered(before, after) => none
            .and(at(machines, before.0 as usize))
            .and(at(machines, after.0 as usize)),
        Form::Bounded(_, ns, _) | Form::Powered(ns, _) => and_nodes(none, nodes, ns),
        Form::Allowed(_, _) | Form::Settled => none,
    }
}
