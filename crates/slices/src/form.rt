//! The form of a constraint: what it asks of what is where, whatever its kind.
ghost use Rattle.std.specs.Prelude.{◌≡◌, ◌↔◌, ◌<◌, true, IsTrue};
ghost use Rattle.slices.specs.Prelude.{form_of as the_form_of, form_seen, Instance, inventory_of, is_rule, IsOffLimits, IsSound, machine_count, places_seen, runs_elsewhere as the_runs_elsewhere};

use crate::elements::state_of;
use crate::slice::Weight;
use catalogue::lists::{self, Parts};
use catalogue::{Constraint, Problem, Vms};
use cluster::{NodeId, NodeSet, State, VmId};

/// Which machines are kept apart.
#[derive(Clone, Copy)]
pub enum Separation<'a> {
    /// Each member from each other one.
    Each(&'a Vms),
    /// The machines of a part from those of all other parts.
    Between(&'a Parts),
    /// The members from all other machines.
    FromOthers(&'a Vms),
}

/// On which nodes a member may be.
#[derive(Clone, Copy)]
pub enum Places<'a> {
    /// On those outside the set.
    Outside(&'a NodeSet),
    /// On those of the set.
    Within(&'a NodeSet),
    /// On its host, where it runs at present.
    OnHost,
}

/// Groups of nodes of which one is to have all members.
#[derive(Clone, Copy)]
pub enum Groups<'a> {
    /// Each node by itself.
    AnyNode,
    /// These sets.
    AnyOf(&'a lists::Groups),
}

/// What a constraint asks of what is where. A look at constraints goes by these few, so a new kind
/// of one of these forms needs no new look.
#[derive(Clone, Copy)]
pub enum Form<'a> {
    /// No node has presences of two machines that are kept apart.
    Apart(Separation<'a>),
    /// Members are present only where they may be.
    Allowed(&'a Vms, Places<'a>),
    /// One group has all presences of members.
    Together(&'a Vms, Groups<'a>),
    /// Where the second has started, the first has ended.
    Ordered(VmId, VmId),
    /// No two members act at the same instant.
    InTurn(&'a Vms),
    /// What all machines hold on the nodes of the set is at most the amount.
    Bounded(Weight, &'a NodeSet, u64),
    /// At most so many nodes of the set are powered.
    Powered(&'a NodeSet, u64),
    /// Part of the demand, of the capacity or of the legal choices: nothing is left to ask.
    Settled,
}

/// The form of a constraint. That of one without a fault names what is there (`IsSound`).
#[tactic(auto, using(crate::proofs::FormLemmas::sound_form))]
pub fn form_of(constraint: &Constraint) -> Form<'_>
    ensures form { form_seen result ≡ the_form_of constraint.now }
    ensures sound { (p : Instance) → is_rule (inventory_of p) constraint.now ≡ true → IsSound p (form_seen result) }
{
    match constraint {
        Constraint::Spread { machines, .. } => Form::Apart(Separation::Each(machines)),
        Constraint::Split { parts, .. } => Form::Apart(Separation::Between(parts)),
        Constraint::Lonely { machines, .. } => { Form::Apart(Separation::FromOthers(machines)) }
        Constraint::Ban {
            machines,
            nodes,
            ..
        } => { Form::Allowed(machines, Places::Outside(nodes)) }
        Constraint::Fence {
            machines,
            nodes,
            ..
        } => { Form::Allowed(machines, Places::Within(nodes)) }
        Constraint::Root { machines } => Form::Allowed(machines, Places::OnHost),
        Constraint::Gather { machines, .. } => { Form::Together(machines, Groups::AnyNode) }
        Constraint::Among {
            machines,
            groups,
            ..
        } => { Form::Together(machines, Groups::AnyOf(groups)) }
        Constraint::Precedence { before, after } => Form::Ordered(*before, *after),
        Constraint::Serialize { machines } => Form::InTurn(machines),
        Constraint::ResourceCapacity {
            nodes,
            resource,
            amount,
            ..
        } => { Form::Bounded(Weight::Amount(*resource), nodes, *amount) }
        Constraint::RunningCapacity { nodes, amount, .. } => {
            Form::Bounded(Weight::Presence, nodes, *amount)
        }
        Constraint::MaxOnline { nodes, amount, .. } => Form::Powered(nodes, *amount),
        Constraint::Preserve { .. }
        | Constraint::Overbook { .. }
        | Constraint::Online { .. }
        | Constraint::Offline { .. }
        | Constraint::Running { .. }
        | Constraint::Sleeping { .. }
        | Constraint::Ready { .. }
        | Constraint::Killed { .. } => Form::Settled,
    }
}

/// Whether a machine in this state runs at present, on another node.
fn runs_elsewhere(state: State, n: NodeId) -> bool
    ensures { result ≡ the_runs_elsewhere state n.0 }
{
    match state {
        State::Running(h) => h.0 != n.0,
        State::Init | State::Ready | State::Sleeping(_) | State::Gone => false,
    }
}

/// Whether the node is none of the places where a member may be.
pub fn is_off_limits(p: &Problem, places: &Places, v: VmId, n: NodeId) -> bool
    requires { v.0 < machine_count p.now.given }
    ensures { IsTrue result ↔ IsOffLimits p.now.given (places_seen places.now) v.0 n.0 }
{
    match places {
        Places::Outside(nodes) => nodes.has(n),
        Places::Within(nodes) => !nodes.has(n),
        Places::OnHost => runs_elsewhere(state_of(p, v), n),
    }
}
