//! What a machine holds at one moment: at most two nodes, and its image.
ghost use Rattle.std.specs.Prelude.{◌≡◌, ◌<◌, ◌≤◌, length};
ghost use Rattle.slices.specs.Prelude.{Amount, held_of, holding_of, IsElement, max_amount, node_of, weight_of, with_raise};

use crate::actions::usage;
use crate::slice::{Slice, Slices, What, covers};
use crate::stage::Stage;
use catalogue::Problem;
use cluster::{Element, NodeId, VmId};

/// A node on which a machine is present, and whether it takes its present use or its demand there.
#[derive(Clone, Copy)]
pub struct Held {
    pub node: NodeId,
    pub what: What,
}

/// All that a machine holds at one moment.
///
/// Each `Held` is one presence: none, one, or the two of a migration. An allocation is one, with
/// the demand for its amounts from its start on.
#[derive(Clone, Copy)]
pub struct Holding {
    pub source: Option<Held>,
    pub target: Option<Held>,
    pub image: Option<NodeId>,
}

/// The part of a slice that is held at a stage.
fn held_of(slice: Option<Slice>, stage: Stage) -> Option<Held>
    ensures { result ≡ held_of slice stage }
{
    match slice {
        Some(s) => if covers(s.span, stage) {
            Some(Held {
                node: s.node,
                what: s.what,
            })
        } else {
            None
        },
        None => None,
    }
}

fn node_of(held: Option<Held>) -> Option<NodeId>
    ensures { result ≡ node_of held }
{
    match held {
        Some(x) => Some(x.node),
        None => None,
    }
}

/// A raise joins the use to which it adds.
fn with_raise(source: Option<Held>, target: Option<Held>, image: Option<NodeId>) -> Holding
    ensures { result ≡ with_raise source target image }
{
    match target {
        Some(x) => match x.what {
            What::Raise => Holding {
                source: Some(Held {
                    node: x.node,
                    what: What::Demand,
                }),
                target: None,
                image,
            },
            What::Use | What::Demand | What::Image => Holding {
                source,
                target,
                image,
            },
        },
        None => Holding {
            source,
            target,
            image,
        },
    }
}

/// What is held of slices at a stage.
pub(crate) fn holding_from(slices: Slices, stage: Stage) -> Holding
    ensures { result ≡ holding_of slices stage }
{
    with_raise(
        held_of(slices.source, stage),
        held_of(slices.target, stage),
        node_of(held_of(slices.image, stage)),
    )
}

/// The amount of a resource that a machine takes where it holds this.
#[tactic(auto, using(catalogue::proofs::Public::use_of_le))]
pub fn amount(p: &Problem, v: VmId, what: What, r: u8) -> u64
    requires machine { IsElement p.now.given (Element.Vm v) }
    requires resource { r < length p.now.given.resources }
    ensures amount { result ≡ weight_of p.now.given v.0 (Amount r) what }
    ensures small { result ≤ max_amount }
{
    match what {
        What::Use => usage(p, v, r),
        What::Demand => p.demand(v, r),
        What::Raise => p.demand(v, r) - usage(p, v, r),
        What::Image => 0,
    }
}
