//! Nodes: which of them have a band, and when they are on.
ghost use Rattle.std.specs.Prelude.{◌≡◌, ◌<◌, length};
ghost use Rattle.std.specs.List.{All, list_any};
ghost use Rattle.picture.specs.Prelude.{choices_of, IsActionOf, IsPlanOf, is_shown, touches};

use crate::bars::{Row, stands};
use crate::marks::Power;
use catalogue::Problem;
use cluster::{Choice, Element, Instant, NodeId};
use show::Action;
use slices::Plan;
use slices::plan::end_in;

/// Up to so many nodes all have a band.
const ALL_SHOWN: usize = 12;

/// Whether some action acts on the node or leaves it.
#[tactic(auto, using(crate::proofs::Placed::listed_number))]
fn has_bar(p: &Problem, plan: &Plan, actions: &[Action], n: NodeId) -> bool
    requires plan { IsPlanOf p.now.given plan.now }
    requires actions { All (IsActionOf p.now.given (choices_of plan.now)) actions.now }
    ensures { result ≡ list_any (touches p.now.given (choices_of plan.now) n.0) actions.now }
{
    for action in actions {
        if stands(p, plan, Row::Acts(n), action) || stands(p, plan, Row::Leaves(n), action) {
            return true;
        }
    }
    false
}

/// Whether a node has a band.
pub(crate) fn is_shown(p: &Problem, plan: &Plan, actions: &[Action], n: NodeId) -> bool
    requires plan { IsPlanOf p.now.given plan.now }
    requires actions { All (IsActionOf p.now.given (choices_of plan.now)) actions.now }
    ensures { result ≡ is_shown p.now.given (choices_of plan.now) actions.now n.0 }
{
    p.cluster().nodes().len() <= ALL_SHOWN || has_bar(p, plan, actions, n)
}

/// What a node is from an instant to another one.
#[derive(Clone, Copy)]
pub(crate) struct Phase {
    pub from: Instant,
    pub to: Instant,
    pub power: Power,
}

/// What a node is until its action starts, while that is under way, and then, up to the end of the
/// axis.
pub(crate) fn phases(p: &Problem, plan: &Plan, n: NodeId, span: Instant) -> [Phase; 3]
    requires plan { IsPlanOf p.now.given plan.now }
    requires node { n.0 < length p.now.given.nodes }
{
    let e = Element::Node(n);
    let (first, last) = if p.cluster().nodes()[n.0 as usize].online {
        (Power::On, Power::Off)
    } else {
        (Power::Off, Power::On)
    };
    let (start, end) = match plan.choice(e) {
        Choice::Idle => (span, span),
        Choice::Act { place: _, start } => (start, end_in(p, plan, e)),
    };
    [
        Phase {
            from: 0,
            to: start,
            power: first,
        },
        Phase {
            from: start,
            to: end,
            power: Power::Turning,
        },
        Phase {
            from: end,
            to: span,
            power: last,
        },
    ]
}
