//! Machines that run on have on all nodes together at least what they use at present.
ghost use Rattle.std.specs.Prelude.{◌≡◌, ℕ, ◌≤◌, ◌<◌, length, IsTrue};
ghost use Rattle.quick_checks.specs.Prelude.{all_nodes, Amount as AmountOf, AreLegal, IsElement, IsSized, machine_count, NodeId as AnyNode, seen, sets, state_of, sure, Use, wanted_state, weight_of};
ghost use Rattle.{catalogue.specs.declared.targets.Target.TheVariants.Running as ToRunning, catalogue.specs.declared.targets.Wish.TheVariants.To, cluster.specs.declared.states.State.TheVariants.Running};

use catalogue::Problem;
use catalogue::targets::{Target, Wish};
use cluster::{Element, NodeId, VmId};
use domains::View;
use standings::leaves::runs_on;
use standings::seen::is_narrowed;

// whether a machine that runs is to run on
fn is_to_run(p: &Problem, v: VmId) -> bool
    requires { IsElement p.now.given (Element.Vm v) }
    ensures { IsTrue result → (h : AnyNode) → state_of p.now.given v.0 ≡ Running h → wanted_state p.now.given v.0 ≡ To ToRunning }
{
    match p.wanted(Element::Vm(v)) {
        Wish::Keep | Wish::To(Target::Running) => true,
        Wish::To(
            Target::Online | Target::Offline | Target::Sleeping | Target::Ready | Target::Killed,
        )
        | Wish::Clash => false,
    }
}

// whether there is a node of that number
fn is_node(p: &Problem, n: NodeId) -> bool
    ensures { IsTrue result → IsElement p.now.given (Element.Node n) }
{
    (n.0 as usize) < p.cluster().nodes().len()
}

/// Whether a machine, of which all choices are seen, runs and is to run on, and may stay as it is. Then each action of it
/// is a move or an allocation, and it never has less on all nodes together than at present.
pub fn holds_on(p: &Problem, view: &View, v: VmId) -> bool
    requires region { IsSized p.now.given view.now.region.now }
    requires legal { AreLegal p.now.given (sets view.now.region.now) }
    requires machine { v.0 < machine_count p.now.given }
    ensures { IsTrue result → (r t : ℕ) → weight_of p.now.given v.0 (AmountOf r) Use ≤ (sure p.now.given (seen view.now.region.now view.now.lens) t).held v.0 (AmountOf r) (all_nodes p.now.given) }
{
    if is_narrowed(view.lens, v) || !view.region.domain(Element::Vm(v)).idle() {
        return false;
    }
    let Some(h) = runs_on(p, v) else {
        return false;
    };
    is_node(p, h) && is_to_run(p, v)
}
