//! The two numbers of a machine.
ghost use Rattle.std.specs.Prelude.{◌≡◌, ◌≤◌, ℕ, IfSome, IsTrue, max};
ghost use Rattle.std.specs.List.{Contains};
ghost use Rattle.relax.specs.Prelude.{AreFewer, choices, domain_before, IsElement, least, restored, vm};
ghost use Rattle.cluster.specs.declared.choices.Choice.{Choice as AnyChoice};
ghost use Rattle.standings.specs.{Leaves.AreLeaves, Standings.IsStanding, Standings.comes_by, Standings.have_come, Standings.kept_until as the_kept_until, Standings.leave_of};

use crate::leaves::{Leaves, leaves_of, left_by};
use catalogue::Problem;
use cluster::{Choice, Element, Instant, Kind, NodeId, Place, VmId};
use domains::measure::{Measure, lowest, lowest_lost};
use domains::undo::Lost;
use domains::{Before, Domain};
use relax::measures::end;
use slices::actions::kind_of;

/// The node that all choices of a machine go to, and the last of their starts there.
#[derive(Clone, Copy, Debug, PartialEq, Eq)]
pub struct Arrival {
    pub node: NodeId,
    pub last: Instant,
}

/// Where a machine surely stands.
#[derive(Clone, Copy, Debug, PartialEq, Eq)]
pub struct Standing {
    /// Under each choice it keeps what it has on its host at present until this instant, or longer; from
    /// `NEVER` on, for ever.
    pub leave: u64,
    /// Where all its choices go, if they go to one node.
    pub come: Option<Arrival>,
}

/// Later than every instant.
pub const NEVER: u64 = 4_294_967_296;

/// Whether two pairs of numbers are the same.
#[tactic(auto, using(crate::proofs::NumberLemmas::same_none, crate::proofs::NumberLemmas::same_some))]
pub(crate) fn is_same(a: Standing, b: Standing) -> bool
    ensures { IsTrue result → a ≡ b }
{
    match a.come {
        None => match b.come {
            None => a.leave == b.leave,
            Some(_) => false,
        },
        Some(x) => match b.come {
            None => false,
            Some(y) => a.leave == b.leave && x.node.0 == y.node.0 && x.last == y.last,
        },
    }
}

// until when an action of a kind keeps what its machine has on its host, where it ends at an instant
fn kept_until(kind: Option<Kind>, end: u64) -> u64
    ensures { result ≡ the_kept_until kind end }
{
    match kind {
        None => 0,
        Some(kind) => match kind {
            Kind::Allocate => NEVER,
            Kind::Forge
            | Kind::Boot
            | Kind::Shutdown
            | Kind::Suspend
            | Kind::Resume
            | Kind::Migrate
            | Kind::Kill
            | Kind::NodeBoot
            | Kind::NodeShutdown => end,
        },
    }
}

// until when a choice keeps what its machine has on its host, told by the kind of its action
#[inline(never)]
fn left_under(p: &Problem, v: VmId, c: Choice) -> u64
    requires { IsElement p.now.given (Element.Vm v) }
    ensures { result ≡ leave_of p.now.given v.0 c }
{
    match c {
        Choice::Idle => NEVER,
        Choice::Act { place, start: _ } => {
            let e = Element::Vm(v);
            kept_until(kind_of(p, e, place), end(p, e, c))
        }
    }
}

/// Until when a choice keeps what its machine has on its host.
///
/// Where it is known how the machine leaves, the kind of the action is not asked of each choice.
#[derive(Drop)]
pub struct Leaving<'a> {
    pub problem: &'a Problem,
    pub machine: VmId,
    pub leaves: Option<Leaves>,
}

// the same, by how the machine leaves, where that is known and tells it
#[inline(always)]
fn left_as_known(p: &Problem, v: VmId, leaves: Option<Leaves>, c: Choice) -> Option<u64>
    requires { IfSome leaves (AreLeaves p.now.given v.0) }
    ensures { IfSome result (λ l. l ≡ leave_of p.now.given v.0 c) }
{
    match leaves {
        None => None,
        Some(leaves) => left_by(p, v, leaves, c),
    }
}

impl Measure for Leaving<'_> {
    ghost use Rattle.{standings.specs.Ends.leave_at_ends, std.proofs.Common.arith};

    ghost ready = { λ m. IsElement m.problem.now.given (vm m.machine.0) × IfSome m.leaves (AreLeaves m.problem.now.given m.machine.0) };

    ghost value_of = { λ m. leave_of m.problem.now.given m.machine.0 };

    ghost floor_of = { λ m. 0 };

    ghost least_at_ends = { λ m. leave_at_ends m.problem.now.given m.machine.0 };

    ghost above_floor = { λ m c. Prim.omega arith };

    #[tactic(auto, using(crate::specs::Ends::leave_climbs))]
    fn climbs(&self) -> bool {
        true
    }

    #[inline(always)]
    fn value(&self, c: Choice) -> u64 {
        match left_as_known(self.problem, self.machine, self.leaves, c) {
            Some(left) => left,
            None => left_under(self.problem, self.machine, c),
        }
    }

    fn floor(&self) -> u64 {
        0
    }
}

/// Until when a choice keeps what its machine has on its host, raised to a number, at which a search for the least stops.
#[derive(Drop)]
pub struct LeavingFrom<'a> {
    pub leaving: Leaving<'a>,
    pub floor: u64,
}

impl Measure for LeavingFrom<'_> {
    ghost use Rattle.{standings.specs.Ends.leave_at_ends, std.proofs.Common.arith};

    ghost ready = { λ m. IsElement m.leaving.problem.now.given (vm m.leaving.machine.0) × IfSome m.leaving.leaves (AreLeaves m.leaving.problem.now.given m.leaving.machine.0) };

    ghost value_of = { λ m c. max m.floor (leave_of m.leaving.problem.now.given m.leaving.machine.0 c) };

    ghost floor_of = { λ m. m.floor };

    ghost least_at_ends = { λ m place lo s hi l u. Prim.omega (arith, leave_at_ends m.leaving.problem.now.given m.leaving.machine.0 place lo s hi l u) };

    ghost above_floor = { λ m c. Prim.omega arith };

    #[tactic(auto, using(crate::specs::Ends::leave_climbs))]
    fn climbs(&self) -> bool {
        true
    }

    #[inline(always)]
    fn value(&self, c: Choice) -> u64 {
        self.leaving.value(c).max(self.floor)
    }

    fn floor(&self) -> u64 {
        self.floor
    }
}

// until when each choice keeps the host, where none gives it up before a number: rows are read up to one that does then
#[tactic(auto, using(crate::proofs::ChangeLemmas::least_from))]
fn leave_from(p: &Problem, v: VmId, domain: &Domain, floor: u64) -> u64
    requires machine { IsElement p.now.given (Element.Vm v) }
    requires floor { (c : AnyChoice) → Contains (choices domain.now) c → floor ≤ leave_of p.now.given v.0 c }
    ensures { result ≡ least (leave_of p.now.given v.0) (choices domain.now) }
{
    let leaving = Leaving {
        problem: p,
        machine: v,
        leaves: leaves_of(p, v),
    };
    lowest(domain, None, &LeavingFrom { leaving, floor }).unwrap_or(0)
}

/// Until when each choice of a machine keeps its host, 0 where it has none.
#[tactic(auto, using(crate::proofs::RowLemmas::all_stay))]
pub fn leave(p: &Problem, v: VmId, domain: &Domain) -> u64
    requires { IsElement p.now.given (Element.Vm v) }
    ensures { result ≡ least (leave_of p.now.given v.0) (choices domain.now) }
{
    let leaving = Leaving {
        problem: p,
        machine: v,
        leaves: leaves_of(p, v),
    };
    lowest(domain, None, &leaving).unwrap_or(0)
}

// where all choices go; two rows go to two places
#[tactic(auto, using(crate::proofs::RowLemmas::come_idle))]
fn come(domain: &Domain) -> Option<Arrival>
    ensures { (n t : ℕ) → comes_by n t result ≡ have_come n t (choices domain.now) }
{
    if domain.idle() {
        return None;
    }
    match domain.rows() {
        [row] => match row.place {
            Place::Nowhere => None,
            Place::At(node) => Some(Arrival { node, last: row.hi }),
        },
        _ => None,
    }
}

/// Where a machine surely stands that has the choices of a domain.
pub fn standing_of(p: &Problem, v: VmId, domain: &Domain) -> Standing
    requires { IsElement p.now.given (Element.Vm v) }
    ensures { IsStanding p.now.given v.0 (choices domain.now) result }
{
    Standing {
        leave: leave(p, v, domain),
        come: come(domain),
    }
}

// the first start at the last place of a domain, if it has one
fn choice_at_last_place(domain: &Domain) -> Option<Choice>
    ensures { IfSome result (λ c. Contains (choices domain.now) c) }
{
    let rows = domain.rows();
    let count = rows.len();
    if count == 0 {
        return None;
    }
    let row = rows[count - 1];
    Some(Choice::Act {
        place: row.place,
        start: row.lo,
    })
}

// whether a choice at the last place gives the host up by a number: where place after place is taken away, that one stands longest
fn is_left_by(p: &Problem, v: VmId, leaves: Option<Leaves>, domain: &Domain, by: u64) -> bool
    requires machine { IsElement p.now.given (Element.Vm v) }
    requires leaves { IfSome leaves (AreLeaves p.now.given v.0) }
    ensures { IsTrue result → (c : AnyChoice) × Contains (choices domain.now) c × (leave_of p.now.given v.0 c ≤ by) }
{
    let leaving = Leaving {
        problem: p,
        machine: v,
        leaves,
    };
    match choice_at_last_place(domain) {
        None => false,
        Some(c) => leaving.value(c) <= by,
    }
}

// until when each choice keeps the host, where it was `old` before some were lost; no row is read where those
// that were lost keep it longer, and one where the last one gives it up as soon
#[tactic(auto, using(crate::proofs::ChangeLemmas::least_kept, crate::proofs::ChangeLemmas::least_stays))]
fn leave_after(p: &Problem, v: VmId, domain: &Domain, lost: Lost, old: u64) -> u64
    requires machine { IsElement p.now.given (Element.Vm v) }
    requires fewer { AreFewer (choices domain.now) (choices (restored lost domain.now)) }
    requires was { old ≡ least (leave_of p.now.given v.0) (choices (restored lost domain.now)) }
    ensures { result ≡ least (leave_of p.now.given v.0) (choices domain.now) }
{
    let leaves = leaves_of(p, v);
    let leaving = Leaving {
        problem: p,
        machine: v,
        leaves,
    };
    match lowest_lost(lost, &leaving) {
        None => old,
        Some(first) => {
            if old < first {
                return old;
            }
            if is_left_by(p, v, leaves, domain, old) {
                return old;
            }
            leave_from(p, v, domain, old)
        }
    }
}

/// Where a machine surely stands after a change of its domain, by where it stood before.
///
/// Where a row or Idle was taken away that did not give `leave`, this reads two rows at most.
pub fn standing_after(
    p: &Problem,
    v: VmId,
    domain: &Domain,
    before: Before,
    _kept: &Domain,
    old: Standing,
) -> Standing
    requires machine { IsElement p.now.given (Element.Vm v) }
    requires fewer { AreFewer (choices domain.now) (choices (domain_before before _kept.now domain.now)) }
    requires was { IsStanding p.now.given v.0 (choices (domain_before before _kept.now domain.now)) old }
    ensures { IsStanding p.now.given v.0 (choices domain.now) result }
{
    let leave = match before {
        Before::Kept => leave(p, v, domain),
        Before::Lost(lost) => leave_after(p, v, domain, lost, old.leave),
    };
    Standing {
        leave,
        come: come(domain),
    }
}
