//! The load of all nodes together at the horizon: where there is no room at all, one line is a whole proof.
ghost use Rattle.std.specs.Prelude.{◌<◌, IfSome, length};
ghost use Rattle.rule_load.specs.Prelude.{FailHolds, IsFixed, IsSized, sets};

use crate::nodes::{node_total, watched_nodes};
use crate::room::room_of;
use crate::{Fixed, Period, resource_total};
use relax::refutes::refutes;
use rule_frame::{NodeId, Problem, Reason, Region};

// the capacity of the nodes that may be usable at the horizon
fn last_room(p: &Problem, g: &Region, r: u8) -> u64
    requires region { IsSized p.now.given g.now }
    requires resource { r < length p.now.given.resources }
{
    let last = Period {
        from: p.horizon(),
        to: p.horizon(),
    };
    let mut total: u64 = 0;
    for i in 0..node_total(p) {
        total = total.saturating_add(room_of(p, g, NodeId(i as u32), r, last));
    }
    total
}

/// The reason why what machines surely use at the horizon exceeds what all nodes have, where it does. It is looked for
/// only where what they use at present would exceed it, since adding up takes long.
pub(crate) fn lack_at_horizon(p: &Problem, f: &Fixed, g: &Region) -> Option<Reason>
    requires region { IsSized p.now.given g.now }
    requires fixed { IsFixed p.now.given f.now }
    ensures { IfSome result (FailHolds p.now.given (sets g.now)) }
{
    for i in 0..resource_total(p) {
        let r = i as u8;
        let reason = Reason::Load(p.horizon(), r, watched_nodes(p, node_total(p)));
        if last_room(p, g, r) < f.total_base(p, r) && refutes(p, None, g, &reason) {
            return Some(reason);
        }
    }
    None
}
