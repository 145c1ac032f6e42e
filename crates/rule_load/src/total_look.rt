//! The look at the load of all nodes together, by where machines surely stand.
ghost use Rattle.std.specs.Prelude.{ℕ, ◌+◌, ◌-◌, ◌<◌, ◌≤◌, length, IfSome, IsTrue};
ghost use Rattle.load_bounds.specs.NodeRooms.{always};
ghost use Rattle.rule_load.specs.Prelude.{all_nodes, AreMovers, AreRooms, AreStanding, IsFixed, IsFreeDuring, IsFreePast, IsLook, IsOverload, IsOverloaded, IsSized, MachinesFit, Period as AnyPeriod, Sets, sets, total_load_watch};

use crate::change_instants::next_change_anywhere;
use crate::room::steady_room;
use crate::{Fixed, Period, Standing, resource_total};
use closing::watch::look_at_total_load;
use load_bounds::loose_room::{LooseRoom, loose_room};
use load_bounds::node_rooms::{NodeRooms, always};
use load_bounds::total_fit::{any_fits, machines_fit};
use load_bounds::total_uses::{most_at_once, most_total};
use rule_frame::{Look, Problem, Region};

// whether it is seen that of a resource enough is there during a period: those nodes have it that are usable under all their
// choices, or those that may be usable, also without any one of them, where these have more
fn has_enough(
    p: &Problem,
    f: &Fixed,
    g: &Region,
    ks: &[Standing],
    movers: &[u32],
    r: u8,
    x: Period,
) -> bool
    requires region { IsSized p.now.given g.now }
    requires fixed { IsFixed p.now.given f.now }
    requires right { AreStanding p.now.given (sets g.now) ks.now }
    requires movers { AreMovers p.now.given (sets g.now) movers.now }
    requires resource { r < length p.now.given.resources }
    requires period { x.to ≤ p.now.given.horizon }
    ensures { IsTrue result → IsFreeDuring (λ b. IsOverload p.now.given b r (all_nodes p.now.given)) p.now.given (sets g.now) x }
{
    let used = most_total(p, f, g, ks, movers, r, x);
    let steady = steady_room(p, g, r, x);
    if used <= steady && machines_fit(p, f, g, ks, r, x, steady - used) {
        return true;
    }
    let loose = loose_room(p, g, r, x);
    if loose.total <= steady {
        return false;
    }
    used + loose.at_stake <= loose.total && machines_fit(p, f, g, ks, r, x, loose.total - used)
}

// whether that much use leaves of a room what one node may lack, or any machine may use more
fn leaves_enough(p: &Problem, f: &Fixed, r: u8, used: u64, room: LooseRoom) -> bool
    requires fixed { IsFixed p.now.given f.now }
    requires resource { r < length p.now.given.resources }
    ensures within { IsTrue result → used + room.at_stake ≤ room.total }
    ensures machines { IsTrue result → (s : Sets) (x : AnyPeriod) (most : ℕ → ℕ) → MachinesFit p.now.given s r (all_nodes p.now.given) x most (room.total - used) }
{
    used <= room.total && room.at_stake <= room.total - used && any_fits(p, f, r, room.total - used)
}

// whether it is seen by what is kept of all nodes that of a resource enough is there at all times, without a look at any
fn is_roomy_at_once(
    p: &Problem,
    f: &Fixed,
    g: &Region,
    ks: &[Standing],
    movers: &[u32],
    rooms: &NodeRooms,
    r: u8,
) -> bool
    requires region { IsSized p.now.given g.now }
    requires fixed { IsFixed p.now.given f.now }
    requires right { AreStanding p.now.given (sets g.now) ks.now }
    requires movers { AreMovers p.now.given (sets g.now) movers.now }
    requires rooms { AreRooms p.now.given (sets g.now) rooms.now }
    requires resource { r < length p.now.given.resources }
    ensures { IsTrue result → IsFreeDuring (λ b. IsOverload p.now.given b r (all_nodes p.now.given)) p.now.given (sets g.now) (always p.now.given) }
{
    let room = rooms.room(p, g, r);
    match most_at_once(p, f, g, ks, movers, r) {
        None => false,
        Some(used) => leaves_enough(p, f, r, used, room),
    }
}

// the same, with a look at the machines that may not stay
fn is_roomy(
    p: &Problem,
    f: &Fixed,
    g: &Region,
    ks: &[Standing],
    movers: &[u32],
    rooms: &NodeRooms,
    r: u8,
) -> bool
    requires region { IsSized p.now.given g.now }
    requires fixed { IsFixed p.now.given f.now }
    requires right { AreStanding p.now.given (sets g.now) ks.now }
    requires movers { AreMovers p.now.given (sets g.now) movers.now }
    requires rooms { AreRooms p.now.given (sets g.now) rooms.now }
    requires resource { r < length p.now.given.resources }
    ensures { IsTrue result → IsFreeDuring (λ b. IsOverload p.now.given b r (all_nodes p.now.given)) p.now.given (sets g.now) (always p.now.given) }
{
    let x = always(p);
    let used = most_total(p, f, g, ks, movers, r, x);
    let room = rooms.room(p, g, r);
    leaves_enough(p, f, r, used, room)
}

// whether it is seen that of a resource enough is there at all times: what is kept of all nodes tells first
fn has_always_enough(
    p: &Problem,
    f: &Fixed,
    g: &Region,
    ks: &[Standing],
    movers: &[u32],
    rooms: &NodeRooms,
    r: u8,
) -> bool
    requires region { IsSized p.now.given g.now }
    requires fixed { IsFixed p.now.given f.now }
    requires right { AreStanding p.now.given (sets g.now) ks.now }
    requires movers { AreMovers p.now.given (sets g.now) movers.now }
    requires rooms { AreRooms p.now.given (sets g.now) rooms.now }
    requires resource { r < length p.now.given.resources }
    ensures { IsTrue result → IsFreeDuring (λ b. IsOverload p.now.given b r (all_nodes p.now.given)) p.now.given (sets g.now) (always p.now.given) }
{
    is_roomy_at_once(p, f, g, ks, movers, rooms, r)
        || is_roomy(p, f, g, ks, movers, rooms, r)
        || has_enough(p, f, g, ks, movers, r, always(p))
}

// whether it is of each resource
fn is_free(p: &Problem, f: &Fixed, g: &Region, ks: &[Standing], movers: &[u32], x: Period) -> bool
    requires region { IsSized p.now.given g.now }
    requires fixed { IsFixed p.now.given f.now }
    requires right { AreStanding p.now.given (sets g.now) ks.now }
    requires movers { AreMovers p.now.given (sets g.now) movers.now }
    requires period { x.to ≤ p.now.given.horizon }
    ensures { IsTrue result → IsFreeDuring (IsOverloaded p.now.given (all_nodes p.now.given)) p.now.given (sets g.now) x }
{
    for r in 0..resource_total(p) {
        if !has_enough(p, f, g, ks, movers, r as u8, x) {
            return false;
        }
    }
    true
}

// whether it is at all times taken together, which what is kept tells first
fn is_always_free(
    p: &Problem,
    f: &Fixed,
    g: &Region,
    ks: &[Standing],
    movers: &[u32],
    rooms: &NodeRooms,
) -> bool
    requires region { IsSized p.now.given g.now }
    requires fixed { IsFixed p.now.given f.now }
    requires right { AreStanding p.now.given (sets g.now) ks.now }
    requires movers { AreMovers p.now.given (sets g.now) movers.now }
    requires rooms { AreRooms p.now.given (sets g.now) rooms.now }
    ensures { IsTrue result → IsFreeDuring (IsOverloaded p.now.given (all_nodes p.now.given)) p.now.given (sets g.now) (always p.now.given) }
{
    for r in 0..resource_total(p) {
        if !has_always_enough(p, f, g, ks, movers, rooms, r as u8) {
            return false;
        }
    }
    true
}

// the end of a period from an instant on in which it is, if one is seen: as long a one as may be, or half as long and so on,
// down to the next change
fn free_until(
    p: &Problem,
    f: &Fixed,
    g: &Region,
    ks: &[Standing],
    movers: &[u32],
    from: u64,
    far: u64,
) -> Option<u64>
    requires region { IsSized p.now.given g.now }
    requires fixed { IsFixed p.now.given f.now }
    requires right { AreStanding p.now.given (sets g.now) ks.now }
    requires movers { AreMovers p.now.given (sets g.now) movers.now }
    requires within { from ≤ p.now.given.horizon }
    requires far { far ≤ p.now.given.horizon + 1 }
    ensures { IfSome result (IsFreePast p.now.given (sets g.now) (all_nodes p.now.given) from) }
{
    let next = next_change_anywhere(p, g, ks, movers, from);
    let mut until = far.max(next);
    'halves: loop {
        let x = Period {
            from: from as u32,
            to: (until - 1) as u32,
        };
        if is_free(p, f, g, ks, movers, x) {
            return Some(until);
        }
        if until == next {
            return None;
        }
        until = next + (until - next) / 2;
    }
}

// whether it is in periods one after the other
fn is_free_by_periods(p: &Problem, f: &Fixed, g: &Region, ks: &[Standing], movers: &[u32]) -> bool
    requires region { IsSized p.now.given g.now }
    requires fixed { IsFixed p.now.given f.now }
    requires right { AreStanding p.now.given (sets g.now) ks.now }
    requires movers { AreMovers p.now.given (sets g.now) movers.now }
    ensures { IsTrue result → IsLook (total_load_watch p.now.given) p.now.given (sets g.now) Look.Clean }
{
    let end = u64::from(p.horizon()) + 1;
    let mut from = 0u64;
    let mut far = end / 2;
    'periods: while from < end {
        let Some(until) = free_until(p, f, g, ks, movers, from, far.min(end)) else {
            return false;
        };
        // the next period may be twice as long
        far = until.saturating_add((until - from).saturating_mul(2));
        from = until;
    }
    true
}

/// A look at the load of all nodes together. Where it is not seen by where machines surely stand that it is clean,
/// it is looked at in full. All other machines than those handed in may stay.
pub(crate) fn total_look(
    p: &Problem,
    f: &Fixed,
    g: &Region,
    ks: &[Standing],
    movers: &[u32],
    rooms: &NodeRooms,
) -> Look
    requires region { IsSized p.now.given g.now }
    requires fixed { IsFixed p.now.given f.now }
    requires right { AreStanding p.now.given (sets g.now) ks.now }
    requires movers { AreMovers p.now.given (sets g.now) movers.now }
    requires rooms { AreRooms p.now.given (sets g.now) rooms.now }
    ensures { IsLook (total_load_watch p.now.given) p.now.given (sets g.now) result }
{
    if is_always_free(p, f, g, ks, movers, rooms) {
        return Look::Clean;
    }
    if is_free_by_periods(p, f, g, ks, movers) {
        return Look::Clean;
    }
    look_at_total_load(p, g)
}
