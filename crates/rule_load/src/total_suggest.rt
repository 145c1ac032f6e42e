//! Cuts that are worth a try after one by the load of all nodes together was found: the same of other machines.
ghost use Rattle.std.specs.Prelude.{◌<◌, IfSome, length};
ghost use Rattle.rule_load.specs.Prelude.{AreMovers, AreStanding, IsElement, IsFixed, IsSized, sets};

use crate::{Fixed, Period, Standing, is_host, resource_total};
use load_bounds::loose_room::loose_room;
use load_bounds::total_uses::most_total;
use relax::measures::end;
use rule_frame::{
    Choice, Element, Instant, Memory, Part, Place, Problem, Reason, Region, Row, Suggestion, VmId,
};

/// A lack of a resource on all nodes together at an instant, and what is spare there beside what machines surely use.
#[derive(Clone, Copy)]
struct Lack {
    at: Instant,
    resource: u8,
    spare: u64,
    reason: Reason,
}

// what is spare where a reason speaks of it
fn lack_of(
    p: &Problem,
    f: &Fixed,
    g: &Region,
    ks: &[Standing],
    movers: &[u32],
    reason: Reason,
) -> Option<Lack>
    requires region { IsSized p.now.given g.now }
    requires fixed { IsFixed p.now.given f.now }
    requires right { AreStanding p.now.given (sets g.now) ks.now }
    requires movers { AreMovers p.now.given (sets g.now) movers.now }
    ensures { IfSome result (λ lack. lack.resource < length p.now.given.resources) }
{
    let Reason::Load(at, resource, _) = reason else {
        return None;
    };
    if at > p.horizon() || resource as usize >= resource_total(p) {
        return None;
    }
    let x = Period { from: at, to: at };
    let used = most_total(p, f, g, ks, movers, resource, x);
    let room = loose_room(p, g, resource, x).total;
    Some(Lack {
        at,
        resource,
        spare: room.saturating_sub(used),
        reason,
    })
}

// the starts of a row with which a migration goes on at an instant: a part that has no other start of it
fn part_of(p: &Problem, v: VmId, row: Row, at: Instant) -> Option<Part>
    requires { IsElement p.now.given (Element.Vm v) }
{
    let last = Choice::Act {
        place: row.place,
        start: row.hi,
    };
    let duration = end(p, Element::Vm(v), last).saturating_sub(u64::from(row.hi));
    let first = (u64::from(at) + 1).saturating_sub(duration);
    if row.hi <= at {
        if u64::from(row.hi) < first {
            return None;
        }
        return Some(Part::From(row.place, (first as u32).max(row.lo)));
    }
    if row.lo <= at && first <= u64::from(row.lo) {
        return Some(Part::Upto(row.place, at));
    }
    None
}

// those of a machine, where it uses more than is spare
fn suggest_of(
    p: &Problem,
    g: &Region,
    v: VmId,
    lack: Lack,
    them: &mut Vec<Suggestion>,
) -> Result<(), Memory>
    requires region { IsSized p.now.given g.now }
    requires machine { IsElement p.now.given (Element.Vm v) }
    requires resource { lack.resource < length p.now.given.resources }
{
    if p.demand(v, lack.resource) <= lack.spare {
        return Ok(());
    }
    for row in g.domain(Element::Vm(v)).rows() {
        let Place::At(n) = row.place else {
            continue;
        };
        if is_host(p, v, n) {
            continue;
        }
        if let Some(part) = part_of(p, v, *row, lack.at) {
            them.push(Suggestion {
                element: Element::Vm(v),
                part,
                reason: lack.reason,
            })?;
        }
    }
    Ok(())
}

/// Puts the starts of all machines into a list with which these move at the instant of a reason, and use more by that
/// than is spare.
pub(crate) fn suggest_everywhere(
    p: &Problem,
    f: &Fixed,
    g: &Region,
    ks: &[Standing],
    movers: &[u32],
    found: &Suggestion,
    them: &mut Vec<Suggestion>,
) -> Result<(), Memory>
    requires region { IsSized p.now.given g.now }
    requires fixed { IsFixed p.now.given f.now }
    requires right { AreStanding p.now.given (sets g.now) ks.now }
    requires movers { AreMovers p.now.given (sets g.now) movers.now }
{
    let Some(lack) = lack_of(p, f, g, ks, movers, found.reason) else {
        return Ok(());
    };
    for i in 0..p.cluster().machines().len() {
        suggest_of(p, g, VmId(i as u32), lack, them)?;
    }
    Ok(())
}
