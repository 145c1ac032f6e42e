//! The look at the load of one node, by where machines surely stand.
ghost use Rattle.std.specs.Prelude.{◌<◌, IfNone};
ghost use Rattle.rule_load.specs.Prelude.{AreKeptAt, IsLook, IsSized, load_watch, node_count, sets};

use crate::change_instants::next_change;
use crate::confirm::confirmed;
use crate::doubt::load_doubt;
use crate::{Kept, Period};
use closing::watch::look_at_load;
use rule_frame::{Look, NodeId, Problem, Region};

// the first case in which a node may be overloaded
fn first_doubt(p: &Problem, g: &Region, kept: Kept<'_>, n: NodeId) -> Option<Look>
    requires region { IsSized p.now.given g.now }
    requires kept { AreKeptAt p.now.given (sets g.now) n.0 kept.fixed.now kept.standings.now kept.near.now kept.firsts.now }
    requires node { n.0 < node_count p.now.given }
    ensures { IfNone result (IsLook (load_watch p.now.given n.0) p.now.given (sets g.now) Look.Clean) }
{
    let mut from = 0u64;
    let mut start = 0;
    'periods: while from <= u64::from(p.horizon()) {
        let next = next_change(p, g, kept, n, from);
        let x = Period {
            from: from as u32,
            to: (next - 1) as u32,
        };
        if let Some(doubt) = load_doubt(p, g, kept, n, x, &mut start) {
            return Some(doubt);
        }
        from = next;
    }
    None
}

/// A look at the load of a node. No row of a machine is read but of those that may be too much; a case that may
/// be one is looked at exactly, and where it is none, the node is looked at in full.
pub(crate) fn node_look(p: &Problem, g: &Region, kept: Kept<'_>, n: NodeId) -> Look
    requires region { IsSized p.now.given g.now }
    requires kept { AreKeptAt p.now.given (sets g.now) n.0 kept.fixed.now kept.standings.now kept.near.now kept.firsts.now }
    requires node { n.0 < node_count p.now.given }
    ensures { IsLook (load_watch p.now.given n.0) p.now.given (sets g.now) result }
{
    match first_doubt(p, g, kept, n) {
        None => Look::Clean,
        Some(doubt) => match confirmed(p, g, kept, n, doubt) {
            Some(look) => look,
            None => look_at_load(p, g, n),
        },
    }
}
