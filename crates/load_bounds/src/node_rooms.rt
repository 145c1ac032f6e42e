//! What all nodes have of each resource, and the nodes that may not be usable at all times, in a list that only grows.
ghost use Rattle.std.specs.Prelude.{◌≡◌, ℕ, ◌+◌, ◌*◌, ◌<◌, ◌≤◌, [], IfOk, IsTrue, OnOk, length};
ghost use Rattle.std.specs.List.{Contains};
ghost use Rattle.load_bounds.specs.NodeRooms.{always, AreRooms, AreWholeRooms, IsListedOrLasts, IsWholeRoom, IsWidened, IsWidenedBy, Lasts};
ghost use Rattle.load_bounds.specs.Prelude.{all_nodes, HasRoom, IsElement, IsSized, max_capacity, max_nodes, node_count, NodesFit, sets};

use crate::loose_room::LooseRoom;
use crate::room::may_be_used;
use crate::{Period, resource_total};
use base::Memory;
use catalogue::Problem;
use cluster::{Element, NodeId};
use domains::Region;
use std::alloc::Global;
use std::marker::Model;

/// All instants up to the horizon.
pub fn always(p: &Problem) -> Period
    ensures { result ≡ always p.now.given }
{
    Period {
        from: 0,
        to: p.horizon(),
    }
}

// what all nodes have of a resource together, and the most that one has
fn whole_room(p: &Problem, r: u8) -> LooseRoom
    requires { r < length p.now.given.resources }
    ensures { IsWholeRoom p.now.given r result }
{
    let mut total = 0;
    let mut at_stake = 0u64;
    for i in 0..p.cluster().nodes().len() {
        let capacity = p.capacity(NodeId(i as u32), r);
        total += capacity;
        at_stake = at_stake.max(capacity);
    }
    LooseRoom { total, at_stake }
}

// of each resource
fn whole_rooms(alloc: Global, p: &Problem) -> Result<Vec<LooseRoom>, Memory>
    ensures { IfOk result (λ xs. AreWholeRooms p.now.given (length p.now.given.resources) xs.items) }
{
    let count = resource_total(p);
    let mut rooms = Vec::with_capacity(alloc, count)?;
    for r in 0..count {
        rooms.push(whole_room(p, r as u8))?;
    }
    Ok(rooms)
}

// whether a node may be usable at all times
fn lasts(p: &Problem, g: &Region, n: NodeId) -> bool
    requires region { IsSized p.now.given g.now }
    requires node { n.0 < node_count p.now.given }
    ensures { IsTrue result → Lasts p.now.given (sets g.now) n.0 }
{
    may_be_used(p, g, n, always(p))
}

/// What all nodes have of each resource, and a list of nodes in which are all that may not be usable at all times.
#[derive(Drop)]
pub struct NodeRooms {
    rooms: Vec<LooseRoom>,
    leavers: Vec<u32>,
}

impl Model for NodeRooms {
    ghost use Rattle.load_bounds.specs.NodeRooms.{RoomsView};

    ghost Value = { RoomsView };

    ghost view = { λ m. record { rooms = m.rooms.items; leavers = m.leavers.items } };
}

impl NodeRooms {
    /// Of no node and no resource. It takes no memory.
    pub fn none(alloc: Global) -> NodeRooms
        ensures { result ≡ record { rooms = []; leavers = [] } }
    {
        NodeRooms {
            rooms: Vec::new(alloc),
            leavers: Vec::new(alloc),
        }
    }

    /// Of the nodes of a problem in a region. The only error is want of memory.
    pub fn of(alloc: Global, p: &Problem, g: &Region) -> Result<NodeRooms, Memory>
        requires { IsSized p.now.given g.now }
        ensures { IfOk result (AreRooms p.now.given (sets g.now)) }
    {
        let mut rooms = NodeRooms {
            rooms: whole_rooms(alloc, p)?,
            leavers: Vec::new(alloc),
        };
        rooms.put_all(p, g)?;
        Ok(rooms)
    }

    // whether a node is in the list
    #[tactic(auto, using(crate::proofs::NodeRoomLemmas::found_listed))]
    fn has(&self, n: NodeId) -> bool
        ensures { IsTrue result → Contains self.now.leavers n.0 }
    {
        self.leavers.iter().any(|m| *m == n.0)
    }

    // puts a node in the list, unless it lasts or is there
    #[tactic(auto, using(crate::proofs::NodeRoomLemmas::widened_not, crate::proofs::NodeRoomLemmas::widened_push, crate::proofs::NodeRoomLemmas::lasts_told, crate::proofs::NodeRoomLemmas::listed_told, crate::proofs::NodeRoomLemmas::pushed_told))]
    fn watch(&mut self, p: &Problem, g: &Region, n: NodeId) -> Result<(), Memory>
        requires region { IsSized p.now.given g.now }
        requires node { n.0 < node_count p.now.given }
        ensures widened { OnOk result (IsWidened (node_count p.now.given) self.old self.new) }
        ensures told { OnOk result (IsListedOrLasts p.now.given (sets g.now) n.0 self.new.leavers) }
    {
        if lasts(p, g, n) || self.has(n) {
            return Ok(());
        }
        self.leavers.push(n.0)?;
        Ok(())
    }

    // puts each node in the list that does not last
    fn put_all(&mut self, p: &Problem, g: &Region) -> Result<(), Memory>
        requires region { IsSized p.now.given g.now }
        requires whole { AreWholeRooms p.now.given (length p.now.given.resources) self.old.rooms }
        requires none { self.old.leavers ≡ [] }
        ensures { OnOk result (AreRooms p.now.given (sets g.now) self.new) }
    {
        for i in 0..p.cluster().nodes().len() {
            self.watch(p, g, NodeId(i as u32))?;
        }
        Ok(())
    }

    /// Told of a change of an element: a node that may not be usable at all times now is put in the list, where it is
    /// not yet. The only error is want of memory.
    #[tactic(auto, using(crate::proofs::NodeRoomLemmas::widened_not))]
    pub fn told(&mut self, p: &Problem, g: &Region, e: Element) -> Result<(), Memory>
        requires region { IsSized p.now.given g.now }
        requires element { IsElement p.now.given e }
        ensures widened { OnOk result (IsWidened (node_count p.now.given) self.old self.new) }
        ensures told { OnOk result (IsWidenedBy p.now.given (sets g.now) e self.new.leavers) }
    {
        match e {
            Element::Vm(_) => Ok(()),
            Element::Node(n) => self.watch(p, g, n),
        }
    }

    /// The room of all nodes at all times: what all have but those in the list, and the most that one may lack.
    pub fn room(&self, p: &Problem, _g: &Region, r: u8) -> LooseRoom
        requires right { AreRooms p.now.given (sets _g.now) self.now }
        requires resource { r < length p.now.given.resources }
        ensures room { HasRoom p.now.given (sets _g.now) r (all_nodes p.now.given) (always p.now.given) result.total }
        ensures stake { (used : ℕ) → used + result.at_stake ≤ result.total → NodesFit p.now.given (sets _g.now) r (all_nodes p.now.given) (always p.now.given) used }
        ensures small { result.total ≤ max_nodes * max_capacity }
        ensures small_stake { result.at_stake ≤ max_capacity }
    {
        let whole = self.rooms[r as usize];
        let mut total = whole.total;
        for i in 0..self.leavers.len() {
            total = total.saturating_sub(p.capacity(NodeId(self.leavers[i]), r));
        }
        LooseRoom {
            total,
            at_stake: whole.at_stake,
        }
    }
}
