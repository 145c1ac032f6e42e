//! The profile of one node and resource.
ghost use Rattle.std.specs.Prelude.{◌≡◌, ◌<◌, [], length, OnOk, OnErr, IfOk};
ghost use Rattle.relax.specs.Prelude.{AreFewer, choices, domain_at, domain_before, Instance, IsElement, IsSized, load, one, Sets, sets, sure};
ghost use Rattle.{standings.specs.Levels.IsBack, standings.specs.Levels.marked, profiles.specs.NodeLoad.IsProfile, domains.specs.SetsBefore.sets_before};

use crate::node_load::share::{Share, shares_of, total_use};
use base::Memory;
use catalogue::Problem;
use cluster::{Instant, NodeId};
use domains::{Before, Change, Domain, Region};
use standings::table::Table;
use std::alloc::Global;
use std::marker::Model;

/// The sum over the machines of what each uses at the least of a resource on a node, at every instant.
///
/// It has levels, as a propagator has: `mark` adds one, `back` drops it.
#[derive(Drop)]
pub struct Profile {
    node: NodeId,
    resource: u8,
    shares: Vec<Share>,
    table: Table,
}

impl Model for Profile {
    ghost use Rattle.profiles.specs.NodeLoad.{ProfileView, AreSmall};

    ghost Value = { ProfileView };

    ghost view = { λ m. record { node = m.node.0; resource = m.resource; shares = m.shares.items; table = m.table } };

    ghost invariant = { λ m. AreSmall m.shares.items };
}

impl Profile {
    /// The profile of a region, without a mark. The only error is want of memory.
    pub fn new(alloc: Global, p: &Problem, g: &Region, n: NodeId, r: u8) -> Result<Profile, Memory>
        requires region { IsSized p.now.given g.now }
        requires resource { r < length p.now.given.resources }
        ensures node { IfOk result (λ x. x.node ≡ n.0) }
        ensures resource { IfOk result (λ x. x.resource ≡ r) }
        ensures older { IfOk result (λ x. x.table.older ≡ []) }
        ensures right { IfOk result (IsProfile p.now.given (sets g.now)) }
    {
        let shares = shares_of(alloc, p, n, r)?;
        let mut table = Table::new(alloc);
        table.post(p, g)?;
        Ok(Profile {
            node: n,
            resource: r,
            shares,
            table,
        })
    }

    /// Is told that an element has fewer choices in the region now, and what its domain was: `kept`, or the one now
    /// with what it has lost. After want of memory all is as it was.
    pub fn told(
        &mut self,
        p: &Problem,
        g: &Region,
        change: Change,
        before: Before,
        kept: &Domain,
    ) -> Result<(), Memory>
        requires region { IsSized p.now.given g.now }
        requires element { IsElement p.now.given change.element }
        requires fewer { AreFewer (sets g.now change.element) (choices (domain_before before kept.now (domain_at g.now change.element))) }
        requires right { IsProfile p.now.given (sets_before g.now change.element before kept.now) self.old }
        ensures same { self.new ≡ record { node = self.old.node; resource = self.old.resource; shares = self.old.shares; table = record { older = self.old.table.older; top = self.new.table.top } } }
        ensures right { OnOk result (IsProfile p.now.given (sets g.now) self.new) }
        ensures err { OnErr result (self.new ≡ self.old) }
    {
        self.table.told(p, g, change, before, kept)
    }

    /// Makes a mark, to which `back` returns. After want of memory all is as it was.
    pub fn mark(&mut self) -> Result<(), Memory>
        ensures ok { OnOk result (self.new ≡ record { node = self.old.node; resource = self.old.resource; shares = self.old.shares; table = marked self.old.table }) }
        ensures err { OnErr result (self.new ≡ self.old) }
    {
        self.table.mark()
    }

    /// Goes back to the last mark, and drops it.
    pub fn back(&mut self)
        requires { 0 < length self.old.table.older }
        ensures levels { IsBack self.old.table self.new.table }
        ensures same { self.new ≡ record { node = self.old.node; resource = self.old.resource; shares = self.old.shares; table = self.new.table } }
    {
        self.table.back();
    }

    /// What the node surely holds of the resource at an instant, in each region that the top level is right for.
    #[tactic(auto, using(crate::proofs::NodeLoadLemmas::total_is))]
    pub fn at(&self, t: Instant) -> u64
        ensures { (p : Instance) (s : Sets) → IsProfile p s self.now → result ≡ load p (sure p s t) self.now.resource (one self.now.node) }
    {
        total_use(self.node, t, self.shares.as_slice(), self.table.standings())
    }
}
