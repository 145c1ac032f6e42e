//! Before when it is known that machines do not start at nodes, kept with levels: of these no row need be read.
ghost use Rattle.std.specs.Prelude.{◌≡◌, ℕ, ◌<◌, ◌%◌, [], slice_index_or, IsTrue, OnErr, OnOk, length};
ghost use Rattle.standings.specs.{Levels.IsBack, Levels.marked};
ghost use Rattle.machine_bounds.specs.Prelude.{AreGone, bound_count, choices, gone_at, IsElement, IsSized, max_nodes, sets, StartsFrom};

use base::Memory;
use catalogue::Problem;
use cluster::limits::MAX_NODES;
use cluster::{Element, NodeId, Place, VmId};
use domains::{Change, Domain, Part, Region, Side};
use standings::levels::Levelled;
use standings::numbers::{NEVER, Standing};
use std::alloc::Global;
use std::marker::Model;

/// How many words of 64 bits hold a bit for each node.
pub const NODE_WORDS: usize = MAX_NODES / 64;

/// For how many instants a bit is kept of each machine: for each node `NEVER`, and for each node a second one.
pub const BOUNDS: usize = 2 * MAX_NODES;

/// How many words of 64 bits hold the bits of a machine.
pub const BOUND_WORDS: usize = 2 * NODE_WORDS;

/// For each machine two bits for each node, set only where no choice of the machine starts there before an instant: that
/// is `NEVER`, and when all machines that the node hosts have left it, as they were posted. As a region narrows each bit
/// stays right, so not all changes need be told.
#[derive(Drop)]
pub struct Gone {
    bounds: [u64; BOUNDS],
    words: Levelled<u64>,
    alloc: Global,
}

impl Model for Gone {
    ghost use Rattle.machine_bounds.specs.Gone.{GoneView};

    ghost Value = { GoneView };

    ghost view = { λ m. record { bounds = m.bounds; words = m.words } };
}

// whether no choice starts at a node before an instant
#[tactic(auto, using(crate::proofs::GoneLemmas::none_ever, crate::proofs::GoneLemmas::none_before))]
fn starts_from(domain: &Domain, n: NodeId, from: u64) -> bool
    ensures { IsTrue result → StartsFrom (choices domain.now) n.0 from }
{
    if from == 0 {
        return true;
    }
    if from > u64::from(u32::MAX) {
        return domain.leaves_none(Part::From(Place::At(n), 0), Side::Inside);
    }
    domain.leaves_none(Part::Upto(Place::At(n), (from - 1) as u32), Side::Inside)
}

// where the word of a machine stands that has its bit for the bound of a number
fn place_of(v: VmId, bound: usize) -> usize
    ensures { result ≡ gone_at v.0 bound }
{
    v.0 as usize * BOUND_WORDS + bound / 64
}

// `NEVER` for each node, and for each when the last machine that it hosts has left it by some numbers
fn bounds_of(p: &Problem, standings: &[Standing]) -> [u64; BOUNDS] {
    let mut bounds = [0; BOUNDS];
    for n in 0..MAX_NODES {
        bounds[n] = NEVER;
    }
    let machines = p.cluster().machines();
    for i in 0..machines.len().min(standings.len()) {
        let Some(host) = machines[i].state.host() else {
            continue;
        };
        let bound = MAX_NODES + host.0 as usize;
        if bound < BOUNDS {
            bounds[bound] = bounds[bound].max(standings[i].leave);
        }
    }
    bounds
}

impl Gone {
    /// Of no machine, with one level. It takes no memory.
    pub fn new(alloc: Global) -> Gone
        ensures { result.words ≡ record { older = []; top = [] } }
    {
        Gone {
            bounds: [0; BOUNDS],
            words: Levelled::new(alloc),
            alloc,
        }
    }

    /// How many marks stand.
    pub fn level(&self) -> u64
        ensures { result ≡ length self.now.words.older }
    {
        self.words.level()
    }

    /// The instants for which bits are kept: the first one of each node, and then the second ones.
    pub fn bounds(&self) -> &[u64; BOUNDS]
        ensures { result.now ≡ self.now.bounds }
    {
        &self.bounds
    }

    /// The words of all machines.
    pub fn words(&self) -> &[u64]
        ensures { result.now ≡ self.now.words.top }
    {
        self.words.items()
    }

    /// Starts anew for a region in which machines have these numbers, with no mark and no bit: what matters is told of
    /// sooner or later. The only error is want of memory.
    #[tactic(auto, using(crate::proofs::GoneLemmas::nought_gone))]
    pub fn post(&mut self, p: &Problem, _g: &Region, standings: &[Standing]) -> Result<(), Memory>
        ensures older { OnOk result (self.new.words.older ≡ []) }
        ensures top { OnOk result (AreGone (sets _g.now) self.new.bounds self.new.words.top) }
    {
        let mut words = Vec::new(self.alloc);
        words.resize(p.cluster().machines().len() * BOUND_WORDS, 0)?;
        self.words.reset(words);
        self.bounds = bounds_of(p, standings);
        Ok(())
    }

    // sets the bit of a machine for the bound of a number, where no choice starts at its node before
    #[tactic(auto, using(crate::proofs::GoneLemmas::gone_put))]
    fn put(&mut self, _g: &Region, v: VmId, bound: usize) -> Result<(), Memory>
        requires right { AreGone (sets _g.now) self.old.bounds self.old.words.top }
        requires bound { bound < bound_count }
        requires from { StartsFrom (sets _g.now (Element.Vm v)) (bound % max_nodes) (slice_index_or self.old.bounds bound 0) }
        ensures bounds { self.new.bounds ≡ self.old.bounds }
        ensures older { self.new.words.older ≡ self.old.words.older }
        ensures top { OnOk result (AreGone (sets _g.now) self.new.bounds self.new.words.top) }
    {
        let i = place_of(v, bound);
        if i >= self.words.items().len() || i > u32::MAX as usize {
            return Ok(());
        }
        let word = self.words.items()[i];
        self.words.set(i as u32, word | 1 << (bound % 64))?;
        Ok(())
    }

    /// Is told of a change that has led to a region, for which these are right already: a bit of its machine is set, where
    /// it is of one node at which the machine does not start before a bound now. The only error is want of memory.
    pub fn told(&mut self, p: &Problem, g: &Region, change: Change) -> Result<(), Memory>
        requires region { IsSized p.now.given g.now }
        requires element { IsElement p.now.given change.element }
        requires right { AreGone (sets g.now) self.old.bounds self.old.words.top }
        ensures bounds { self.new.bounds ≡ self.old.bounds }
        ensures older { self.new.words.older ≡ self.old.words.older }
        ensures top { OnOk result (AreGone (sets g.now) self.new.bounds self.new.words.top) }
    {
        let Element::Vm(v) = change.element else {
            return Ok(());
        };
        match change.part {
            Part::Idle => Ok(()),
            Part::Upto(place, _) | Part::From(place, _) => self.put_at(p, g, v, place),
        }
    }

    // of a machine at a place: the later of the two bounds that it keeps to
    fn put_at(&mut self, p: &Problem, g: &Region, v: VmId, place: Place) -> Result<(), Memory>
        requires region { IsSized p.now.given g.now }
        requires machine { IsElement p.now.given (Element.Vm v) }
        requires right { AreGone (sets g.now) self.old.bounds self.old.words.top }
        ensures bounds { self.new.bounds ≡ self.old.bounds }
        ensures older { self.new.words.older ≡ self.old.words.older }
        ensures top { OnOk result (AreGone (sets g.now) self.new.bounds self.new.words.top) }
    {
        let Place::At(n) = place else {
            return Ok(());
        };
        let first = n.0 as usize;
        if first >= MAX_NODES {
            return Ok(());
        }
        let second = MAX_NODES + first;
        let domain = g.domain(Element::Vm(v));
        if !starts_from(domain, n, self.bounds[second]) {
            return Ok(());
        }
        if starts_from(domain, n, self.bounds[first]) {
            self.put(g, v, first)
        } else {
            self.put(g, v, second)
        }
    }

    /// Makes a mark, to which `back` returns. After want of memory all is as it was.
    pub fn mark(&mut self) -> Result<(), Memory>
        ensures bounds { self.new.bounds ≡ self.old.bounds }
        ensures ok { OnOk result (self.new.words ≡ marked self.old.words) }
        ensures err { OnErr result (self.new ≡ self.old) }
    {
        self.words.mark()
    }

    /// Goes back to the last mark, and drops it.
    pub fn back(&mut self)
        requires { 0 < length self.old.words.older }
        ensures bounds { self.new.bounds ≡ self.old.bounds }
        ensures words { IsBack self.old.words self.new.words }
    {
        self.words.back()
    }
}
