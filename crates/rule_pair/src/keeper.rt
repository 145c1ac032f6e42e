//! Where machines surely stand, and before when they do not start at nodes, kept beside the index of constraints.
ghost use Rattle.std.specs.Prelude.{◌≡◌};
ghost use Rattle.rule_frame.specs.Caches.{IsCacheFor};
ghost use Rattle.rule_pair.specs.Prelude.{AreGone, AreRight, cache_of, sets};

use machine_bounds::gone::Gone;
use rule_constraint::ConstraintIndex;
use rule_constraint::kinds::reason_kind;
use rule_frame::{Before, Change, Constraint, Domain, Keeper, Memory, Problem, ReasonKind, Region};
use standings::numbers::Standing;
use standings::table::Table;
use std::alloc::Global;
use std::default::MadeWith;

// whether a constraint keeps machines apart
fn is_of_pairs(constraint: &Constraint) -> bool {
    matches!(reason_kind(constraint), Some(ReasonKind::Pair))
}

// whether a constraint of a problem does
fn has_pairs(p: &Problem) -> bool {
    for constraint in p.constraints() {
        if is_of_pairs(constraint) {
            return true;
        }
    }
    false
}

/// Keeps which constraints look at each element, and for each machine until when it surely stands on its host, where it
/// surely comes to, and nodes at which it does not start, or not before an instant. Where no constraint keeps machines
/// apart, nobody asks that, and it is not kept.
#[derive(Drop)]
pub struct PairKeeper {
    index: ConstraintIndex,
    table: Table,
    gone: Gone,
    is_wanted: bool,
    alloc: Global,
}

impl PairKeeper {
    /// Of no machine, with one level. It takes no memory.
    pub fn new(alloc: Global) -> PairKeeper {
        PairKeeper {
            index: ConstraintIndex::new(alloc),
            table: Table::new(alloc),
            gone: Gone::new(alloc),
            is_wanted: false,
            alloc,
        }
    }

    /// Which constraints look at each element.
    pub fn index(&self) -> &ConstraintIndex
        ensures { result.now ≡ self.now.index }
    {
        &self.index
    }

    /// Where the machines surely stand in the region of which this was told last; no machine, where that is not kept.
    #[tactic(auto, using(crate::proofs::KeptLemmas::kept_right, crate::proofs::KeptLemmas::none_right))]
    pub fn standings(&self, _p: &Problem, _g: &Region) -> &[Standing]
        requires { IsCacheFor (cache_of self.now.index.lists self.now.table self.now.gone self.now.is_wanted) _p.now.given (sets _g.now) }
        ensures { AreRight _p.now.given (sets _g.now) result.now }
    {
        if self.is_wanted {
            self.table.standings()
        } else {
            &[]
        }
    }

    /// Before when it is known that machines do not start at nodes in the region of which this was told last; of no
    /// machine, where that is not kept.
    #[tactic(auto, using(crate::proofs::KeptLemmas::kept_gone))]
    pub fn gone(&self, _p: &Problem, _g: &Region) -> &Gone
        requires { IsCacheFor (cache_of self.now.index.lists self.now.table self.now.gone self.now.is_wanted) _p.now.given (sets _g.now) }
        ensures { AreGone (sets _g.now) result.now.bounds result.now.words.top }
    {
        &self.gone
    }
}

impl MadeWith<Global> for PairKeeper {
    fn made_with(alloc: Global) -> PairKeeper {
        PairKeeper::new(alloc)
    }
}

impl Keeper for PairKeeper {
    ghost use Rattle.rule_pair.specs.Kept.{cache_of};

    ghost cache = { λ k. cache_of k.index.lists k.table k.gone k.is_wanted };

    fn post(&mut self, p: &Problem, g: &Region) -> Result<(), Memory> {
        self.index.post(p, g)?;
        self.is_wanted = has_pairs(p);
        if self.is_wanted {
            self.table.post(p, g)?;
            self.gone.post(p, g, self.table.standings())?;
        } else {
            self.table = Table::new(self.alloc);
            self.gone = Gone::new(self.alloc);
        }
        Ok(())
    }

    fn told(
        &mut self,
        p: &Problem,
        g: &Region,
        change: Change,
        before: Before,
        kept: &Domain,
    ) -> Result<(), Memory> {
        if self.is_wanted {
            self.table.told(p, g, change, before, kept)?;
            self.gone.told(p, g, change)?;
        }
        Ok(())
    }

    fn mark(&mut self) -> Result<(), Memory> {
        self.table.mark()?;
        match self.gone.mark() {
            Ok(()) => Ok(()),
            Err(e) => {
                self.table.back();
                Err(e)
            }
        }
    }

    fn back(&mut self) {
        if self.table.level() > 0 {
            self.table.back();
        }
        if self.gone.level() > 0 {
            self.gone.back();
        }
    }
}
