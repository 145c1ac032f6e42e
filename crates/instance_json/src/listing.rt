//! The machines of lists that are read one after the other, each of which may stand once.

ghost use Rattle.std.specs.Prelude.{◌≡◌, ◌<◌, ◌++◌, ◌∷◌, [], OnOk, false, true};
ghost use Rattle.catalogue.specs.Prelude.{all_of, differ, is_member, max_machines};
ghost use Rattle.instance_json.specs.Listed.{listed_machines};

use base::Memory;
use catalogue::Vms;
use catalogue::lists::Parts;
use cluster::{MachineSet, VmId};
use std::alloc::Global;
use std::marker::Model;
use std::mem;

/// The lists before, and the one that is being read. A set marks the machines of them all.
#[derive(Drop)]
pub(crate) struct Listing {
    alloc: Global,
    marks: MachineSet,
    before: Vec<Vms>,
    current: Vec<VmId>,
}

impl Model for Listing {
    ghost use Rattle.std.specs.Prelude.{◌++◌};
    ghost use Rattle.catalogue.specs.Faults.{all_of};
    ghost use Rattle.instance_json.specs.Listed.{Listed, AreMarked};

    ghost Value = { Listed };

    ghost view = { λ a. record { before = a.before.items; current = a.current.items } };

    ghost invariant = { λ a. AreMarked a.marks (all_of a.before.items ++ a.current.items) };
}

impl Listing {
    /// No list.
    pub(crate) fn new(alloc: Global) -> Listing
        ensures { result ≡ record { before = []; current = [] } }
    {
        Listing {
            alloc,
            marks: MachineSet::new(),
            before: Vec::new(alloc),
            current: Vec::new(alloc),
        }
    }

    /// Whether the machine stands in a list.
    pub(crate) fn has(&self, v: VmId) -> bool
        requires { v.0 < max_machines }
        ensures { result ≡ is_member (listed_machines self.now) v.0 }
    {
        self.marks.has(v)
    }

    /// Adds a machine to the list that is being read.
    pub(crate) fn push(&mut self, v: VmId) -> Result<(), Memory>
        requires small { v.0 < max_machines }
        requires new { is_member (listed_machines self.old) v.0 ≡ false }
        ensures { OnOk result (self.new ≡ record { before = self.old.before; current = self.old.current ++ v ∷ [] }) }
    {
        self.current.reserve(1)?;
        self.marks.insert(v);
        self.current.push(v).unwrap();
        Ok(())
    }

    /// Ends the list that is being read, and begins another one.
    pub(crate) fn close(&mut self) -> Result<(), Memory>
        ensures { OnOk result (self.new ≡ record { before = self.old.before ++ self.old.current ∷ []; current = [] }) }
    {
        self.before.reserve(1)?;
        let list = mem::replace(&mut self.current, Vec::new(self.alloc));
        self.before.push(Vms::new(list)).unwrap();
        Ok(())
    }

    /// The only list.
    pub(crate) fn into_list(self) -> Vms
        requires { self.before ≡ [] }
        ensures list { result ≡ self.current }
        ensures apart { differ self.current ≡ true }
    {
        Vms::new(self.current)
    }

    /// All lists, where none is being read.
    pub(crate) fn into_parts(self) -> Parts
        requires { self.current ≡ [] }
        ensures parts { result ≡ self.before }
        ensures apart { differ (all_of self.before) ≡ true }
    {
        Parts::new(self.before)
    }
}
