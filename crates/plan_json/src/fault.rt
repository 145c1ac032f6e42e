//! Why bytes are no plan of a problem.

ghost use Rattle.std.specs.Prelude.{◌≡◌, ◌++◌, IfOk, codes, string_bytes};

use crate::names::name;
use base::Memory;
use catalogue::Problem;
use cluster::Element;
use json_walk::{Fault, PathText, WalkFault};
use std::alloc::{AllocError, AllocFailed, Global};

/// The first fault of a plan, with the path at which it stands, or the element that it leaves out.
#[derive(Drop)]
pub enum PlanFault {
    /// More than `json_walk::MAX_TEXT_BYTES` bytes.
    TooLong,
    /// The bytes have no value that `serde_json` reads.
    NotJson,
    /// A value is missing, of the wrong kind, out of range or unknown; at `actions` also a list of
    /// more actions than a problem may have elements.
    Field(Fault),
    /// A well-formed name that is not listed, or is not of this sort.
    NoSuch(PathText),
    /// An element that an action before has named.
    Twice(PathText),
    /// An action that is no legal choice of its element, or is of another kind.
    NotLegal(PathText),
    /// No action names this element, and it may not be idle.
    MustAct(Element),
    /// Want of memory.
    Memory,
}

impl From<WalkFault> for PlanFault {
    ghost use Rattle.plan_json.specs.Walk.{as_plan_fault};

    ghost from_gives = { λ w e. e ≡ as_plan_fault w };

    fn from(fault: WalkFault) -> PlanFault {
        match fault {
            WalkFault::Bad(fault) => PlanFault::Field(fault),
            WalkFault::Memory => PlanFault::Memory,
        }
    }
}

impl From<Memory> for PlanFault {
    ghost use Rattle.plan_json.specs.declared.fault.PlanFault.TheVariants.{Memory as NoMemory};

    ghost from_gives = { λ _ e. e ≡ NoMemory };

    fn from(_error: Memory) -> PlanFault {
        PlanFault::Memory
    }
}

impl From<AllocError> for PlanFault {
    ghost use Rattle.plan_json.specs.declared.fault.PlanFault.TheVariants.{Memory as NoMemory};

    ghost from_gives = { λ _ e. e ≡ NoMemory };

    fn from(_error: AllocError) -> PlanFault {
        PlanFault::Memory
    }
}

impl PlanFault {
    ghost use Rattle.catalogue.specs.Instance.{inventory_of};
    ghost use Rattle.plan_json.specs.Texts.{fault_text};

    /// What is wrong with a plan of this problem, after its path where it has one: the text that a
    /// command prints.
    #[tactic(auto, unfolding(crate::specs::Texts::fault_text))]
    pub fn text(&self, alloc: Global, p: &Problem) -> Result<String, Memory>
        ensures { IfOk result (λ s. string_bytes s ≡ fault_text (inventory_of p.now.given) self.now) }
    {
        match self {
            PlanFault::TooLong => word(alloc, "too long"),
            PlanFault::NotJson => word(alloc, "not json"),
            PlanFault::Field(fault) => after(alloc, fault.path.as_text(), fault.kind.as_text()),
            PlanFault::NoSuch(path) => after(alloc, path.as_text(), "no such name"),
            PlanFault::Twice(path) => after(alloc, path.as_text(), "twice"),
            PlanFault::NotLegal(path) => after(alloc, path.as_text(), "not legal"),
            PlanFault::MustAct(e) => after(alloc, name(p.cluster(), *e), "must act"),
            PlanFault::Memory => word(alloc, "out of memory"),
        }
    }
}

fn word(alloc: Global, what: &str) -> Result<String, Memory>
    ensures { IfOk result (λ s. string_bytes s ≡ what.now) }
{
    Ok(String::from_str(alloc, what)?)
}

/// Where, and what is wrong there.
fn after(alloc: Global, place: &str, what: &str) -> Result<String, Memory>
    ensures { IfOk result (λ s. string_bytes s ≡ place.now ++ codes " " ++ what.now) }
{
    Ok(format!(in alloc; "{place} {what}")?)
}
