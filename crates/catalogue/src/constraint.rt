//! Constraints, and why one is refused.
ghost use Rattle.std.specs.Prelude.{◌≡◌, IfOk};
ghost use Rattle.catalogue.specs.Kinds.{is_continuous};
ghost use Rattle.catalogue.specs.Words.{constraint_number, constraint_word};

use crate::lists::{Groups, Parts, Vms};
use base::Memory;
use cluster::words::word_at;
use cluster::{NodeSet, VmId};
use std::alloc::AllocError;
use thiserror::Error;

/// A restriction of the plans, of BtrPlace's catalogue, or a part of what is wanted.
///
/// A *presence* is a pair of a machine and a node on which it uses something; a machine in
/// migration has one on both nodes. Members are the machines that the constraint lists. A
/// constraint with `continuous` is to hold at each instant, and without it at the horizon alone.
#[derive(Drop)]
pub enum Constraint {
    /// No node has presences of two different members.
    Spread {
        machines: Vms,
        continuous: bool,
    },
    /// No member is present on a node of the set.
    Ban {
        machines: Vms,
        nodes: NodeSet,
        continuous: bool,
    },
    /// Members are present on nodes of the set only.
    Fence {
        machines: Vms,
        nodes: NodeSet,
        continuous: bool,
    },
    /// One node holds all presences of members.
    Gather {
        machines: Vms,
        continuous: bool,
    },
    /// No node has a presence of a member and one of another machine.
    Lonely {
        machines: Vms,
        continuous: bool,
    },
    /// One of the groups of nodes contains the nodes of all presences of members.
    Among {
        machines: Vms,
        groups: Groups,
        continuous: bool,
    },
    /// No node has presences of members of two different parts.
    Split {
        parts: Parts,
        continuous: bool,
    },
    /// A member that runs at present is present on its host alone. It is continuous.
    Root {
        machines: Vms,
    },
    /// The action of `before` has ended before that of `after` starts, where both have one. It is
    /// continuous.
    Precedence {
        before: VmId,
        after: VmId,
    },
    /// No two members act at the same instant. It is continuous.
    Serialize {
        machines: Vms,
    },
    /// The demand of each member for the resource is at least the amount.
    Preserve {
        machines: Vms,
        resource: u8,
        amount: u64,
    },
    /// The uses of the resource on the nodes of the set are at most the amount in all.
    ResourceCapacity {
        nodes: NodeSet,
        resource: u8,
        amount: u64,
        continuous: bool,
    },
    /// The presences on nodes of the set are at most so many.
    RunningCapacity {
        nodes: NodeSet,
        amount: u64,
        continuous: bool,
    },
    /// The powered nodes of the set are at most so many.
    MaxOnline {
        nodes: NodeSet,
        amount: u64,
        continuous: bool,
    },
    /// The capacity of each node of the set for the resource is at most `num / den` of the written
    /// one, rounded down; above one, this raises it. It is continuous.
    Overbook {
        nodes: NodeSet,
        resource: u8,
        num: u64,
        den: u64,
    },
    /// The nodes are wanted online.
    Online {
        nodes: NodeSet,
    },
    /// The nodes are wanted offline.
    Offline {
        nodes: NodeSet,
    },
    /// The machines are wanted running.
    Running {
        machines: Vms,
    },
    /// The machines are wanted sleeping.
    Sleeping {
        machines: Vms,
    },
    /// The machines are wanted ready.
    Ready {
        machines: Vms,
    },
    /// The machines are wanted gone.
    Killed {
        machines: Vms,
    },
}

/// The words of the 21 kinds, in the order in which they are declared.
pub const CONSTRAINT_WORDS: [&str; 21] = [
    "spread",
    "ban",
    "fence",
    "gather",
    "lonely",
    "among",
    "split",
    "root",
    "precedence",
    "serialize",
    "preserve",
    "resourceCapacity",
    "runningCapacity",
    "maxOnline",
    "overbook",
    "online",
    "offline",
    "running",
    "sleeping",
    "ready",
    "killed",
];

/// The constraint of the same kind with equal fields: for each kind its lists, which are copied, and
/// then its plain fields.
macro_rules! copied {
    ($constraint:expr; $($kind:ident { $($list:ident),*; $($plain:ident),* })*) => {
        match $constraint {
            $(Constraint::$kind { $($list,)* $($plain,)* } => Constraint::$kind {
                $($list: $list.copy()?,)*
                $($plain: *$plain,)*
            },)*
        }
    };
}

impl Constraint {
    /// An equal constraint, made with the allocators of the lists; the only error is want of memory.
    pub fn copy(&self) -> Result<Constraint, Memory>
        ensures { IfOk result (λ c. c ≡ self.now) }
    {
        Ok(copied! { self;
            Spread { machines; continuous }
            Ban { machines; nodes, continuous }
            Fence { machines; nodes, continuous }
            Gather { machines; continuous }
            Lonely { machines; continuous }
            Among { machines, groups; continuous }
            Split { parts; continuous }
            Root { machines; }
            Precedence { ; before, after }
            Serialize { machines; }
            Preserve { machines; resource, amount }
            ResourceCapacity { ; nodes, resource, amount, continuous }
            RunningCapacity { ; nodes, amount, continuous }
            MaxOnline { ; nodes, amount, continuous }
            Overbook { ; nodes, resource, num, den }
            Online { ; nodes }
            Offline { ; nodes }
            Running { machines; }
            Sleeping { machines; }
            Ready { machines; }
            Killed { machines; }
        })
    }

    /// The word of its kind.
    pub fn word(&self) -> &'static str
        ensures { result.now ≡ constraint_word self.now }
    {
        word_at(&CONSTRAINT_WORDS, self.number())
    }

    // the place of its word
    fn number(&self) -> usize
        ensures { result ≡ constraint_number self.now }
    {
        match self {
            Constraint::Spread { .. } => 0,
            Constraint::Ban { .. } => 1,
            Constraint::Fence { .. } => 2,
            Constraint::Gather { .. } => 3,
            Constraint::Lonely { .. } => 4,
            Constraint::Among { .. } => 5,
            Constraint::Split { .. } => 6,
            Constraint::Root { .. } => 7,
            Constraint::Precedence { .. } => 8,
            Constraint::Serialize { .. } => 9,
            Constraint::Preserve { .. } => 10,
            Constraint::ResourceCapacity { .. } => 11,
            Constraint::RunningCapacity { .. } => 12,
            Constraint::MaxOnline { .. } => 13,
            Constraint::Overbook { .. } => 14,
            Constraint::Online { .. } => 15,
            Constraint::Offline { .. } => 16,
            Constraint::Running { .. } => 17,
            Constraint::Sleeping { .. } => 18,
            Constraint::Ready { .. } => 19,
            Constraint::Killed { .. } => 20,
        }
    }

    /// Whether it is to hold at each instant, and not at the horizon only. `Root`, `Precedence`,
    /// `Serialize` and `Overbook` are; `Preserve` and the six wishes are not.
    pub fn is_continuous(&self) -> bool
        ensures { result ≡ is_continuous self.now }
    {
        match self {
            Constraint::Spread { continuous, .. }
            | Constraint::Ban { continuous, .. }
            | Constraint::Fence { continuous, .. }
            | Constraint::Gather { continuous, .. }
            | Constraint::Lonely { continuous, .. }
            | Constraint::Among { continuous, .. }
            | Constraint::Split { continuous, .. }
            | Constraint::ResourceCapacity { continuous, .. }
            | Constraint::RunningCapacity { continuous, .. }
            | Constraint::MaxOnline { continuous, .. } => *continuous,
            Constraint::Root { .. }
            | Constraint::Precedence { .. }
            | Constraint::Serialize { .. }
            | Constraint::Overbook { .. } => true,
            Constraint::Preserve { .. }
            | Constraint::Online { .. }
            | Constraint::Offline { .. }
            | Constraint::Running { .. }
            | Constraint::Sleeping { .. }
            | Constraint::Ready { .. }
            | Constraint::Killed { .. } => false,
        }
    }
}

/// Why a constraint was refused. The first fault in the order of the variants is answered.
#[derive(Clone, Copy, Debug, PartialEq, Eq, Error)]
pub enum RuleFault {
    /// The problem has `MAX_CONSTRAINTS` constraints.
    #[error("too many constraints")]
    TooMany,
    /// A machine, a node or a resource is not listed.
    #[error("no such machine, node or resource")]
    NoSuch,
    /// A machine stands twice in a list or in the parts of a split, or before itself.
    #[error("a machine stands twice")]
    Twice,
    /// An amount is over `MAX_AMOUNT`, `num` or `den` is over `MAX_SCALE`, `den` is 0, there is no
    /// group, or there are over `MAX_GROUPS` groups or over `MAX_PARTS` parts.
    #[error("a number or a count is out of range")]
    TooGreat,
    /// Want of memory.
    #[error("out of memory")]
    Memory,
}

impl From<AllocError> for RuleFault {
    ghost use Rattle.std.specs.Prelude.{◌≡◌};
    ghost use Rattle.catalogue.specs.declared.constraint.RuleFault.TheVariants.{Memory as NoMemory};

    ghost from_gives = { λ _ e. e ≡ NoMemory };

    fn from(_error: AllocError) -> RuleFault {
        RuleFault::Memory
    }
}

impl From<Memory> for RuleFault {
    ghost use Rattle.std.specs.Prelude.{◌≡◌};
    ghost use Rattle.catalogue.specs.declared.constraint.RuleFault.TheVariants.{Memory as NoMemory};

    ghost from_gives = { λ _ e. e ≡ NoMemory };

    fn from(_error: Memory) -> RuleFault {
        RuleFault::Memory
    }
}
