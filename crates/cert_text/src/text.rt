//! What the lines of a certificate say, by names: nothing of it need be there in an instance.
use cluster::Name;
use std::marker::Model;
use trees::Goal;

/// The names of a list of nodes, in the order of the line.
///
/// Contracts see it as the list of the names.
#[derive(Drop)]
pub struct Names {
    names: Vec<Name>,
}

impl Model for Names {
    ghost use Rattle.std.specs.Prelude.{List, ℕ};

    ghost Value = { List (List ℕ) };

    ghost view = { λ a. a.names.items };
}

impl Names {
    ghost use Rattle.std.specs.Prelude.{◌≡◌};

    /// The list of these names.
    pub fn new(names: Vec<Name>) -> Names
        ensures { result ≡ names.items }
    {
        Names { names }
    }

    /// The names in their order.
    pub fn items(&self) -> &[Name]
        ensures { result.now ≡ self.now }
    {
        &self.names
    }
}

/// A set of nodes.
#[derive(Drop)]
pub enum NodesText {
    /// All nodes of the instance.
    All,
    /// The nodes of these names, in any order.
    Listed(Names),
}

/// A part of an element's choices. A place without a name is nowhere.
#[derive(Drop)]
pub enum PartText {
    /// Idle alone.
    Idle,
    /// The starts at a place up to an instant, which is one of them.
    Upto(Option<Name>, u64),
    /// The starts at a place from an instant on, which is one of them.
    From(Option<Name>, u64),
}

/// A reason, with what it names in the order of its line: numbers of constraints, instants, and the
/// names of resources, machines and nodes.
#[derive(Drop)]
pub enum ReasonText {
    Empty(Name),
    Bound,
    Load(u64, Name, NodesText),
    Pair(u64, u64, Name, Name, Name),
    Place(u64, u64, Name, Name),
    Group(u64, u64),
    SetLoad(u64, u64),
    Power(u64, u64),
    Usable(u64, Name, Name),
    Hall(u64, u64, NodesText),
}

/// One step of a tree.
#[derive(Drop)]
pub enum StepText {
    Decide(Name, PartText),
    Cut(Name, PartText, ReasonText),
    Fail(ReasonText),
    Plan(u64),
    Left,
}

/// A line after the header: a step of the tree, or the goal at its end.
#[derive(Drop)]
pub enum LineText {
    Step(StepText),
    End(Goal),
}
