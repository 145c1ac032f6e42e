//! Marks: what a picture is made of, in whole pixels, y downwards.
use crate::style::Style;
use cluster::{Instant, NodeId};
use show::Action;

/// The bar of an action.
#[derive(Drop)]
pub struct Bar {
    pub action: Action,
    pub style: Style,
    /// Where its start is on the axis, and where its end is.
    pub left: u64,
    pub right: u64,
    pub top: u64,
    /// What a browser tells of it.
    pub tip: String,
}

/// How much there is from an instant on.
#[derive(Clone, Copy, Debug, PartialEq, Eq)]
pub struct Step {
    pub at: Instant,
    pub amount: u64,
}

/// An amount over time: a step for each instant at which something starts or ends.
#[derive(Drop)]
pub struct Curve {
    /// Where an amount of 0 is.
    pub base: u64,
    /// How high above it the amount is that takes the whole height, and that amount.
    pub tall: u64,
    pub most: u64,
    pub steps: Vec<Step>,
}

/// The loads of a node for a resource.
#[derive(Drop)]
pub struct LoadCurve {
    pub resource: u8,
    pub curve: Curve,
}

/// What is shown of a node.
#[derive(Drop)]
pub struct Band {
    pub node: NodeId,
    pub top: u64,
    pub tall: u64,
    /// The actions that act on the node.
    pub bars: Vec<Bar>,
    /// The twins of those that leave it.
    pub twins: Vec<Bar>,
    /// One for each resource.
    pub curves: Vec<LoadCurve>,
}

/// What is drawn beside bars and curves.
#[derive(Drop)]
pub enum Mark {
    Rect {
        style: Style,
        x: u64,
        y: u64,
        width: u64,
        height: u64,
    },
    Line {
        style: Style,
        x: u64,
        y: u64,
        right: u64,
        low: u64,
    },
    Words {
        style: Style,
        x: u64,
        y: u64,
        words: String,
    },
}

/// A picture of a plan, a band for each node that is shown.
#[derive(Drop)]
pub struct Picture {
    /// What it tells: the verdict.
    pub title: String,
    pub tall: u64,
    /// The last instant of the axis.
    pub span: Instant,
    /// Under the bands.
    pub under: Vec<Mark>,
    pub bands: Vec<Band>,
    /// The actions that act on no node.
    pub loose: Vec<Bar>,
    /// Over the bands.
    pub over: Vec<Mark>,
}

/// What a node is for a while.
#[derive(Clone, Copy, Debug, PartialEq, Eq)]
pub enum Power {
    On,
    Off,
    /// It boots or shuts down.
    Turning,
}

/// How full a node is from an instant on.
#[derive(Clone, Copy, Debug, PartialEq, Eq)]
pub struct Heat {
    pub at: Instant,
    pub power: Power,
    /// The load of the resource of which least is left, in parts of 100 of the capacity.
    pub parts: u64,
}

/// What is shown of a node in a heat map.
#[derive(Drop)]
pub struct HeatRow {
    pub node: NodeId,
    /// Where the lines above the heat are, where the heat is, and where the lines below it are.
    pub above: u64,
    pub top: u64,
    pub tall: u64,
    pub below: u64,
    /// The actions that act on the node, as lines above the heat.
    pub bars: Vec<Bar>,
    /// The twins of those that leave it, as lines below the heat.
    pub twins: Vec<Bar>,
    /// How full it is, a step for each instant at which something starts or ends.
    pub heats: Vec<Heat>,
}

/// A picture of a large plan: a row for each node that is shown.
#[derive(Drop)]
pub struct HeatMap {
    /// What it tells: the verdict.
    pub title: String,
    pub tall: u64,
    /// The last instant of the axis.
    pub span: Instant,
    /// Under the rows.
    pub under: Vec<Mark>,
    /// How many actions are under way, and how many nodes are powered.
    pub acting: Curve,
    pub powered: Curve,
    pub rows: Vec<HeatRow>,
    /// The actions that act on no node, as lines.
    pub loose: Vec<Bar>,
    /// Over the rows.
    pub over: Vec<Mark>,
}
