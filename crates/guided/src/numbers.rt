//! Lists that are read and written anywhere: past the end there is nothing, and a write there is none.

use cluster::limits::MAX_NODES;
use cluster::{NodeId, NodeSet};

/// An instant that never comes.
pub const NEVER: u64 = u64::MAX;

/// The middle of all keys: those of two kinds stand below it and above.
pub const MIDDLE: u64 = 4_611_686_018_427_387_904;

/// The number at a place, 0 past the end.
pub fn at(list: &[u64], i: usize) -> u64 {
    list.get(i).copied().unwrap_or(0)
}

/// Writes the number at a place.
pub fn put(list: &mut Vec<u64>, i: usize, number: u64) {
    if i < list.len() {
        list[i] = number;
    }
}

/// Adds to the number at a place.
pub fn add(list: &mut Vec<u64>, i: usize, number: u64) {
    if i < list.len() {
        list[i] = list[i].saturating_add(number);
    }
}

/// Takes from the number at a place, down to 0.
pub fn take(list: &mut Vec<u64>, i: usize, number: u64) {
    if i < list.len() {
        list[i] = list[i].saturating_sub(number);
    }
}

/// Whether the flag at a place is up.
pub fn is_up(flags: &[bool], i: usize) -> bool {
    flags.get(i).copied().unwrap_or(false)
}

/// Turns the flag at a place up or down.
pub fn turn(flags: &mut Vec<bool>, i: usize, up: bool) {
    if i < flags.len() {
        flags[i] = up;
    }
}

/// The list at a place, empty past the end.
pub fn list_at(lists: &[Vec<usize>], i: usize) -> &[usize] {
    match lists.get(i) {
        Some(list) => list,
        None => &[],
    }
}

/// The place of a column in a row of a table.
pub fn cell(row: usize, width: usize, column: usize) -> usize {
    row.saturating_mul(width).saturating_add(column)
}

/// So many numbers from a place on, or as many as there are.
pub fn stretch(list: &[u64], from: usize, count: usize) -> &[u64] {
    let rest = &list[from.min(list.len())..];
    &rest[..count.min(rest.len())]
}

/// The node of a number.
pub fn node(n: usize) -> NodeId {
    NodeId(u32::try_from(n).unwrap_or(u32::MAX))
}

/// Puts the node of a number into a set, if there is one.
pub fn insert(set: &mut NodeSet, n: usize) {
    if n < MAX_NODES {
        set.insert(NodeId(n as u32));
    }
}

/// A number as a whole real one, which is exact below 2^32 and else 2^32 - 1.
pub fn real(number: u64) -> f64 {
    f64::from(u32::try_from(number).unwrap_or(u32::MAX))
}
