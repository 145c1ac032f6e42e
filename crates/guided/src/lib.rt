//! A brancher that seeks a whole plan before it splits, and then branches only on what breaks.
#![tactic(auto)]

mod best;
mod breaks;
mod draft;
mod elements;
mod ends;
mod fits;
mod greedy;
pub mod guided;
mod lines;
mod mark;
mod neighbourhoods;
mod numbers;
mod order;
mod orders;
mod outlook;
mod race;
mod root;
mod rows;
mod rules;
mod tables;
mod target;
mod thought;
mod turning;
mod wish;
