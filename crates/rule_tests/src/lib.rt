//! Tests of what no command shows of the six rules: that they cover the standard kinds, and follow a trail.
#![tactic(auto)]

#[cfg(test)]
mod rules;
