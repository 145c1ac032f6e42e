//! Tests of what no command shows of branchers and searches, and of strict verdicts.
#![tactic(auto)]

#[cfg(test)]
mod branchers;
#[cfg(test)]
mod searches;
#[cfg(test)]
mod verdicts;
