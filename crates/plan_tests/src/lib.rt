//! Tests of what no command shows of sets, problems, regions and what is kept beside them.
#![tactic(auto)]

#[cfg(test)]
mod closed_regions;
#[cfg(test)]
mod clusters;
#[cfg(test)]
mod constraints;
#[cfg(test)]
mod costs;
#[cfg(test)]
mod node_profiles;
#[cfg(test)]
mod parts;
#[cfg(test)]
mod refuted;
#[cfg(test)]
mod trails;
