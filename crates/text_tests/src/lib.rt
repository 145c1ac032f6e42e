//! Tests of what no command reaches: files and streams, values of JSON, the longest texts, generated problems, and a reader of
//! certificates.
#![tactic(auto)]

#[cfg(test)]
mod files;
#[cfg(test)]
mod limits;
#[cfg(test)]
mod making;
#[cfg(test)]
mod printed;
#[cfg(test)]
mod reading;
#[cfg(test)]
mod values;
