//! Tests of the commands, from the words of the command line to the files and the lines that they leave.
#![tactic(auto)]

#[cfg(test)]
mod tests;
