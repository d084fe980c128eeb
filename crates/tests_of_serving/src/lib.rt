//! Tests of the command `serve`, over doors and lines in memory.
#![tactic(auto)]

#[cfg(test)]
mod faults;
#[cfg(test)]
mod lines;
#[cfg(test)]
mod served;
