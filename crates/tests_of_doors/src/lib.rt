//! Tests of the door: how heads are read from a link, and answered.
#![tactic(auto)]

#[cfg(test)]
mod answers;
#[cfg(test)]
mod links;
#[cfg(test)]
mod table;
