//! Tests of the sync language, and of configurations.
#![tactic(auto)]

#[cfg(test)]
mod configurations;
#[cfg(test)]
mod faults;
#[cfg(test)]
mod names;
#[cfg(test)]
mod texts;
#[cfg(test)]
mod threads;
