//! Tests of a script and sessions that run at the same time.
#![tactic(auto)]

#[cfg(test)]
mod at_once;
#[cfg(test)]
mod given_up;
#[cfg(test)]
mod one_document;
#[cfg(test)]
mod played;
