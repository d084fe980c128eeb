//! Tests of documents, of frames and their payloads, of requests of checkpoints, and of recorded sessions.
#![tactic(auto)]

#[cfg(test)]
mod documents;
#[cfg(test)]
mod frames;
#[cfg(test)]
mod joining;
#[cfg(test)]
mod records;
#[cfg(test)]
mod table;
#[cfg(test)]
mod texts;
