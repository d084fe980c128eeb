//! Tests of links, lines and doors, in memory and over the system's sockets, and of wires over WebSockets.
#![tactic(auto)]

#[cfg(test)]
mod lines;
#[cfg(test)]
mod loopback;
#[cfg(test)]
mod messages;
#[cfg(test)]
mod words;
