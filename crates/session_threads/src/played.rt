//! What is played, and what it leaves.

use doc_board::Outcome;
use repl_messages::Version;
use session_run::Ended;
use sg_history::Name;
use sg_names::List;
use sg_outside::Wire;
use write_path::Shelf;

/// Sessions to be served: for each whose device it is, the version of the protocol that it speaks, and its wire.
pub type Sessions<W> = List<(Name, Version, W)>;

/// What a line of a script came to.
#[derive(Drop)]
pub enum LineOutcome {
    /// What its command or its revision came to.
    Plain(Outcome),
}

/// The outcomes of a script's lines, in their order.
pub type LineOutcomes = List<LineOutcome>;

/// A session that has ended, with its wire.
#[derive(Drop)]
pub struct PlayedSession<W: Wire> {
    pub wire: W,
    pub ended: Ended,
}

/// Sessions that have ended, in the order in which they were given.
pub type PlayedSessions<W> = List<PlayedSession<W>>;

/// What a script and sessions leave that ran at the same time: the shelf with their history, the outcome of each line, and each session.
#[derive(Drop)]
pub struct Played<W: Wire> {
    pub shelf: Shelf,
    pub script: LineOutcomes,
    pub sessions: PlayedSessions<W>,
}
