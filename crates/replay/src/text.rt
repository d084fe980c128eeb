//! What is printed.

ghost use Rattle.std.specs.Prelude.{◌≡◌, ◌++◌, IfOk, None, OnOk, codes, length, map};
ghost use Rattle.sg_history.specs.History.{History};
ghost use Rattle.sg_history.specs.Journal.{journal_text};
ghost use Rattle.transcripts.specs.Transcript.{outcome_lines, run_text, runs_text, transcript};
ghost use Rattle.replay.specs.Runs.{outcome_of, runs_of};

use doc_board::Outcome;
use session_threads::{LineOutcome, Played, PlayedSession};
use sg_history::Name;
use sg_outside::{Bytes, MemWire, Memory};
use std::alloc::Global;
use transcripts::{write_ended, write_history, write_outcome, write_title};

fn answer_of(outcome: &LineOutcome) -> &Outcome
    ensures { result.now ≡ outcome_of outcome.now }
{
    match outcome {
        LineOutcome::Plain(answer) => answer,
    }
}

/// Puts the outcomes of a script's lines at the end; the first is in line 2.
fn write_outcomes(alloc: Global, outcomes: &[LineOutcome], out: &mut Bytes) -> Result<(), Memory>
    ensures { OnOk result (out.new ≡ out.old ++ outcome_lines 2 (map outcome_of outcomes.now)) }
{
    for (i, outcome) in outcomes.iter().enumerate() {
        write_outcome(alloc, i as u64 + 2, answer_of(outcome), out)?;
    }
    Ok(())
}

/// Puts a session at the end, with its number and whose it was.
fn write_session(
    number: u64,
    user: &Name,
    session: &PlayedSession<MemWire>,
    out: &mut Bytes,
) -> Result<(), Memory>
    ensures { OnOk result (out.new ≡ out.old ++ run_text number (record {
      user = user.now;
      ended = session.now.ended;
      sent = session.now.wire.sent.items;
    })) }
{
    write_title(number, user, out)?;
    write_ended(&session.ended, session.wire.sent.as_slice(), out)
}

/// Puts the sessions at the end, numbered from 1.
fn write_sessions(
    users: &[Name],
    sessions: &[PlayedSession<MemWire>],
    out: &mut Bytes,
) -> Result<(), Memory>
    requires as_many { length users.now ≡ length sessions.now }
    ensures { OnOk result (out.new ≡ out.old ++ runs_text 1
        (runs_of (λ s. s.ended) (λ s. s.wire.sent.items) users.now sessions.now)) }
{
    for (i, session) in sessions.iter().enumerate() {
        write_session(i as u64 + 1, &users[i], session, out)?;
    }
    Ok(())
}

/// Puts all that was played behind the first line at the end.
fn write_played(
    alloc: Global,
    users: &[Name],
    played: &Played<MemWire>,
    out: &mut Bytes,
) -> Result<(), Memory>
    requires as_many { length users.now ≡ length played.now.sessions }
    ensures { OnOk result ((h : History) × (h.limit ≡ None)
        × (h.entries ≡ played.now.shelf.board.log)
        × (out.new ≡ out.old ++ outcome_lines 2 (map outcome_of played.now.script)
        ++ runs_text 1 (runs_of (λ s. s.ended) (λ s. s.wire.sent.items) users.now
        played.now.sessions)
        ++ codes "journal\n" ++ journal_text h)) }
{
    write_outcomes(alloc, played.script.as_slice(), out)?;
    write_sessions(users, played.sessions.as_slice(), out)?;
    write_history(played.shelf.board().log(), out)
}

/// The transcript of all that was played.
pub fn printed(alloc: Global, users: &[Name], played: &Played<MemWire>) -> Result<Bytes, Memory>
    requires as_many { length users.now ≡ length played.now.sessions }
    ensures { IfOk result (λ text. (h : History) × (h.limit ≡ None)
        × (h.entries ≡ played.now.shelf.board.log)
        × (text ≡ transcript (map outcome_of played.now.script)
        (runs_of (λ s. s.ended) (λ s. s.wire.sent.items) users.now played.now.sessions) h)) }
{
    let mut out = Bytes::from_slice(alloc, b"admin\n")?;
    match write_played(alloc, users, played, &mut out) {
        Ok(()) => Ok(out),
        Err(fault) => {
            drop(out);
            Err(fault)
        }
    }
}
