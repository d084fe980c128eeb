//! The command `feed`: prints the rows of a user's changes feed over a journal.

ghost use Rattle.std.specs.Prelude.{◌≡◌, ◌≢◌, ℕ, List, IfOk};
ghost use Rattle.sg_history.specs.History.{history};
ghost use Rattle.feed_command.specs.FeedText.{feed_text};
ghost use Rattle.feed_command.specs.FeedLoads.{LoadsJournal};
ghost use Rattle.command_line.specs.FeedRequest.{feed_of};
ghost use Rattle.command_line.specs.Run.{Counted, EndsAbsent, HasFile, HasNoFile, Prints, Silent};
ghost use Rattle.feed_command.specs.Run.{Ends, EndsFeed};

use crate::text::print_rows;
use command_line::{FeedRequest, Status, load, print};
use feed_rows::rows;
use sg_history::{BadLine, Key, Log, Name, Options, ReadLog, take_journal};
use sg_outside::{Bytes, Files, Memory, Sink};
use std::alloc::Global;

/// The number of the journal among the command's files.
const JOURNAL: u64 = 1;

/// The printed feed of a log, over its whole length.
fn feed_of_log(
    alloc: Global,
    log: &Log,
    user: &Name,
    since: &Key,
    options: &Options,
) -> Result<Bytes, Memory>
    ensures { IfOk result
        (λ text. text ≡ feed_text (history log.now) user.now since.now options.now) }
{
    let found = rows(alloc, log, log.entries.len() as u64, user, since, options)?;
    let text = print_rows(alloc, found.as_slice());
    drop(found);
    text
}

/// Prints the feed of a log.
fn print_log<O: Sink>(alloc: Global, log: &Log, request: &FeedRequest<'_>, out: &mut O) -> Status
    ensures { Prints result (feed_text (history log.now) request.now.user request.now.since
        request.now.options)
        (O.faults out.old) (O.faults out.new) (O.taken out.old) (O.taken out.new) }
{
    match feed_of_log(alloc, log, &request.user, &request.since, &request.options) {
        Ok(text) => print(text.as_slice(), out),
        Err(_) => Status::Memory,
    }
}

/// Prints the feed of a journal that was loaded, of which the bytes are let go while they are read.
fn print_feed<O: Sink>(
    alloc: Global,
    journal: Bytes,
    request: &FeedRequest<'_>,
    out: &mut O,
) -> Status
    ensures { EndsFeed result journal (feed_of request.now)
        (O.faults out.old) (O.faults out.new) (O.taken out.old) (O.taken out.new) }
{
    match take_journal(alloc, journal) {
        Ok(log) => {
            let status = print_log(alloc, &log, request, out);
            drop(log);
            status
        }
        Err(ReadLog::Bad(BadLine { place, why })) => Status::BadInput {
            file: JOURNAL,
            place,
            why,
        },
        Err(ReadLog::Memory) => Status::Memory,
    }
}

/// Runs `feed`.
pub(crate) fn run_feed<F: Files, O: Sink>(
    alloc: Global,
    request: &FeedRequest<'_>,
    files: &mut F,
    out: &mut O,
) -> Status
    ensures ends { (bytes : List ℕ) → HasFile (F.recorded files.old) request.now.journal.now bytes
        → Ends result (feed_of request.now) bytes (O.taken out.old) (O.taken out.new) }
    ensures absent { HasNoFile (F.recorded files.old) request.now.journal.now → EndsAbsent result }
    ensures loads { LoadsJournal (F.recorded files.old) request.now.journal.now
        (F.loads files.old) (F.loads files.new) result }
    ensures words { result ≢ Status.BadWords }
    ensures counted { Counted result (F.faults files.old) (F.faults files.new)
        (O.faults out.old) (O.faults out.new) }
    ensures silent { Silent result (O.taken out.old) (O.taken out.new) }
    ensures kept { F.recorded files.new ≡ F.recorded files.old }
{
    match load(alloc, files, request.journal, JOURNAL) {
        Ok(journal) => print_feed(alloc, journal, request, out),
        Err(status) => status,
    }
}
