//! Which entry stands at which number, of a log and of the entries that wait for their places.

ghost use Rattle.std.specs.Prelude.{◌≡◌};
ghost use Rattle.std.specs.Option.{option_copied};
ghost use Rattle.sg_history.specs.Book as book;
ghost use Rattle.sg_history.specs.Book.{book_of, book_with};

use crate::entries::Entry;

/// An entry with its number, which waits for its place in a log.
#[derive(Drop)]
pub struct Waiting {
    pub number: u64,
    pub entry: Entry,
}

/// The entry at a number, if there is one: that of the log at its place, counted from 1, or else that of the first waiting
/// entry with this number. It passes over what waits.
pub fn entry_at<'a>(log: &'a [Entry], waiting: &'a [Waiting], number: u64) -> Option<&'a Entry>
    ensures { option_copied result ≡ book_with log.now waiting.now number }
{
    match logged_at(log, number) {
        Some(entry) => Some(entry),
        None => waiting_at(waiting, number),
    }
}

fn logged_at(log: &[Entry], number: u64) -> Option<&Entry>
    ensures { option_copied result ≡ book_of log.now number }
{
    if number == 0 {
        return None;
    }
    log.get((number - 1) as usize)
}

fn waiting_at(waiting: &[Waiting], number: u64) -> Option<&Entry>
    ensures { option_copied result ≡ book.waiting_at waiting.now number }
{
    for first in waiting {
        if first.number == number {
            return Some(&first.entry);
        }
    }
    None
}
