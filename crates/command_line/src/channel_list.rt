//! Lists of channels, in any order.

ghost use Rattle.std.specs.Prelude.{◌≡◌, ◌==◌, Err, IfOk, IsTrue, false, map};
ghost use Rattle.std.specs.List.{list_all, slice_split};
ghost use Rattle.sg_names.specs.Grammar.{is_channel_name};
ghost use Rattle.command_line.specs.FeedWords.{is_channel_list, names_between_commas};

use crate::words_fault::WordsFault;
use sg_history::{ChannelName, Channels, TextFault};
use std::alloc::{AllocError, Global};

/// The parts of a text between its commas, of which there is one more than commas.
fn split_at_commas(alloc: Global, text: &str) -> Result<Vec<&str>, AllocError>
    ensures { IfOk result (λ v. map (λ p. p.now) v.items ≡ slice_split (λ b. b == 44) text.now) }
{
    text.split(',').collect(alloc)
}

/// Reads a channel's name.
fn read_name(alloc: Global, text: &str) -> Result<ChannelName, WordsFault>
    ensures ok { IfOk result (λ n. (n ≡ text.now) × IsTrue (is_channel_name text.now)) }
    ensures bad { result ≡ Err WordsFault.BadWords → is_channel_name text.now ≡ false }
{
    match ChannelName::parse(alloc, text) {
        Ok(name) => Ok(name),
        Err(TextFault::Bad) => Err(WordsFault::BadWords),
        Err(TextFault::Memory) => Err(WordsFault::Memory),
    }
}

/// The channels' names that the pieces are.
fn read_names(alloc: Global, pieces: &[&str]) -> Result<Vec<ChannelName>, WordsFault>
    ensures ok { IfOk result (λ names. (names.items ≡ map (λ p. p.now) pieces.now)
        × IsTrue (list_all (λ n. is_channel_name n) (map (λ p. p.now) pieces.now))) }
    ensures bad { result ≡ Err WordsFault.BadWords
        → list_all (λ n. is_channel_name n) (map (λ p. p.now) pieces.now) ≡ false }
{
    let mut names = Vec::new(alloc);
    for piece in pieces {
        names.push(read_name(alloc, piece)?)?;
    }
    Ok(names)
}

/// Reads a list of channels, of which the names may stand in any order and more than once.
pub(crate) fn read_channels(alloc: Global, text: &str) -> Result<Channels, WordsFault>
    ensures ok { IfOk result (λ l. (l ≡ names_between_commas text.now) × IsTrue (is_channel_list text.now)) }
    ensures bad { result ≡ Err WordsFault.BadWords → is_channel_list text.now ≡ false }
{
    let pieces = split_at_commas(alloc, text)?;
    Ok(Channels::from_vec(read_names(alloc, pieces.as_slice())?))
}
