//! Reading subChanges.

ghost use Rattle.std.specs.Prelude.{◌≡◌, ◌≢◌, ◌==◌, Ok, Err, IfOk, IfErr, Result, map, false, IsTrue};
ghost use Rattle.std.specs.List.{list_all, slice_split};
ghost use Rattle.std.specs.Option.{option_copied};
ghost use Rattle.sg_names.specs.Grammar.{is_channel_name};
ghost use Rattle.sg_names.specs.declared.key.Key.{Key};
ghost use Rattle.sg_names.specs.declared.key.KeyFault.{KeyFault};
ghost use Rattle.repl_messages.specs.Properties as properties;
ghost use Rattle.repl_messages.specs.SubChanges as requests;
ghost use Rattle.repl_messages.specs.SubChanges.{IsSince, IsSubChanges};

use crate::properties::{is_set, number_up_to};
use crate::request::{Field, Request, RequestFault, Version};
use blip_frame::Props;
use sg_history::{ChannelName, Channels, Key, KeyFault, Options, TextFault};
use std::alloc::{AllocError, Global};

/// Reads the properties of a subChanges.
pub(crate) fn read_sub_changes(
    alloc: Global,
    version: Version,
    props: &Props,
) -> Result<Request, RequestFault>
    ensures ok { IfOk result (λ request. IsSubChanges props.now version (Ok request)) }
    ensures refused { IfErr result (λ fault. fault ≢ RequestFault.Memory
        → IsSubChanges props.now version (Err fault)) }
{
    sub_changes(alloc, read_since(props.get("since")), version, props)
}

/// What the property `since` is read as.
fn read_since(value: Option<&str>) -> Result<Key, KeyFault>
    ensures read { IsSince (option_copied value.entry) result }
    ensures only { (since : Result Key KeyFault) → IsSince (option_copied value.entry) since
        → since ≡ result }
{
    match value {
        Some(value) => Key::parse(unquoted(value)),
        None => Ok(Key { by: 0, seq: 0 }),
    }
}

/// What stands between two double quotes, or without them the text itself.
fn unquoted(text: &str) -> &str
    ensures { result.now ≡ requests.unquoted text.now }
{
    let Some(rest) = text.strip_prefix('"') else {
        return text;
    };
    match rest.strip_suffix('"') {
        Some(inner) => inner,
        None => text,
    }
}

/// Reads the properties of a subChanges whose since is read so.
fn sub_changes(
    alloc: Global,
    since: Result<Key, KeyFault>,
    version: Version,
    props: &Props,
) -> Result<Request, RequestFault>
    ensures { result ≢ Err RequestFault.Memory
        → result ≡ requests.sub_changes since version props.now }
{
    let since = since_of(since)?;
    let batch = batch_of(props.get("batch"))?;
    let filter = filter_of(alloc, props.get("filter"), props.get("channels"))?;
    Ok(Request::SubChanges {
        since,
        continuous: is_set("continuous", props),
        batch,
        options: Options {
            filter,
            active_only: is_set("activeOnly", props),
            revocations: revocations_of(version, props),
        },
    })
}

fn since_of(since: Result<Key, KeyFault>) -> Result<Key, RequestFault>
    ensures { result ≡ requests.since_of since }
{
    match since {
        Ok(key) => Ok(key),
        Err(KeyFault::LowForm) => Err(RequestFault::LowForm400),
        Err(KeyFault::BadKey) => Err(RequestFault::Bad400 {
            field: Field::Since,
        }),
    }
}

fn batch_of(value: Option<&str>) -> Result<u64, RequestFault>
    ensures { result ≡ requests.batch_of (option_copied value.entry) }
{
    match value {
        Some(value) => match number_up_to(10_000, value) {
            Some(batch) => Ok(batch),
            None => Err(RequestFault::Bad400 {
                field: Field::Batch,
            }),
        },
        None => Ok(200),
    }
}

fn revocations_of(version: Version, props: &Props) -> bool
    ensures { result ≡ requests.revocations_of version props.now }
{
    match version {
        Version::Two => false,
        Version::Three => is_set("revocations", props),
    }
}

fn filter_of(
    alloc: Global,
    name: Option<&str>,
    channels: Option<&str>,
) -> Result<Option<Channels>, RequestFault>
    ensures { result ≢ Err RequestFault.Memory
        → result ≡ requests.filter_of (option_copied name.entry) (option_copied channels.entry) }
{
    let Some(name) = name else {
        return Ok(None);
    };
    if name != "sync_gateway/bychannel" {
        return Err(RequestFault::Bad400 {
            field: Field::Filter,
        });
    }
    Ok(Some(channels_of(alloc, channels)?))
}

/// The parts of a text between its commas, of which there is one more than commas.
fn split_at_commas(alloc: Global, text: &str) -> Result<Vec<&str>, AllocError>
    ensures { IfOk result (λ v. map (λ p. p.now) v.items ≡ slice_split (λ b. b == 44) text.now) }
{
    text.split(',').collect(alloc)
}

fn channels_of(alloc: Global, value: Option<&str>) -> Result<Channels, RequestFault>
    ensures { result ≢ Err RequestFault.Memory
        → result ≡ requests.channels_of (option_copied value.entry) }
{
    match value {
        Some(value) => {
            let pieces = split_at_commas(alloc, value)?;
            Ok(Channels::from_vec(read_names(alloc, pieces.as_slice())?))
        }
        None => Err(RequestFault::Bad400 {
            field: Field::Channels,
        }),
    }
}

/// The names of channels that the pieces are.
fn read_names(alloc: Global, pieces: &[&str]) -> Result<Vec<ChannelName>, RequestFault>
    ensures ok { IfOk result (λ names. (names.items ≡ map (λ p. p.now) pieces.now)
        × IsTrue (list_all (λ n. is_channel_name n) (map (λ p. p.now) pieces.now))) }
    ensures err { IfErr result
        (λ fault. fault ≢ RequestFault.Memory → (fault ≡ RequestFault.Bad400 Field.Channels)
        × (list_all (λ n. is_channel_name n) (map (λ p. p.now) pieces.now) ≡ false)) }
{
    let mut names = Vec::new(alloc);
    for piece in pieces {
        names.push(read_name(alloc, piece)?)?;
    }
    Ok(names)
}

/// The name of a channel that the piece is.
fn read_name(alloc: Global, piece: &str) -> Result<ChannelName, RequestFault>
    ensures ok { IfOk result (λ n. (n ≡ piece.now) × IsTrue (is_channel_name piece.now)) }
    ensures err { IfErr result (λ fault. fault ≢ RequestFault.Memory
        → (fault ≡ RequestFault.Bad400 Field.Channels) × (is_channel_name piece.now ≡ false)) }
{
    match ChannelName::parse(alloc, piece) {
        Ok(name) => Ok(name),
        Err(TextFault::Bad) => Err(RequestFault::Bad400 {
            field: Field::Channels,
        }),
        Err(TextFault::Memory) => Err(RequestFault::Memory),
    }
}
