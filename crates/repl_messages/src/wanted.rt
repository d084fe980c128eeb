//! The reply of a device to `changes`.

ghost use Rattle.std.specs.Prelude.{◌≡◌, drop, codes, IfOk};
ghost use Rattle.std.specs.Option.{option_copied};
ghost use Rattle.blip_frame.specs.Props.{value_at};
ghost use Rattle.serde_json.specs.View.{items_view};
ghost use Rattle.repl_messages.specs.Wanted as wanted;
ghost use Rattle.repl_messages.specs.Wanted.{wanted_rows, max_history_of};

use crate::json_body::items_in;
use crate::properties::number_up_to;
use blip_frame::Kind;
use blip_mux::Message;
use serde_json::Value;
use sg_names::List;
use sg_outside::Memory;
use std::alloc::Global;

/// One flag a row.
pub type Flags = List<bool>;

/// What a device wants of the rows that it was offered.
#[derive(Drop)]
pub struct Wanted {
    /// For each row whether it is wanted.
    pub rows: Flags,
    /// How many ancestors of a revision are wanted at most.
    pub max_history: u64,
}

/// Reads the reply to so many rows. A row is wanted where the item at its place is an array; an error, and
/// a body that is no JSON array, wants none.
pub fn read_wanted(alloc: Global, message: &Message, rows: u64) -> Result<Wanted, Memory>
    ensures rows { IfOk result
        (λ w. w.rows
        ≡ wanted_rows rows (wanted.reply_items message.now.kind message.now.payload.body)) }
    ensures max_history { IfOk result
        (λ w. w.max_history
        ≡ max_history_of (value_at message.now.payload.props (codes "maxHistory"))) }
{
    let items = reply_items(alloc, message.kind, message.payload.body.as_slice())?;
    Ok(Wanted {
        rows: flags_of(alloc, items.as_slice(), rows)?,
        max_history: max_history_of(message.payload.props.get("maxHistory")),
    })
}

/// The items of a reply; an error has none.
fn reply_items(alloc: Global, kind: Kind, body: &[u8]) -> Result<Vec<Value>, Memory>
    ensures { IfOk result (λ items. items_view items.items ≡ wanted.reply_items kind body.now) }
{
    match kind {
        Kind::Err => Ok(Vec::new(alloc)),
        Kind::Msg | Kind::Rpy | Kind::AckMsg | Kind::AckRpy => items_in(alloc, body),
    }
}

/// One flag for each of so many rows. Takes room as the rows come.
fn flags_of(alloc: Global, items: &[Value], rows: u64) -> Result<Flags, Memory>
    ensures { IfOk result (λ flags. flags ≡ wanted_rows rows (items_view items.now)) }
{
    let mut flags = Flags::new(alloc);
    for i in 0..rows {
        flags.push(is_array_at(items, i))?;
    }
    Ok(flags)
}

/// Whether there is an item at the place and it is an array.
fn is_array_at(items: &[Value], i: u64) -> bool
    ensures { result ≡ wanted.is_first_array (items_view (drop i items.now)) }
{
    match items.get(i as usize) {
        Some(item) => item.is_array(),
        None => false,
    }
}

fn max_history_of(value: Option<&str>) -> u64
    ensures { result ≡ wanted.max_history_of (option_copied value.entry) }
{
    match value {
        Some(value) => number_up_to(1_000, value).unwrap_or(100),
        None => 100,
    }
}
