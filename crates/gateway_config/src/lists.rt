//! Lists of texts in a grammar.

ghost use Rattle.std.specs.Prelude.{◌≡◌, Some, IfOk};
ghost use Rattle.serde_json.specs.View.{view, items_view};
ghost use Rattle.sg_names.specs.Grammar.{is_channel_name, is_name};
ghost use Rattle.gateway_config.specs.Members.{member_text, member_texts, grammar_texts};

use serde_json::Value;
use sg_history::{ChannelName, Channels, Name, Names, TextFault};
use sg_outside::Memory;
use std::alloc::{AllocError, Global};

fn channel(alloc: Global, value: &Value) -> Result<Option<ChannelName>, Memory>
    ensures { IfOk result (λ found. found ≡ member_text (λ t. is_channel_name t) (view value.now)) }
{
    let Some(text) = value.as_str() else {
        return Ok(None);
    };
    match ChannelName::parse(alloc, text) {
        Ok(name) => Ok(Some(name)),
        Err(TextFault::Bad) => Ok(None),
        Err(TextFault::Memory) => Err(AllocError),
    }
}

fn name(alloc: Global, value: &Value) -> Result<Option<Name>, Memory>
    ensures { IfOk result (λ found. found ≡ member_text (λ t. is_name t) (view value.now)) }
{
    let Some(text) = value.as_str() else {
        return Ok(None);
    };
    match Name::parse(alloc, text) {
        Ok(name) => Ok(Some(name)),
        Err(TextFault::Bad) => Ok(None),
        Err(TextFault::Memory) => Err(AllocError),
    }
}

fn channels(alloc: Global, items: &[Value]) -> Result<Option<Channels>, Memory>
    ensures { IfOk result (λ found. found
        ≡ grammar_texts (λ t. is_channel_name t) (items_view items.now)) }
{
    let mut list = Channels::new(alloc);
    for item in items {
        match channel(alloc, item)? {
            Some(found) => list.push(found)?,
            None => return Ok(None),
        }
    }
    Ok(Some(list))
}

fn names(alloc: Global, items: &[Value]) -> Result<Option<Names>, Memory>
    ensures { IfOk result (λ found. found ≡ grammar_texts (λ t. is_name t) (items_view items.now)) }
{
    let mut list = Names::new(alloc);
    for item in items {
        match name(alloc, item)? {
            Some(found) => list.push(found)?,
            None => return Ok(None),
        }
    }
    Ok(Some(list))
}

/// The channels that a value lists; none where it is no list of channels' names.
pub(crate) fn channels_in(alloc: Global, value: &Value) -> Result<Option<Channels>, Memory>
    ensures { IfOk result (λ found. found ≡ member_texts (λ t. is_channel_name t) (view value.now)) }
{
    match value.as_array() {
        Some(items) => channels(alloc, items.as_slice()),
        None => Ok(None),
    }
}

/// The names that a value lists; none where it is no list of names.
pub(crate) fn names_in(alloc: Global, value: &Value) -> Result<Option<Names>, Memory>
    ensures { IfOk result (λ found. found ≡ member_texts (λ t. is_name t) (view value.now)) }
{
    match value.as_array() {
        Some(items) => names(alloc, items.as_slice()),
        None => Ok(None),
    }
}
