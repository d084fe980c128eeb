//! What builtins take.

ghost use Rattle.std.specs.Prelude.{◌≡◌, ◌∷◌, ◌++◌, [], option_map, IfOk, OnOk};
ghost use Rattle.std.specs.Ordering.{nat_cmp};
ghost use Rattle.std.specs.Cmp.Lexicographic.{slice_cmp};
ghost use Rattle.sg_names.specs.Grammar.{is_name, is_channel_name};
ghost use Rattle.sg_names.specs.Grants.{is_grantee};
ghost use Rattle.sync_values.specs.Found.{Gives};
ghost use Rattle.sync_meaning.specs.inner.Arguments as names;
ghost use Rattle.sync_meaning.specs.inner.Arguments.{texts, AreSame, AreSorted, GivesTexts, GivesNames};
ghost use Rattle.sync_meaning.specs.Builtins as spec;

use crate::Memory;
use sg_names::{ChannelName, Grantee, Name, TextFault, grammar};
use std::alloc::Global;
use std::cmp::Ordering;
use sync_tokens::Place;
use sync_values::{FaultKind, Stop, Value};

/// What the texts of an argument are to name.
#[derive(Clone, Copy, Debug, PartialEq, Eq)]
pub(crate) enum Kind {
    User,
    Role,
    Channel,
    Grantee,
}

/// The text that a value is.
#[tactic(auto, unfolding(crate::specs::Builtins::text_in))]
pub fn text_in(value: &Value) -> Option<&str>
    ensures { option_map (λ text. text.now) result ≡ spec.text_in value.now }
{
    match value {
        Value::Text(text) => Some(text.as_str()),
        _ => None,
    }
}

/// One text more.
fn push_text<'a>(found: &mut Vec<&'a str>, text: &'a str) -> Result<(), Memory>
    ensures { OnOk result (texts found.new.items ≡ texts found.old.items ++ text.now ∷ []) }
{
    found.push(text)?;
    Ok(())
}

/// The texts that values are, where they stand; none where one is no text.
fn texts_of(alloc: Global, values: &[Value]) -> Result<Option<Vec<&str>>, Memory>
    ensures { IfOk result (λ found. option_map (λ v. texts v.items) found
        ≡ spec.item_texts values.now) }
{
    let mut found = Vec::new(alloc);
    let mut left = values;
    while let [value, rest @ ..] = left {
        match text_in(value) {
            Some(text) => push_text(&mut found, text)?,
            None => return Ok(None),
        }
        left = rest;
    }
    Ok(Some(found))
}

/// One text.
fn one_text(alloc: Global, text: &str) -> Result<Vec<&str>, Memory>
    ensures { IfOk result (λ v. texts v.items ≡ text.now ∷ []) }
{
    let mut one = Vec::new(alloc);
    push_text(&mut one, text)?;
    Ok(one)
}

/// The texts of an argument, where they stand.
#[tactic(auto, unfolding(crate::specs::Builtins::texts_in))]
fn texts_in(alloc: Global, place: Place, value: &Value) -> Result<Vec<&str>, Stop>
    ensures { GivesTexts (spec.texts_in place value.now) result }
{
    let found = match value {
        Value::Undefined | Value::Null => Some(Vec::new(alloc)),
        Value::Text(text) => Some(one_text(alloc, text.as_str())?),
        Value::List(values) => texts_of(alloc, values.get().as_slice())?,
        _ => None,
    };
    match found {
        Some(texts) => Ok(texts),
        None => Err(Stop::fault(FaultKind::Argument, place)),
    }
}

/// What stands behind `role:`, where a text begins so.
#[tactic(auto, unfolding(crate::specs::Builtins::role_behind))]
fn role_in(text: &str) -> Option<&str>
    ensures { option_map (λ role. role.now) result ≡ spec.role_behind text.now }
{
    text.strip_prefix("role:")
}

/// A role, which may be written with `role:` before it.
fn bare_role(text: &str) -> &str
    ensures { result.now ≡ spec.bare_role text.now }
{
    match role_in(text) {
        Some(role) => role,
        None => text,
    }
}

/// Whether a text is that of a user, or of a role with `role:` before it.
fn is_grantee(text: &str) -> bool
    ensures { result ≡ is_grantee (spec.grantee_of text.now) }
{
    match role_in(text) {
        Some(role) => grammar::is_name(role.as_bytes()),
        None => grammar::is_name(text.as_bytes()),
    }
}

impl Kind {
    /// What of a text is the name.
    fn part(self, text: &str) -> &str
        ensures { result.now ≡ names.part self text.now }
    {
        match self {
            Kind::Role => bare_role(text),
            _ => text,
        }
    }

    /// Whether that is in its grammar.
    fn admits(self, name: &str) -> bool
        ensures { result ≡ names.admits self name.now }
    {
        match self {
            Kind::User | Kind::Role => grammar::is_name(name.as_bytes()),
            Kind::Channel => grammar::is_channel_name(name.as_bytes()),
            Kind::Grantee => is_grantee(name),
        }
    }
}

/// What texts name, if each is in its grammar.
fn named<'a>(alloc: Global, kind: Kind, place: Place, all: &[&'a str]) -> Result<Vec<&'a str>, Stop>
    ensures { GivesTexts (spec.named place (names.part kind) (names.admits kind)
        (texts all.now)) result }
{
    let mut found = Vec::new(alloc);
    let mut left = all;
    while let [text, rest @ ..] = left {
        let name = kind.part(text);
        if !kind.admits(name) {
            return Err(Stop::fault(FaultKind::BadName, place));
        }
        push_text(&mut found, name)?;
        left = rest;
    }
    Ok(found)
}

/// What an argument names, as it stands there.
fn given(alloc: Global, kind: Kind, place: Place, value: &Value) -> Result<Vec<&str>, Stop>
    ensures { GivesTexts (spec.names_in place (names.part kind) (names.admits kind) value.now)
        result }
{
    let texts = texts_in(alloc, place, value)?;
    named(alloc, kind, place, texts.as_slice())
}

fn order(one: &str, other: &str) -> Ordering
    ensures { result ≡ slice_cmp nat_cmp one.now other.now }
{
    one.as_bytes().cmp(other.as_bytes())
}

/// Puts names in their order, each once, and lets the places go of those that stood there again.
fn in_order(names: Vec<&str>) -> Result<Vec<&str>, Memory>
    ensures same { IfOk result (λ v. AreSame (texts names.entry.items) (texts v.items)) }
    ensures sorted { IfOk result (λ v. AreSorted (texts v.items)) }
{
    let mut names = names;
    names.sort_by(|a, b| order(a, b))?;
    names.dedup_by(|a, b| order(a, b).is_eq());
    names.shrink_to_fit();
    Ok(names)
}

/// What an argument names, in order, each once.
pub(crate) fn names_in(
    alloc: Global,
    kind: Kind,
    place: Place,
    value: &Value,
) -> Result<Vec<&str>, Stop>
    ensures { GivesNames (spec.names_in place (names.part kind) (names.admits kind) value.now)
        result }
{
    let names = given(alloc, kind, place, value)?;
    Ok(in_order(names)?)
}

/// The channels of an argument, as they stand there.
#[tactic(auto, unfolding(crate::specs::Builtins::channels_in))]
fn channels_given(alloc: Global, place: Place, value: &Value) -> Result<Vec<&str>, Stop>
    ensures { GivesTexts (spec.channels_in place value.now) result }
{
    given(alloc, Kind::Channel, place, value)
}

/// Names and more behind them.
fn join<'a>(found: &mut Vec<&'a str>, more: Vec<&'a str>) -> Result<(), Memory>
    ensures { OnOk result (texts found.new.items ≡ texts found.old.items
        ++ texts more.entry.items) }
{
    let mut more = more;
    found.append(&mut more)?;
    Ok(())
}

/// The channels of arguments, as they stand there.
fn all_given(alloc: Global, place: Place, values: &[Value]) -> Result<Vec<&str>, Stop>
    ensures { GivesTexts (spec.all_channels place [] values.now) result }
{
    let mut found = Vec::new(alloc);
    let mut left = values;
    while let [value, rest @ ..] = left {
        let more = channels_given(alloc, place, value)?;
        join(&mut found, more)?;
        left = rest;
    }
    Ok(found)
}

/// The channels of arguments, in order, each once.
pub(crate) fn all_channels(alloc: Global, place: Place, values: &[Value]) -> Result<Vec<&str>, Stop>
    ensures { GivesNames (spec.all_channels place [] values.now) result }
{
    let names = all_given(alloc, place, values)?;
    Ok(in_order(names)?)
}

/// The name of a user or a role.
pub(crate) fn name_of(alloc: Global, place: Place, text: &str) -> Result<Name, Stop>
    ensures { Gives (spec.one place spec.itself is_name text.now) result }
{
    match Name::parse(alloc, text) {
        Ok(name) => Ok(name),
        Err(TextFault::Memory) => Err(Stop::Memory),
        Err(TextFault::Bad) => Err(Stop::fault(FaultKind::BadName, place)),
    }
}

/// The name of a channel.
pub(crate) fn channel_of(alloc: Global, place: Place, text: &str) -> Result<ChannelName, Stop>
    ensures { Gives (spec.one place spec.itself is_channel_name text.now) result }
{
    match ChannelName::parse(alloc, text) {
        Ok(name) => Ok(name),
        Err(TextFault::Memory) => Err(Stop::Memory),
        Err(TextFault::Bad) => Err(Stop::fault(FaultKind::BadName, place)),
    }
}

/// A user, or a role with `role:` before it.
pub(crate) fn grantee_of(alloc: Global, place: Place, text: &str) -> Result<Grantee, Stop>
    ensures { Gives (spec.one place spec.grantee_of is_grantee text.now) result }
{
    match role_in(text) {
        Some(role) => Ok(Grantee::Role(name_of(alloc, place, role)?)),
        None => Ok(Grantee::User(name_of(alloc, place, text)?)),
    }
}

fn order_to(one: &str, name: &[u8]) -> Ordering
    ensures { result ≡ slice_cmp nat_cmp one.now name.now }
{
    one.as_bytes().cmp(name)
}

/// Whether a name is one of these, which is found by halves. Allocates nothing.
pub(crate) fn has_name(names: &[&str], name: &[u8]) -> bool
    requires { AreSorted (texts names.now) }
    ensures { result ≡ spec.is_one_of (texts names.now) name.now }
{
    names.binary_search_by(|n| order_to(n, name)).is_ok()
}
