//! Texts of lists: `-` for none, else the items joined by commas.

ghost use Rattle.std.specs.Prelude.{◌≡◌, ◌≢◌, ◌≤◌, ◌==◌, ◌&&◌, ◌++◌, ◌∷◌, List, [], ℕ, Bool, true, false, map, length, take, IsTrue, IfOk, OnOk, OnErr};
ghost use Rattle.std.specs.List.{flat_map, list_all, slice_split};
ghost use Rattle.std.specs.declared.cmp.Ordering as ordering;
ghost use Rattle.sg_names.specs.Grammar.{lacks};
ghost use Rattle.sg_names.specs.ItemList as lists;
ghost use Rattle.sg_names.specs.ItemList.{list_text, HasItem, HasItems, StartsWith};

use crate::fault::TextFault;
use crate::pieces;
use sg_outside::{Bytes, Memory};
use std::alloc::{AllocError, Global};
use std::cmp::Ordering;

/// What stands in a list. Its text is `text`, and `admits` says whether it is in its grammar.
pub trait Item: Drop {
    ghost text: { Self → List ℕ };

    ghost admits: { Self → Bool };

    /// Whether a text is that of one. Allocates nothing.
    fn is_text(piece: &str) -> bool
        ensures yes { result ≡ true → HasItem text admits piece.now }
        ensures no { result ≡ false → (x : Self) → admits x ≡ true → piece.now ≢ text x };

    /// Reads one: `Bad` where the text is outside the grammar.
    fn read(alloc: Global, piece: &str) -> Result<Self, TextFault>
    where
        Self: Sized,
        ensures ok { IfOk result (λ x. (piece.now ≡ text x) × IsTrue (admits x)) }
        ensures bad { result ≡ Err TextFault.Bad → (x : Self) → IsTrue (admits x)
            → piece.now ≢ text x };

    /// The same again.
    fn duplicate(&self, alloc: Global) -> Result<Self, AllocError>
    where
        Self: Sized,
        ensures { IfOk result (λ x. x ≡ self.now) };

    /// Puts the text at the end. An error leaves the bytes as they were.
    fn print(&self, out: &mut Bytes) -> Result<(), Memory>
        ensures ok { OnOk result (out.new ≡ out.old ++ text self.now) }
        ensures err { OnErr result (out.new ≡ out.old) };
}

/// What stands in a list that rises.
pub trait Rising: Item {
    ghost order: { Self → Self → ordering.Ordering };

    /// The order of the two that have these texts. Allocates nothing.
    fn compare_texts(one: &str, other: &str) -> Ordering
        ensures { (x y : Self) → Self.Item.admits x ≡ true → Self.Item.admits y ≡ true
            → one.now ≡ Self.Item.text x → other.now ≡ Self.Item.text y → result ≡ order x y };
}

/// Whether each part between commas is the text of an item. Allocates nothing.
fn are_items<T: Item>(text: &str) -> bool
    ensures yes { result ≡ true → HasItems T.text T.admits text.now }
    ensures no { result ≡ false → (xs : List T) → list_all T.admits xs ≡ true
        → slice_split (λ b. b == 44) text.now ≢ map T.text xs }
{
    let mut rest = text;
    while let Some((part, after)) = pieces::cut(rest, ',') {
        if !T::is_text(part) {
            return false;
        }
        rest = after;
    }
    T::is_text(rest)
}

/// How many parts there are between commas. Allocates nothing.
fn count_parts(text: &str) -> usize
    ensures { 1 ≤ result }
{
    let mut commas: usize = 0;
    for byte in text.as_bytes() {
        if *byte == b',' {
            commas = commas.saturating_add(1);
        }
    }
    commas.saturating_add(1)
}

/// Reads an item from each part between commas: `Bad` where one is outside the grammar.
fn read_items<T: Item>(alloc: Global, text: &str) -> Result<Vec<T>, TextFault>
    ensures ok { IfOk result (λ v. (slice_split (λ b. b == 44) text.now ≡ map T.text v.items)
        × IsTrue (list_all T.admits v.items)) }
    ensures bad { result ≡ Err TextFault.Bad → (xs : List T) → IsTrue (list_all T.admits xs)
        → slice_split (λ b. b == 44) text.now ≢ map T.text xs }
{
    let mut items = Vec::with_capacity(alloc, count_parts(text))?;
    let mut rest = text;
    while let Some((part, after)) = pieces::cut(rest, ',') {
        items.push(T::read(alloc, part)?)?;
        rest = after;
    }
    items.push(T::read(alloc, rest)?)?;
    Ok(items)
}

/// The part before the first comma, or the whole text.
fn first_part(text: &str) -> &str
    ensures { StartsWith result.now text.now }
{
    match pieces::cut(text, ',') {
        Some((part, _)) => part,
        None => text,
    }
}

/// Whether each part between commas comes strictly before the next. Allocates nothing.
fn parts_rise<T: Rising>(text: &str) -> bool
    ensures { (xs : List T) → list_all T.Item.admits xs ≡ true
        → slice_split (λ b. b == 44) text.now ≡ map T.Item.text xs
        → result ≡ lists.rises T.order xs }
{
    let mut rest = text;
    while let Some((part, after)) = pieces::cut(rest, ',') {
        if T::compare_texts(part, first_part(after)) != Ordering::Less {
            return false;
        }
        rest = after;
    }
    true
}

/// Whether a text is that of a list, in any order. Allocates nothing.
fn is_list<T: Item>(text: &str) -> bool
    requires { lists.AreApart T.text T.admits }
    ensures yes { result ≡ true → (xs : List T) × (list_all T.admits xs ≡ true)
        × (text.now ≡ list_text (map T.text xs)) }
    ensures no { result ≡ false → (xs : List T) → list_all T.admits xs ≡ true
        → text.now ≢ list_text (map T.text xs) }
{
    text == "-" || are_items::<T>(text)
}

/// Whether each item of a list comes strictly before the next, by its text. Allocates nothing.
fn rises<T: Rising>(text: &str) -> bool
    requires { lists.AreApart T.Item.text T.Item.admits }
    ensures { (xs : List T) → list_all T.Item.admits xs ≡ true
        → text.now ≡ list_text (map T.Item.text xs) → result ≡ lists.rises T.order xs }
{
    if text == "-" {
        return true;
    }
    parts_rise::<T>(text)
}

/// Reads the text of a list from its parts: `Bad` where one is outside the grammar.
fn read_parts<T: Item>(alloc: Global, text: &str) -> Result<Vec<T>, TextFault>
    requires { lists.AreApart T.text T.admits }
    ensures ok { IfOk result (λ v. (text.now ≡ list_text (map T.text v.items))
        × IsTrue (list_all T.admits v.items)) }
    ensures bad { result ≡ Err TextFault.Bad → (xs : List T) → IsTrue (list_all T.admits xs)
        → text.now ≢ list_text (map T.text xs) }
{
    if text == "-" {
        return Ok(Vec::new(alloc));
    }
    read_items(alloc, text)
}

/// Reads the text of a list, in any order: `Bad` where it is outside the grammar, which is found
/// before memory is taken.
pub fn read_list<T: Item>(alloc: Global, text: &str) -> Result<Vec<T>, TextFault>
    requires { lists.AreApart T.text T.admits }
    ensures ok { IfOk result (λ v. (text.now ≡ list_text (map T.text v.items))
        × IsTrue (list_all T.admits v.items)) }
    ensures bad { result ≡ Err TextFault.Bad → (xs : List T) → IsTrue (list_all T.admits xs)
        → text.now ≢ list_text (map T.text xs) }
    ensures outside { ((xs : List T) → IsTrue (list_all T.admits xs)
        → text.now ≢ list_text (map T.text xs)) → result ≡ Err TextFault.Bad }
{
    if !is_list::<T>(text) {
        return Err(TextFault::Bad);
    }
    read_parts(alloc, text)
}

/// Reads the text of a list that rises strictly: `Bad` where it is outside the grammar or does not
/// rise, which is found before memory is taken.
pub fn read_rising<T: Rising>(alloc: Global, text: &str) -> Result<Vec<T>, TextFault>
    requires { lists.AreApart T.Item.text T.Item.admits }
    ensures ok { IfOk result (λ v. (text.now ≡ list_text (map T.Item.text v.items))
        × IsTrue (list_all T.Item.admits v.items && lists.rises T.order v.items)) }
    ensures bad { result ≡ Err TextFault.Bad → (xs : List T)
        → IsTrue (list_all T.Item.admits xs && lists.rises T.order xs)
        → text.now ≢ list_text (map T.Item.text xs) }
    ensures outside { ((xs : List T) → IsTrue (list_all T.Item.admits xs && lists.rises T.order xs)
        → text.now ≢ list_text (map T.Item.text xs)) → result ≡ Err TextFault.Bad }
{
    if !rises::<T>(text) {
        return Err(TextFault::Bad);
    }
    read_list(alloc, text)
}

/// Puts the items at the end, a comma before each, up to one for which there is no memory.
fn write_further<T: Item>(items: &[T], out: &mut Bytes) -> Result<(), Memory>
    ensures ok { OnOk result (out.new ≡ out.old ++ flat_map (λ x. 44 ∷ T.text x) items.now) }
    ensures err { OnErr result (take (length out.old) out.new ≡ out.old) }
{
    for item in items {
        out.push(b',')?;
        item.print(out)?;
    }
    Ok(())
}

/// Puts the text of a list at the end, up to an item for which there is no memory.
fn write_while<T: Item>(items: &[T], out: &mut Bytes) -> Result<(), Memory>
    ensures ok { OnOk result (out.new ≡ out.old ++ list_text (map T.text items.now)) }
    ensures err { OnErr result (take (length out.old) out.new ≡ out.old) }
{
    match items {
        [] => out.push(b'-'),
        [first, others @ ..] => {
            first.print(out)?;
            write_further(others, out)?;
            Ok(())
        }
    }
}

/// Puts the text of a list at the end. An error leaves the bytes as they were.
pub fn write_list<T: Item>(items: &[T], out: &mut Bytes) -> Result<(), Memory>
    ensures ok { OnOk result (out.new ≡ out.old ++ list_text (map T.text items.now)) }
    ensures err { OnErr result (out.new ≡ out.old) }
{
    let start = out.len();
    let written = write_while(items, out);
    if written.is_err() {
        out.truncate(start);
    }
    written
}
