//! Grants of channels.

ghost use Rattle.std.specs.Prelude.{◌≡◌, ◌≢◌, ◌++◌, ◌∷◌, List, [], true, false, IsTrue, IfOk, OnOk, OnErr};
ghost use Rattle.std.specs.Ordering.{nat_cmp};
ghost use Rattle.sg_names.specs.Grants as grants;
ghost use Rattle.sg_names.specs.ItemList.{HasItem};
ghost use Rattle.sg_names.specs.declared.grants.Grantee.{Grantee};
ghost use Rattle.std.specs.Cmp.Lexicographic.{slice_cmp};

use crate::fault::TextFault;
use crate::item_list::{self, Item, Rising};
use crate::list::List;
use crate::named_texts::{ChannelName, Name};
use crate::{grammar, pieces};
use sg_outside::{Bytes, Memory};
use std::alloc::{AllocError, Global};
use std::cmp::Ordering;
use std::marker::Model;

/// Whom a grant is to.
#[derive(Drop)]
pub enum Grantee {
    User(Name),
    Role(Name),
}

impl Grantee {
    ghost use Rattle.sg_names.specs.Grants.{grantee_text, is_grantee};
    ghost use Rattle.sg_names.specs.declared.grants.Grantee.{Grantee};

    /// Reads one: `Bad` where the text is outside the grammar.
    pub fn parse(alloc: Global, text: &str) -> Result<Grantee, TextFault>
        ensures ok { IfOk result (λ g. (text.now ≡ grantee_text g) × IsTrue (is_grantee g)) }
        ensures bad { result ≡ Err TextFault.Bad → (g : Grantee) → IsTrue (is_grantee g)
            → text.now ≢ grantee_text g }
        ensures outside { ((g : Grantee) → IsTrue (is_grantee g) → text.now ≢ grantee_text g)
            → result ≡ Err TextFault.Bad }
    {
        match pieces::cut(text, ':') {
            None => Ok(Grantee::User(Name::parse(alloc, text)?)),
            Some((front, back)) => {
                if front != "role" {
                    return Err(TextFault::Bad);
                }
                Ok(Grantee::Role(Name::parse(alloc, back)?))
            }
        }
    }

    /// The order by texts.
    fn order(&self, other: &Grantee) -> Ordering
        ensures { result ≡ slice_cmp nat_cmp (grantee_text self.now) (grantee_text other.now) }
    {
        match (self, other) {
            (Grantee::User(a), Grantee::User(b)) => a.order(b),
            (Grantee::Role(a), Grantee::Role(b)) => a.order(b),
            (Grantee::User(a), Grantee::Role(_)) => a.as_bytes().cmp(b"role:".as_slice()),
            (Grantee::Role(_), Grantee::User(b)) => b"role:".as_slice().cmp(b.as_bytes()),
        }
    }

    pub fn copy(&self, alloc: Global) -> Result<Grantee, AllocError>
        ensures { IfOk result (λ g. g ≡ self.now) }
    {
        match self {
            Grantee::User(name) => Ok(Grantee::User(name.copy(alloc)?)),
            Grantee::Role(name) => Ok(Grantee::Role(name.copy(alloc)?)),
        }
    }
}

/// Whether a text is that of a grantee. Allocates nothing.
fn is_grantee(text: &str) -> bool
    ensures yes { result ≡ true
        → HasItem (λ g. grants.grantee_text g) (λ g. grants.is_grantee g) text.now }
    ensures no { result ≡ false → (g : Grantee) → grants.is_grantee g ≡ true
        → text.now ≢ grants.grantee_text g }
{
    match pieces::cut(text, ':') {
        None => grammar::is_name(text.as_bytes()),
        Some((front, back)) => front == "role" && grammar::is_name(back.as_bytes()),
    }
}

/// A channel that a document grants to a user or a role.
#[derive(Drop)]
pub struct Grant {
    pub to: Grantee,
    pub channel: ChannelName,
}

impl Grant {
    ghost use Rattle.sg_names.specs.Grants.{grant_text, is_grant, grant_cmp};
    ghost use Rattle.sg_names.specs.declared.grants.Grant.{Grant};

    /// Reads one: `Bad` where the text is outside the grammar.
    pub fn parse(alloc: Global, text: &str) -> Result<Grant, TextFault>
        ensures ok { IfOk result (λ g. (text.now ≡ grant_text g) × IsTrue (is_grant g)) }
        ensures bad { result ≡ Err TextFault.Bad → (g : Grant) → IsTrue (is_grant g)
            → text.now ≢ grant_text g }
        ensures outside { ((g : Grant) → IsTrue (is_grant g) → text.now ≢ grant_text g)
            → result ≡ Err TextFault.Bad }
    {
        let Some((front, back)) = pieces::cut(text, '=') else {
            return Err(TextFault::Bad);
        };
        if !grammar::is_channel_name(back.as_bytes()) {
            return Err(TextFault::Bad);
        }
        Ok(Grant {
            to: Grantee::parse(alloc, front)?,
            channel: ChannelName::parse(alloc, back)?,
        })
    }

    /// The order by the text before the first `=`, then by the channel.
    pub fn order(&self, other: &Grant) -> Ordering
        ensures { result ≡ grant_cmp self.now other.now }
    {
        self.to
            .order(&other.to)
            .then(self.channel.order(&other.channel))
    }

    pub fn copy(&self, alloc: Global) -> Result<Grant, AllocError>
        ensures { IfOk result (λ g. g ≡ self.now) }
    {
        Ok(Grant {
            to: self.to.copy(alloc)?,
            channel: self.channel.copy(alloc)?,
        })
    }

    /// Puts the text at the end. An error leaves the bytes as they were.
    pub fn write(&self, out: &mut Bytes) -> Result<(), Memory>
        ensures ok { OnOk result (out.new ≡ out.old ++ grant_text self.now) }
        ensures err { OnErr result (out.new ≡ out.old) }
    {
        let channel = self.channel.as_bytes();
        match &self.to {
            Grantee::User(name) => pieces::append(&[name.as_bytes(), b"=", channel], out),
            Grantee::Role(name) => {
                pieces::append(&[b"role:", name.as_bytes(), b"=", channel], out)
            }
        }
    }
}

impl Item for Grant {
    ghost use Rattle.sg_names.specs.Grants.{grant_text, is_grant};

    ghost text = { λ g. grant_text g };

    ghost admits = { λ g. is_grant g };

    fn is_text(piece: &str) -> bool {
        let Some((front, back)) = pieces::cut(piece, '=') else {
            return false;
        };
        is_grantee(front) && grammar::is_channel_name(back.as_bytes())
    }

    fn read(alloc: Global, piece: &str) -> Result<Grant, TextFault> {
        Grant::parse(alloc, piece)
    }

    fn duplicate(&self, alloc: Global) -> Result<Grant, AllocError> {
        self.copy(alloc)
    }

    fn print(&self, out: &mut Bytes) -> Result<(), Memory> {
        self.write(out)
    }
}

impl Rising for Grant {
    ghost use Rattle.sg_names.specs.Grants.{grant_cmp};

    ghost order = { λ a b. grant_cmp a b };

    fn compare_texts(one: &str, other: &str) -> Ordering {
        pieces::order_at_equals(one, other)
    }
}

/// A list of grants.
pub type Grants = List<Grant>;

impl List<Grant> {
    ghost use Rattle.sg_names.specs.Grants.{grants_text, is_grants};
    ghost use Rattle.sg_names.specs.declared.grants.Grant.{Grant};

    /// Reads the text of a list: `Bad` where it is outside the grammar, or does not rise.
    pub fn parse(alloc: Global, text: &str) -> Result<Grants, TextFault>
        ensures ok { IfOk result (λ l. (text.now ≡ grants_text l) × IsTrue (is_grants l)) }
        ensures bad { result ≡ Err TextFault.Bad → (l : List Grant) → IsTrue (is_grants l)
            → text.now ≢ grants_text l }
        ensures outside { ((l : List Grant) → IsTrue (is_grants l) → text.now ≢ grants_text l)
            → result ≡ Err TextFault.Bad }
    {
        Ok(List::from_vec(item_list::read_rising(alloc, text)?))
    }

    /// Puts the text at the end. An error leaves the bytes as they were.
    pub fn write(&self, out: &mut Bytes) -> Result<(), Memory>
        ensures ok { OnOk result (out.new ≡ out.old ++ grants_text self.now) }
        ensures err { OnErr result (out.new ≡ out.old) }
    {
        item_list::write_list(self.as_slice(), out)
    }
}
