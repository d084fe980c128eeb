//! Roles that documents give to users.

ghost use Rattle.std.specs.Prelude.{◌≡◌, ◌≢◌, ◌++◌, ◌∷◌, List, [], IsTrue, IfOk, OnOk, OnErr};

use crate::fault::TextFault;
use crate::item_list::{self, Item, Rising};
use crate::list::List;
use crate::named_texts::Name;
use crate::{grammar, pieces};
use sg_outside::{Bytes, Memory};
use std::alloc::{AllocError, Global};
use std::cmp::Ordering;
use std::marker::Model;

/// A role that a document gives to a user.
#[derive(Drop)]
pub struct RoleGrant {
    pub user: Name,
    pub role: Name,
}

impl RoleGrant {
    ghost use Rattle.sg_names.specs.RoleGrants.{role_grant_text, is_role_grant, role_grant_cmp};
    ghost use Rattle.sg_names.specs.declared.role_grants.RoleGrant.{RoleGrant};

    /// Reads one: `Bad` where the text is outside the grammar.
    pub fn parse(alloc: Global, text: &str) -> Result<RoleGrant, TextFault>
        ensures ok { IfOk result (λ g. (text.now ≡ role_grant_text g) × IsTrue (is_role_grant g)) }
        ensures bad { result ≡ Err TextFault.Bad → (g : RoleGrant) → IsTrue (is_role_grant g)
            → text.now ≢ role_grant_text g }
        ensures outside { ((g : RoleGrant) → IsTrue (is_role_grant g)
            → text.now ≢ role_grant_text g)
            → result ≡ Err TextFault.Bad }
    {
        let Some((front, back)) = pieces::cut(text, '=') else {
            return Err(TextFault::Bad);
        };
        if !grammar::is_name(back.as_bytes()) {
            return Err(TextFault::Bad);
        }
        Ok(RoleGrant {
            user: Name::parse(alloc, front)?,
            role: Name::parse(alloc, back)?,
        })
    }

    /// The order by the user, then by the role.
    pub fn order(&self, other: &RoleGrant) -> Ordering
        ensures { result ≡ role_grant_cmp self.now other.now }
    {
        self.user
            .order(&other.user)
            .then(self.role.order(&other.role))
    }

    pub fn copy(&self, alloc: Global) -> Result<RoleGrant, AllocError>
        ensures { IfOk result (λ g. g ≡ self.now) }
    {
        Ok(RoleGrant {
            user: self.user.copy(alloc)?,
            role: self.role.copy(alloc)?,
        })
    }

    /// Puts the text at the end. An error leaves the bytes as they were.
    pub fn write(&self, out: &mut Bytes) -> Result<(), Memory>
        ensures ok { OnOk result (out.new ≡ out.old ++ role_grant_text self.now) }
        ensures err { OnErr result (out.new ≡ out.old) }
    {
        pieces::append(&[self.user.as_bytes(), b"=", self.role.as_bytes()], out)
    }
}

impl Item for RoleGrant {
    ghost use Rattle.sg_names.specs.RoleGrants.{role_grant_text, is_role_grant};

    ghost text = { λ g. role_grant_text g };

    ghost admits = { λ g. is_role_grant g };

    fn is_text(piece: &str) -> bool {
        let Some((front, back)) = pieces::cut(piece, '=') else {
            return false;
        };
        grammar::is_name(front.as_bytes()) && grammar::is_name(back.as_bytes())
    }

    fn read(alloc: Global, piece: &str) -> Result<RoleGrant, TextFault> {
        RoleGrant::parse(alloc, piece)
    }

    fn duplicate(&self, alloc: Global) -> Result<RoleGrant, AllocError> {
        self.copy(alloc)
    }

    fn print(&self, out: &mut Bytes) -> Result<(), Memory> {
        self.write(out)
    }
}

impl Rising for RoleGrant {
    ghost use Rattle.sg_names.specs.RoleGrants.{role_grant_cmp};

    ghost order = { λ a b. role_grant_cmp a b };

    fn compare_texts(one: &str, other: &str) -> Ordering {
        pieces::order_at_equals(one, other)
    }
}

/// A list of role grants.
pub type RoleGrants = List<RoleGrant>;

impl List<RoleGrant> {
    ghost use Rattle.sg_names.specs.RoleGrants.{role_grants_text, is_role_grants};
    ghost use Rattle.sg_names.specs.declared.role_grants.RoleGrant.{RoleGrant};

    /// Reads the text of a list: `Bad` where it is outside the grammar, or does not rise.
    pub fn parse(alloc: Global, text: &str) -> Result<RoleGrants, TextFault>
        ensures ok { IfOk result (λ l. (text.now ≡ role_grants_text l)
            × IsTrue (is_role_grants l)) }
        ensures bad { result ≡ Err TextFault.Bad → (l : List RoleGrant) → IsTrue (is_role_grants l)
            → text.now ≢ role_grants_text l }
        ensures outside { ((l : List RoleGrant) → IsTrue (is_role_grants l)
            → text.now ≢ role_grants_text l)
            → result ≡ Err TextFault.Bad }
    {
        Ok(List::from_vec(item_list::read_rising(alloc, text)?))
    }

    /// Puts the text at the end. An error leaves the bytes as they were.
    pub fn write(&self, out: &mut Bytes) -> Result<(), Memory>
        ensures ok { OnOk result (out.new ≡ out.old ++ role_grants_text self.now) }
        ensures err { OnErr result (out.new ≡ out.old) }
    {
        item_list::write_list(self.as_slice(), out)
    }
}
