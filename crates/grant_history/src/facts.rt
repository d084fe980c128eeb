//! What a user or a role has.

ghost use Rattle.std.specs.Prelude.{◌≡◌};
ghost use Rattle.sg_history.specs.Principals.{same_grantee};
ghost use Rattle.grant_history.specs.Facts.{same_fact, same_facts};

use grant_tracks::What;
use sg_history::Grantee;

/// What a user or a role has.
#[derive(Drop)]
pub struct Fact {
    pub of: Grantee,
    pub what: What,
}

/// Whether both are the same.
fn is_same_grantee(one: &Grantee, other: &Grantee) -> bool
    ensures { result ≡ same_grantee one.now other.now }
{
    match (one, other) {
        (Grantee::User(a), Grantee::User(b)) => a.equals(b),
        (Grantee::Role(a), Grantee::Role(b)) => a.equals(b),
        _ => false,
    }
}

/// Whether both are the same.
fn is_same(one: &Fact, other: &Fact) -> bool
    ensures { result ≡ same_fact one.now other.now }
{
    is_same_grantee(&one.of, &other.of) && one.what.equals(&other.what)
}

/// Whether both have the same, in the same order.
pub fn are_same(one: &[Fact], other: &[Fact]) -> bool
    ensures { result ≡ same_facts one.now other.now }
{
    if one.len() != other.len() {
        return false;
    }
    for i in 0..one.len() {
        if !is_same(&one[i], &other[i]) {
            return false;
        }
    }
    true
}
