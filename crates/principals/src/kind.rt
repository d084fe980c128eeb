//! The kinds of a script's lines.

ghost use Rattle.std.specs.Prelude.{◌≡◌, None, IfSome, IfNone};
ghost use Rattle.principals.specs.Faults.{script_parts};
ghost use Rattle.principals.specs.inner.Kinds.{kind_text};

/// What a line says, by its first field.
#[derive(Clone, Copy)]
pub enum Kind {
    User,
    Role,
    DropUser,
    DropRole,
    Doc,
}

/// The kind of a line with this first field, if it is one.
pub fn kind_of(field: &[u8]) -> Option<Kind>
    ensures some { IfSome result (λ kind. field.now ≡ kind_text kind) }
    ensures none { IfNone result (script_parts field.now ≡ None) }
{
    if field == b"user".as_slice() {
        return Some(Kind::User);
    }
    if field == b"role".as_slice() {
        return Some(Kind::Role);
    }
    if field == b"dropuser".as_slice() {
        return Some(Kind::DropUser);
    }
    if field == b"droprole".as_slice() {
        return Some(Kind::DropRole);
    }
    if field == b"doc".as_slice() {
        return Some(Kind::Doc);
    }
    None
}
