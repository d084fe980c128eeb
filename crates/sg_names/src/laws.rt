//! What holds of the texts: each is that of one value, and has no control character. The calls do nothing.

ghost use Rattle.std.specs.Prelude.{◌≡◌, ◌<◌, ◌^◌, ℕ, List, [], ◌∷◌, IsTrue, decimal};
ghost use Rattle.sg_names.specs.Channels.{channels_text, is_channels};
ghost use Rattle.sg_names.specs.Decimal.{is_decimal};
ghost use Rattle.sg_names.specs.Grammar.{is_plain, lacks};
ghost use Rattle.sg_names.specs.Grants.{grants_text, is_grants};
ghost use Rattle.sg_names.specs.Hex.{hex_text, is_hex, are_bytes};
ghost use Rattle.sg_names.specs.Key.{key_text, is_key, ReadsKey};
ghost use Rattle.sg_names.specs.Names.{names_text, is_names};
ghost use Rattle.sg_names.specs.RevId.{rev_text, is_rev};
ghost use Rattle.sg_names.specs.Revs.{revs_text, is_revs};
ghost use Rattle.sg_names.specs.RoleGrants.{role_grants_text, is_role_grants};
ghost use Rattle.sg_names.specs.declared.grants.Grant.{Grant};
ghost use Rattle.sg_names.specs.declared.key.Key.{Key};
ghost use Rattle.sg_names.specs.declared.rev_id.RevId.{RevId};
ghost use Rattle.sg_names.specs.declared.role_grants.RoleGrant.{RoleGrant};

/// What a number is written as is a decimal, and that of no other number.
pub fn decimals()
    ensures written { (n : ℕ) → n < 2 ^ 64 → IsTrue (is_decimal (decimal n)) }
    ensures one { (m n : ℕ) → m < 2 ^ 64 → n < 2 ^ 64 → decimal m ≡ decimal n → m ≡ n }
{}

/// A text is that of one revision.
pub fn revisions()
    ensures { (r s : RevId) → IsTrue (is_rev r) → IsTrue (is_rev s) → rev_text r ≡ rev_text s
        → r ≡ s }
{}

/// What a key is written as is read as that key, and a text is read as one key.
pub fn keys()
    ensures written { (k : Key) → IsTrue (is_key k) → ReadsKey (key_text k) k }
    ensures one { (text : List ℕ) (k l : Key) → ReadsKey text k → ReadsKey text l → k ≡ l }
{}

/// A text is that of one list of channels.
pub fn channels()
    ensures { (k l : List (List ℕ)) → IsTrue (is_channels k) → IsTrue (is_channels l)
        → channels_text k ≡ channels_text l → k ≡ l }
{}

/// A text is that of one list of names.
pub fn names()
    ensures { (k l : List (List ℕ)) → IsTrue (is_names k) → IsTrue (is_names l)
        → names_text k ≡ names_text l → k ≡ l }
{}

/// A text is that of one list of revisions.
pub fn revision_lists()
    ensures { (k l : List RevId) → IsTrue (is_revs k) → IsTrue (is_revs l)
        → revs_text k ≡ revs_text l → k ≡ l }
{}

/// A text is that of one list of grants.
pub fn grants()
    ensures { (k l : List Grant) → IsTrue (is_grants k) → IsTrue (is_grants l)
        → grants_text k ≡ grants_text l → k ≡ l }
{}

/// A text is that of one list of role grants.
pub fn role_grants()
    ensures { (k l : List RoleGrant) → IsTrue (is_role_grants k) → IsTrue (is_role_grants l)
        → role_grants_text k ≡ role_grants_text l → k ≡ l }
{}

/// What bytes are written as is a hexadecimal text, and that of no other bytes.
pub fn hexadecimals()
    ensures written { (b : ℕ) (bs : List ℕ) → IsTrue (are_bytes (b ∷ bs))
        → IsTrue (is_hex (hex_text (b ∷ bs))) }
    ensures one { (a b : List ℕ) → IsTrue (are_bytes a) → IsTrue (are_bytes b)
        → hex_text a ≡ hex_text b → a ≡ b }
{}

/// Each text has no control character, so neither a TAB nor a line feed.
pub fn plain_texts()
    ensures decimals { (n : ℕ) → n < 2 ^ 64 → IsTrue (is_plain (decimal n)) }
    ensures hexadecimals { (bytes : List ℕ) → IsTrue (are_bytes bytes)
        → IsTrue (is_plain (hex_text bytes)) }
    ensures keys { (k : Key) → IsTrue (is_key k) → IsTrue (is_plain (key_text k)) }
    ensures revisions { (r : RevId) → IsTrue (is_rev r) → IsTrue (is_plain (rev_text r)) }
    ensures channels { (l : List (List ℕ)) → IsTrue (is_channels l)
        → IsTrue (is_plain (channels_text l)) }
    ensures names { (l : List (List ℕ)) → IsTrue (is_names l) → IsTrue (is_plain (names_text l)) }
    ensures revision_lists { (l : List RevId) → IsTrue (is_revs l)
        → IsTrue (is_plain (revs_text l)) }
    ensures grants { (l : List Grant) → IsTrue (is_grants l) → IsTrue (is_plain (grants_text l)) }
    ensures role_grants { (l : List RoleGrant) → IsTrue (is_role_grants l)
        → IsTrue (is_plain (role_grants_text l)) }
    ensures lacks_controls { (c : ℕ) (text : List ℕ) → c < 32 → IsTrue (is_plain text)
        → IsTrue (lacks c text) }
{}
