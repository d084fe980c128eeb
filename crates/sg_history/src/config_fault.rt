//! Why a configuration is refused.

use std::marker::Model;

/// The way to a member of a configuration, as `/users/0/name`: the members' names and the places in lists, from 0, each after a
/// `/`. It is empty for the whole configuration.
#[derive(Debug, Drop)]
pub struct Path {
    text: String,
}

impl Model for Path {
    ghost use Rattle.std.specs.Prelude.{List, ℕ, string_bytes};

    ghost Value = { List ℕ };

    ghost view = { λ p. string_bytes p.text };
}

impl From<String> for Path {
    ghost use Rattle.std.specs.Prelude.{◌≡◌, string_bytes};

    ghost from_gives = { λ text made. made ≡ string_bytes text };

    fn from(text: String) -> Path {
        Path { text }
    }
}

impl Path {
    ghost use Rattle.std.specs.Prelude.{◌≡◌};

    pub fn as_str(&self) -> &str
        ensures { result.now ≡ self.now }
    {
        self.text.as_str()
    }
}

/// What is wrong with a member of a configuration.
#[derive(Clone, Copy, Debug, PartialEq, Eq)]
pub enum ConfigWhy {
    /// The whole is no JSON.
    NotJson,
    /// The whole is no object.
    NotObject,
    /// A needed member isn't there.
    Missing,
    /// No member has this name.
    Unknown,
    /// It is of another kind, or outside its grammar.
    Value,
    /// An earlier one has this role's name, this user's name or this session.
    Twice,
    /// The text of the sync function is refused.
    Sync,
}
