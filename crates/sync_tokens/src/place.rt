ghost use Rattle.std.specs.Prelude.{◌≡◌};
ghost use Rattle.sync_tokens.specs.Places as spec;

/// A place in a text: its line and, counted in characters, its column, both from 1.
#[derive(Clone, Copy, Debug, PartialEq, Eq)]
pub struct Place {
    pub line: u32,
    pub column: u32,
}

/// Why a text is no program of the sync language.
#[derive(Clone, Copy, Debug, PartialEq, Eq)]
pub enum SyntaxWhy {
    /// The text has more than 65,536 bytes.
    TooLong,
    /// Digits that are no integer between 0 and 9007199254740991 written without leading zeros.
    Range,
    /// A text or a comment that is not closed, a bad escape, or a character of no token.
    BadText,
    /// More than 100 statements, expressions and prefix operators are open at once.
    TooDeep,
    /// A token that fits no rule.
    Unexpected,
}

impl Place {
    /// The place of a text's first character.
    pub const START: Place = Place { line: 1, column: 1 };

    /// The place after one character.
    pub(crate) fn step(self, c: char) -> Place
        ensures { result ≡ spec.step self c }
    {
        if c == '\n' {
            Place {
                line: self.line.saturating_add(1),
                column: 1,
            }
        } else {
            Place {
                line: self.line,
                column: self.column.saturating_add(1),
            }
        }
    }
}
