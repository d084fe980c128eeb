//! Sequences that were drawn.

ghost use Rattle.std.specs.Prelude.{◌≡◌};

/// A sequence that was drawn and is not in the history yet. It can't be let go: it ends where the entry of this sequence is
/// stored, or where the sequence is given up.
#[non_exhaustive]
pub struct Number {
    pub value: u64,
}

impl Number {
    /// A number of this value, for what hands out sequences: who else makes one has drawn nothing.
    pub fn new(value: u64) -> Number
        ensures { result.value ≡ value }
    {
        Number { value }
    }

    /// Ends the number, for what stores the entry of this sequence.
    pub fn spend(self) -> u64
        ensures { result ≡ self.value }
    {
        let Number { value } = self;
        value
    }
}
