//! What a gate keeps.

ghost use Rattle.std.specs.Prelude.{◌≡◌, length};
ghost use Rattle.sg_history.specs.Board.{BoardState};

/// A board behind a gate.
pub trait Kept: Send + Drop {
    ghost seen: { Self → BoardState };

    /// The length of the board's log.
    fn front(&self) -> u64
        ensures { result ≡ length (seen self.now).log };
}
