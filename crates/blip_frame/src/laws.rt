//! Laws of checksums, varints, frames and payloads. Each function says one, and does nothing.

ghost use Rattle.std.specs.Prelude.{◌≡◌, ◌++◌, ◌<◌, ◌^◌, ◌≤◌, [], length, List, ℕ, Ok};
ghost use Rattle.blip_frame.specs.Checksum.{checksum, checksum_after};
ghost use Rattle.blip_frame.specs.Varint.{IsRead, IsShortest, number_at, varint};
ghost use Rattle.blip_frame.specs.Frame.{FrameParts, flags_of, largest_written, IsMarkedAsKind, IsFrame, IsFrameAfter, IsWritten, IsWrittenAfter, AreWrittenAfter, all_sent, payload_sent_after, value_after, frame_at, frames_at, with_front, spelling};
ghost use Rattle.blip_frame.specs.Props.{Pair};
ghost use Rattle.blip_frame.specs.Payload.{AreProps, IsPayload, block_of, payload_at, payload_text};

/// A checksum that runs on from a value is the checksum of all the bytes, given bit by bit.
pub fn running_checksum()
    ensures on { (value : ℕ) (xs ys : List ℕ)
        → checksum_after (checksum_after value xs) ys ≡ checksum_after value (xs ++ ys) }
    ensures whole { (xs ys : List ℕ) → checksum_after (checksum xs) ys ≡ checksum (xs ++ ys) }
    ensures start { checksum [] ≡ 0 }
    ensures nothing { (value : ℕ) → checksum_after value [] ≡ value }
    ensures fits { (xs : List ℕ) → checksum xs < 2 ^ 32 }
{}

/// A number has one shortest varint, which is read again whatever follows it, and no varint begins
/// another.
pub fn varints()
    ensures shortest { (n : ℕ) → n < 2 ^ 64 → IsShortest (varint n) n }
    ensures one { (bytes : List ℕ) (n : ℕ) → n < 2 ^ 64 → IsShortest bytes n → bytes ≡ varint n }
    ensures again { (n : ℕ) (rest : List ℕ) → n < 2 ^ 64
        → number_at (varint n ++ rest) ≡ Ok (n, rest) }
    ensures apart { (a b x y : List ℕ) (m n : ℕ) → IsRead a m → IsRead b n → a ++ x ≡ b ++ y
        → (m ≡ n) × (x ≡ y) }
{}

/// Each frame that may be written has one spelling. It is a frame, and is read again. Bytes are at
/// most one frame. Where one frame begins another, both have one number and the same flags; more is
/// not true, since only the end of its bytes ends a frame.
pub fn frames()
    ensures written { (kept : ℕ) (f : FrameParts) → f.number < 2 ^ 64
        → length f.payload ≤ largest_written → IsMarkedAsKind f
        → IsWritten kept (spelling kept f) f }
    ensures one_spelling { (kept : ℕ) (bytes : List ℕ) (f : FrameParts) → IsWritten kept bytes f
        → bytes ≡ spelling kept f }
    ensures part { (kept : ℕ) (bytes : List ℕ) (f : FrameParts) → IsWritten kept bytes f
        → IsFrame kept bytes f }
    ensures again { (sent bytes : List ℕ) (f : FrameParts) → IsWrittenAfter sent bytes f
        → frame_at (checksum sent) bytes ≡ Ok (f, checksum (payload_sent_after sent f)) }
    ensures value { (sent : List ℕ) (f : FrameParts)
        → value_after (checksum sent) f ≡ checksum (payload_sent_after sent f) }
    ensures one_frame { (sent bytes : List ℕ) (f g : FrameParts) → IsFrameAfter sent bytes f
        → IsFrameAfter sent bytes g → f ≡ g }
    ensures prefix { (j k : ℕ) (a b more : List ℕ) (f g : FrameParts) → IsFrame j a f
        → IsFrame k b g → a ++ more ≡ b
        → (f.number ≡ g.number) × (flags_of f ≡ flags_of g) }
{}

/// The frames that were written in a direction are read again one after another, whatever follows
/// them.
pub fn direction()
    ensures { (sent : List ℕ) (texts rest : List (List ℕ)) (frames : List FrameParts)
        → AreWrittenAfter sent texts frames
        → frames_at (checksum sent) (texts ++ rest)
        ≡ with_front frames (frames_at (checksum (all_sent sent frames)) rest) }
{}

/// What is written of properties with no key twice and no NUL in a key or a value is read again, and
/// bytes are at most one payload.
pub fn payloads()
    ensures again { (props : List Pair) (body : List ℕ) → length (block_of props) < 2 ^ 64
        → AreProps props
        → payload_at (payload_text props body) ≡ Ok (props, body) }
    ensures one { (bytes : List ℕ) (props others : List Pair) (body other : List ℕ)
        → IsPayload bytes props body → IsPayload bytes others other
        → (props ≡ others) × (body ≡ other) }
{}
