//! Limits of revisions.

ghost use Rattle.std.specs.Prelude.{◌≡◌, [], true, false};
ghost use Rattle.rev_tree.specs.Rising.{is_within};

use sg_names::RevId;
use std::cmp::Ordering;
use std::marker::Model;

/// The revisions that are less than a generation and a digest, and that one where it is allowed.
#[derive(Drop)]
pub struct Bound<'a> {
    generation: u32,
    digest: &'a [u8],
    or_equal: bool,
}

impl<'a> Model for Bound<'a> {
    ghost use Rattle.rev_tree.specs.Rising.{Limit};

    ghost Value = { Limit };

    ghost view = { λ b. record {
      rev = record { generation = b.generation; digest = b.digest.now };
      or_equal = b.or_equal;
    } };
}

impl<'a> Bound<'a> {
    /// The revisions that are less than one.
    pub fn below(rev: &'a RevId) -> Bound<'a>
        ensures { result ≡ record { rev = rev.now; or_equal = false } }
    {
        Bound {
            generation: rev.generation,
            digest: rev.digest.as_bytes(),
            or_equal: false,
        }
    }

    /// A revision and those that are less.
    pub fn up_to(rev: &'a RevId) -> Bound<'a>
        ensures { result ≡ record { rev = rev.now; or_equal = true } }
    {
        Bound {
            generation: rev.generation,
            digest: rev.digest.as_bytes(),
            or_equal: true,
        }
    }

    /// The revisions of lesser generations.
    pub fn below_generation(generation: u32) -> Bound<'a>
        ensures { result ≡ record {
          rev = record { generation = generation; digest = [] };
          or_equal = false;
        } }
    {
        Bound {
            generation,
            digest: &[],
            or_equal: false,
        }
    }

    /// Whether a revision is within the limit.
    pub fn admits(&self, rev: &RevId) -> bool
        ensures { result ≡ is_within self.now rev.now }
    {
        let generations = rev.generation.cmp(&self.generation);
        match generations.then(rev.digest.as_bytes().cmp(self.digest)) {
            Ordering::Less => true,
            Ordering::Equal => self.or_equal,
            Ordering::Greater => false,
        }
    }
}
