//! A buffer of bytes, which contracts see as their list.

ghost use Rattle.std.specs.Prelude.{◌≡◌, ◌++◌, ◌∷◌, [], ◌≤◌, length, take, drop, true, IsTrue, ◌↔◌, IfOk, OnOk, OnErr};
ghost use Rattle.std.specs.Str.{bytes_eq};
ghost use Rattle.sg_outside.specs.Bytes.{bytes_of, is_own};

use std::alloc::{AllocError, Global};
use std::marker::Model;
use std::mem;
use std::sync::Arc;

/// The fewest bytes that copies share.
const FEWEST_SHARED: usize = 1_024;

/// Bytes, in order. Contracts see the list of their values, each below 256.
#[derive(Drop)]
pub struct Bytes {
    held: Held,
}

impl Model for Bytes {
    ghost use Rattle.std.specs.Prelude.{List, ℕ};
    ghost use Rattle.sg_outside.specs.Bytes.{bytes_of};

    ghost Value = { List ℕ };

    ghost view = { λ b. bytes_of b.held };
}

#[derive(Drop)]
enum Held {
    /// A buffer of one's own.
    Own(Vec<u8>),
    /// A part of one that others hold too.
    Shared(Part),
}

/// A part of a buffer that others may hold too.
#[derive(Drop)]
struct Part {
    whole: Arc<Vec<u8>>,
    start: usize,
    end: usize,
}

impl Model for Part {
    ghost use Rattle.std.specs.Prelude.{List, ℕ, ◌≤◌, length, slice_range};
    ghost use Rattle.std.specs.Arc.{arc_value};

    ghost Value = { List ℕ };

    ghost view = { λ p. slice_range (arc_value p.whole).items p.start p.end };

    ghost invariant = { λ p. (p.start ≤ p.end) × (p.end ≤ length (arc_value p.whole).items) };
}

impl Part {
    fn as_slice(&self) -> &[u8]
        ensures { result.now ≡ self.now }
    {
        &self.whole.as_slice()[self.start..self.end]
    }

    fn truncate(&mut self, len: usize)
        ensures { self.new ≡ take len self.old }
    {
        if len < self.end - self.start {
            self.end = self.start + len;
        }
    }

    fn drop_front(&mut self, count: usize)
        requires { count ≤ length self.old }
        ensures { self.new ≡ drop count self.old }
    {
        self.start += count;
    }

    /// One count more, and no byte.
    fn copy(&self) -> Result<Part, AllocError>
        ensures { IfOk result (λ p. p ≡ self.now) }
    {
        Ok(Part {
            whole: Arc::try_clone(&self.whole)?,
            start: self.start,
            end: self.end,
        })
    }

    /// The bytes in a buffer of their own.
    fn to_vec(&self) -> Result<Vec<u8>, AllocError>
        ensures { IfOk result (λ v. v.items ≡ self.now) }
    {
        Vec::from_slice(*self.whole.allocator(), self.as_slice())
    }
}

impl Held {
    /// Makes shared bytes ones of their own.
    fn own(&mut self) -> Result<(), AllocError>
        ensures same { bytes_of self.new ≡ bytes_of self.old }
        ensures own { OnOk result (is_own self.new ≡ true) }
    {
        if let Held::Shared(part) = self {
            let items = part.to_vec()?;
            *self = Held::Own(items);
        }
        Ok(())
    }

    fn share(&mut self) -> Result<(), AllocError>
        ensures { bytes_of self.new ≡ bytes_of self.old }
    {
        let Held::Own(items) = self else {
            return Ok(());
        };
        if items.len() < FEWEST_SHARED {
            return Ok(());
        }
        let alloc = *items.allocator();
        let mut whole = mem::replace(items, Vec::new(alloc));
        whole.shrink_to_fit();
        let end = whole.len();
        match Arc::new(alloc, whole) {
            Ok(whole) => {
                *self = Held::Shared(Part {
                    whole,
                    start: 0,
                    end,
                });
                Ok(())
            }
            Err(refused) => {
                *self = Held::Own(refused.value);
                Err(AllocError)
            }
        }
    }
}

impl Bytes {
    /// No bytes. Allocates nothing.
    pub fn new(alloc: Global) -> Bytes
        ensures { result ≡ [] }
    {
        Bytes::from_vec(Vec::new(alloc))
    }

    /// A copy of a slice.
    pub fn from_slice(alloc: Global, bytes: &[u8]) -> Result<Bytes, AllocError>
        ensures { IfOk result (λ b. b ≡ bytes.now) }
    {
        Ok(Bytes::from_vec(Vec::from_slice(alloc, bytes)?))
    }

    /// The bytes of a vector. Allocates nothing.
    pub fn from_vec(items: Vec<u8>) -> Bytes
        ensures { result ≡ items.items }
    {
        Bytes {
            held: Held::Own(items),
        }
    }

    pub fn as_slice(&self) -> &[u8]
        ensures { result.now ≡ self.now }
    {
        match &self.held {
            Held::Own(items) => items.as_slice(),
            Held::Shared(part) => part.as_slice(),
        }
    }

    pub fn len(&self) -> usize
        ensures { result ≡ length self.now }
    {
        self.as_slice().len()
    }

    pub fn is_empty(&self) -> bool
        ensures { IsTrue result ↔ (self.now ≡ []) }
    {
        self.as_slice().is_empty()
    }

    /// Puts one byte at the end. It stands where it is called, since readers put byte after byte.
    #[inline(always)]
    pub fn push(&mut self, byte: u8) -> Result<(), AllocError>
        ensures ok { OnOk result (self.new ≡ self.old ++ byte ∷ []) }
        ensures err { OnErr result (self.new ≡ self.old) }
    {
        if let Held::Own(items) = &mut self.held {
            items.push(byte)?;
            return Ok(());
        }
        self.push_shared(byte)
    }

    /// Puts one byte at the end of shared ones.
    #[cold]
    #[inline(never)]
    fn push_shared(&mut self, byte: u8) -> Result<(), AllocError>
        ensures ok { OnOk result (self.new ≡ self.old ++ byte ∷ []) }
        ensures err { OnErr result (self.new ≡ self.old) }
    {
        self.held.own()?;
        match &mut self.held {
            Held::Own(items) => {
                items.push(byte)?;
                Ok(())
            }
            Held::Shared(_) => unreachable!(),
        }
    }

    /// Puts these bytes at the end: all of them, or at an error none.
    pub fn extend_from_slice(&mut self, bytes: &[u8]) -> Result<(), AllocError>
        ensures ok { OnOk result (self.new ≡ self.old ++ bytes.now) }
        ensures err { OnErr result (self.new ≡ self.old) }
    {
        self.held.own()?;
        match &mut self.held {
            Held::Own(items) => items.extend_from_slice(bytes),
            Held::Shared(_) => unreachable!(),
        }
    }

    /// Asks for room for `more` further bytes; the bytes stay as they are.
    pub fn reserve(&mut self, more: usize) -> Result<(), AllocError>
        ensures { self.new ≡ self.old }
    {
        self.held.own()?;
        match &mut self.held {
            Held::Own(items) => items.reserve(more),
            Held::Shared(_) => unreachable!(),
        }
    }

    /// Keeps the first `len` bytes.
    pub fn truncate(&mut self, len: usize)
        ensures { self.new ≡ take len self.old }
    {
        match &mut self.held {
            Held::Own(items) => items.truncate(len),
            Held::Shared(part) => part.truncate(len),
        }
    }

    /// Lets the first `count` bytes go.
    pub fn drop_front(&mut self, count: usize)
        requires { count ≤ length self.old }
        ensures { self.new ≡ drop count self.old }
    {
        match &mut self.held {
            Held::Own(items) => {
                items.copy_within(count.., 0);
                items.truncate(items.len() - count);
                items.shrink_to_fit();
            }
            Held::Shared(part) => part.drop_front(count),
        }
    }

    /// Whether both have the same bytes.
    pub fn equals(&self, other: &Bytes) -> bool
        ensures value { result ≡ bytes_eq self.now other.now }
        ensures same { IsTrue result ↔ (self.now ≡ other.now) }
    {
        self.as_slice() == other.as_slice()
    }

    /// Shared bytes are not copied, but held once more.
    pub fn copy(&self, alloc: Global) -> Result<Bytes, AllocError>
        ensures { IfOk result (λ b. b ≡ self.now) }
    {
        let held = match &self.held {
            Held::Own(items) => Held::Own(Vec::from_slice(alloc, items.as_slice())?),
            Held::Shared(part) => Held::Shared(part.copy()?),
        };
        Ok(Bytes { held })
    }

    /// Lets copies of these bytes share them: they are moved, spare room is let go, and their count
    /// is allocated. Fewer than 1,024 bytes stay as they are.
    pub fn share(&mut self) -> Result<(), AllocError>
        ensures { self.new ≡ self.old }
    {
        self.held.share()
    }
}

fn crosses_threads<T: Send + Sync>(_value: &T) {}

/// Bytes may be sent to another thread and read in several.
fn bytes_cross_threads(bytes: &Bytes) {
    crosses_threads(bytes);
}
