//! The stamps of messages, by their classes and numbers.

ghost use Rattle.std.specs.Prelude.{◌≡◌, if◌then◌else◌, ℕ, Some, None, OnOk, OnErr};
ghost use Rattle.blip_mux.specs.declared.class.Class.{Class as AClass};
ghost use Rattle.blip_mux.specs.inner.Class.{stamp_at, is_same};

use crate::class::Class;
use std::alloc::{AllocError, Global};
use std::collections::BTreeMap;

/// The stamps of the requests and of the replies, by their numbers.
#[derive(Drop)]
pub(crate) struct Index {
    requests: BTreeMap<u64, u64>,
    replies: BTreeMap<u64, u64>,
}

impl Index {
    /// No messages. Allocates nothing.
    pub(crate) fn new(alloc: Global) -> Index
        ensures { (c : AClass) (n : ℕ) → stamp_at c n result.requests result.replies ≡ None }
    {
        Index {
            requests: BTreeMap::new(alloc),
            replies: BTreeMap::new(alloc),
        }
    }

    /// The stamp of a message.
    pub(crate) fn get(&self, class: Class, number: u64) -> Option<u64>
        ensures { result ≡ stamp_at class number self.now.requests self.now.replies }
    {
        match class {
            Class::Request => self.requests.get(&number).copied(),
            Class::Reply => self.replies.get(&number).copied(),
        }
    }

    /// Puts the stamp of a message, in the place of the one that it had. Allocates nothing where it had
    /// one.
    pub(crate) fn put(&mut self, class: Class, number: u64, stamp: u64) -> Result<(), AllocError>
        ensures ok { OnOk result ((c : AClass) (n : ℕ)
            → stamp_at c n self.new.requests self.new.replies
            ≡ (if is_same class number c n then Some stamp
            else stamp_at c n self.old.requests self.old.replies)) }
        ensures err { OnErr result ((c : AClass) (n : ℕ)
            → stamp_at c n self.new.requests self.new.replies
            ≡ stamp_at c n self.old.requests self.old.replies) }
        ensures absent { OnErr result
            (stamp_at class number self.old.requests self.old.replies ≡ None) }
    {
        let put = match class {
            Class::Request => self.requests.insert(number, stamp),
            Class::Reply => self.replies.insert(number, stamp),
        };
        match put {
            Ok(_) => Ok(()),
            Err(_) => Err(AllocError),
        }
    }

    /// Takes the stamp of a message away.
    pub(crate) fn remove(&mut self, class: Class, number: u64)
        ensures { (c : AClass) (n : ℕ) → stamp_at c n self.new.requests self.new.replies
            ≡ (if is_same class number c n then None
            else stamp_at c n self.old.requests self.old.replies) }
    {
        match class {
            Class::Request => self.requests.remove(&number),
            Class::Reply => self.replies.remove(&number),
        };
    }
}
