//! How one waits for a turn, and is woken.

use crate::gate::Gate;
use crate::kept::Kept;
use std::sync::Wait;
use std::sync::atomic::Ordering;
use std::thread;

/// After so many looks one sleeps.
const LOOKS: u32 = 100;

impl<B: Kept> Gate<B> {
    /// Lets another thread run, or after some looks sleeps while the turn of this ticket is served. It may return for no reason.
    pub(crate) fn wait<R: Wait>(&self, rt: &R, looks: &mut u32, served: u64) {
        if *looks < LOOKS {
            *looks += 1;
            thread::yield_now();
            return;
        }
        self.sleepers.fetch_add(1, Ordering::SeqCst);
        self.table.shared.park(rt, 2, (served % (1 << 32)) as u32);
        self.sleepers.fetch_sub(1, Ordering::SeqCst);
    }

    /// Wakes the one that sleeps, if one does. One that comes to sleep meanwhile finds that another ticket is served.
    pub(crate) fn wake(&self) {
        if self.sleepers.load(Ordering::SeqCst) > 0 {
            self.table.shared.wake_one(2);
        }
    }
}
