//! How the threads of a sweep wake the one that watches.

use std::sync::Wait;
use std::sync::atomic::{AtomicU64, Ordering};

/// What each thread notifies when a job is done and when it ends. It says only that something has
/// happened: the board knows how many jobs are finished.
#[derive(Drop)]
pub(crate) struct DoneSignal {
    notifications: AtomicU64,
    ended: AtomicU64,
}

impl DoneSignal {
    /// A signal without a notification.
    pub(crate) fn new() -> DoneSignal {
        DoneSignal {
            notifications: AtomicU64::new(0),
            ended: AtomicU64::new(0),
        }
    }

    /// Counts a notification, and wakes whoever waits.
    pub(crate) fn notify(&self) {
        self.notifications.fetch_add(1, Ordering::SeqCst);
        self.notifications.wake_all();
    }

    /// Notifies that a thread has done all its jobs.
    pub(crate) fn notify_end(&self) {
        self.ended.fetch_add(1, Ordering::SeqCst);
        self.notify();
    }

    /// The number of notifications, and how many threads have ended.
    pub(crate) fn counts(&self) -> (u64, u64) {
        let notifications = self.notifications.load(Ordering::SeqCst);
        (notifications, self.ended.load(Ordering::SeqCst))
    }

    /// Waits until there are more notifications than this. It may return before that.
    pub(crate) fn wait<R: Wait>(&self, rt: &R, notifications: u64) {
        self.notifications
            .park(rt, (notifications & u64::from(u32::MAX)) as u32);
    }
}
