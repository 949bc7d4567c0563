//! Flags and counts that threads show one another, each under a lock.
//!
//! A thread that waits for a flag looks at it once a millisecond, up to a number of looks. So a test whose flag never
//! comes ends, and fails.

use std::rt::Clock;
use std::sync::{Mutex, Wait};
use std::thread;
use std::time::Duration;

/// How often a flag is looked at before it is given up, with a millisecond between two looks.
const TURNS: u32 = 10_000;

/// A flag that any thread may raise.
#[derive(Drop)]
pub struct Flag {
    raised: Mutex<bool>,
}

impl Flag {
    /// A flag that isn't raised.
    pub fn new() -> Flag {
        Flag {
            raised: Mutex::new(false),
        }
    }

    /// Raises the flag, and says whether it was raised before.
    pub fn raise<W: Wait>(&self, rt: &W) -> bool {
        let mut raised = self.raised.lock(rt);
        let before = *raised;
        *raised = true;
        before
    }

    /// Whether the flag is raised.
    pub fn is_raised<W: Wait>(&self, rt: &W) -> bool {
        *self.raised.lock(rt)
    }

    /// Waits for the flag, and says whether it came.
    pub fn comes<W: Wait + Clock>(&self, rt: &W) -> bool {
        self.comes_within(rt, TURNS)
    }

    /// Looks at the flag up to `looks` times, a millisecond apart, and says whether it came.
    pub fn comes_within<W: Wait + Clock>(&self, rt: &W, looks: u32) -> bool {
        for _ in 0..looks {
            if self.is_raised(rt) {
                return true;
            }
            let _ = thread::sleep(rt, Duration::from_millis(1));
        }
        false
    }
}

/// A count to which any thread may add.
#[derive(Drop)]
pub struct Count {
    counted: Mutex<u64>,
}

impl Count {
    /// A count of nothing.
    pub fn new() -> Count {
        Count {
            counted: Mutex::new(0),
        }
    }

    /// Counts one more, and says how many there were before.
    pub fn add_one<W: Wait>(&self, rt: &W) -> u64 {
        let mut counted = self.counted.lock(rt);
        let before = *counted;
        *counted = before.saturating_add(1);
        before
    }

    /// How many were counted.
    pub fn get<W: Wait>(&self, rt: &W) -> u64 {
        *self.counted.lock(rt)
    }
}
