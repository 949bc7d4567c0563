//! The place at which a run stopped, out of memory.

/// Out of memory: the world is as after the first `answered` of the run's events.
#[derive(Clone, Copy, Debug, PartialEq, Eq)]
pub struct Stopped {
    pub answered: usize,
}
