//! Answers of an inbox to a shadow.

/// The outcome of putting a shadow into an inbox.
#[derive(Clone, Copy, Debug, PartialEq, Eq)]
pub enum PutAnswer {
    /// It is held from now on.
    Held,
    /// It was held already, and nothing changed.
    Already,
}
