//! A reader whose line stops a run.
ghost use Rattle.std.specs.Prelude.{◌≡◌};

/// The source that a run reads, and the reason of the line that stops the run, once one does, if memory suffices to say
/// it.
#[derive(Drop)]
pub struct Explained<S> {
    pub source: S,
    pub why: Option<String>,
}

impl<S> Explained<S> {
    /// No line was read yet.
    pub fn new(source: S) -> Explained<S>
        ensures { result.source ≡ source }
    {
        Explained { source, why: None }
    }
}
