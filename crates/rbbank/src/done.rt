//! What the program did.
use crate::closing::RanClosing;
use crate::files_task::RanOverFiles;
use crate::on_disk::RanOnDisk;
use rb_lines::ScriptFault;

/// What was done as the words ask for, and its outcome.
#[derive(Drop)]
pub enum Done {
    /// A task with the lines of the reader.
    Lines(Result<bool, ScriptFault>),
    /// A task with the lines of files.
    Files(RanOverFiles),
    /// Tellers ran.
    Threads(Result<(), ScriptFault>),
    /// A site ran, or its journal was sealed.
    Site(RanOnDisk),
    /// Nothing: the name of the site's bank isn't an id.
    BadBank,
    /// The books were closed, or not.
    Closed(RanClosing),
}
