//! Why a site isn't opened, and why an entry isn't replayed.
ghost use Rattle.std.specs.Prelude.{◌≡◌};
ghost use Rattle.rb_node.specs.declared.fault.EntryFault.TheVariants.{OutOfMemory as NoMemoryForEntry};
ghost use Rattle.rb_node.specs.declared.fault.OpenFault.TheVariants.{OutOfMemory as NoMemoryToOpen};

use std::alloc::AllocError;

/// Why a site isn't opened.
#[derive(Clone, Copy, Debug, PartialEq, Eq)]
pub enum OpenFault {
    /// The line is no configuration.
    BadConfig,
    /// The configuration has no site of the number.
    NoSite,
    /// There was no memory to open it.
    OutOfMemory,
}

impl From<AllocError> for OpenFault {
    ghost from_gives = { λ _ why. why ≡ NoMemoryToOpen };

    fn from(_: AllocError) -> OpenFault {
        OpenFault::OutOfMemory
    }
}

/// Why an entry isn't replayed.
#[derive(Clone, Copy, Debug, PartialEq, Eq)]
pub enum EntryFault {
    /// The line is no entry of this site.
    BadLine,
    /// The site gives another reply than the entry has.
    WrongReply,
    /// There was no memory to go on. Nothing more may be asked of the site.
    OutOfMemory,
}

impl From<AllocError> for EntryFault {
    ghost from_gives = { λ _ why. why ≡ NoMemoryForEntry };

    fn from(_: AllocError) -> EntryFault {
        EntryFault::OutOfMemory
    }
}
