//! Why accounts can't be added.
ghost use Rattle.std.specs.Prelude.{◌≡◌, [], IfOk, get_or, map, string_bytes};
ghost use Rattle.rb_runs.specs.AddedAccounts.{added_message_of, added_status_of};

use std::alloc::{AllocError, Global};

/// Why accounts can't be added. The added ones are counted from 0.
#[derive(Clone, Copy, Debug, PartialEq, Eq)]
pub enum AddedFault {
    /// An account before this one has its name.
    There { index: u64 },
    /// The account has no proper name.
    NoName { index: u64 },
    /// There are more accounts than a bank may have.
    TooMany,
    /// There was no memory to find out.
    OutOfMemory,
}

/// The name of an added account, or none if there are fewer.
fn name_of<'a>(added: &[&'a str], index: u64) -> &'a str
    ensures { result.now ≡ get_or (map (λ name. name.now) added.now) index [] }
{
    match added.get(index as usize) {
        Some(name) => name,
        None => "",
    }
}

/// The text that a program writes on standard error, without the line feed. An `Err` means out of memory.
pub fn added_message(alloc: Global, added: &[&str], fault: AddedFault) -> Result<String, AllocError>
    ensures { IfOk result (λ text. string_bytes text ≡ added_message_of (map (λ name. name.now) added.now) fault) }
{
    match fault {
        AddedFault::There { index } => {
            let name = name_of(added, index);
            format!(in alloc; "rbbank: account {name}: there is one already")
        }
        AddedFault::NoName { index } => {
            let name = name_of(added, index);
            format!(in alloc; "rbbank: account {name}: no name")
        }
        AddedFault::TooMany => format!(in alloc; "rbbank: too many accounts"),
        AddedFault::OutOfMemory => format!(in alloc; "rbbank: out of memory"),
    }
}

/// A program's exit status: 2 if an account can't be added, 4 if memory ran out.
pub fn added_status(fault: AddedFault) -> u8
    ensures { result ≡ added_status_of fault }
{
    match fault {
        AddedFault::OutOfMemory => 4,
        _ => 2,
    }
}
