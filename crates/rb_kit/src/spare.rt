//! Spare capacity of lists.
ghost use Rattle.std.specs.Prelude.{◌≡◌, ◌+◌, ◌≤◌, IsOk, OnErr, OnOk, vec_capacity, vec_len};

use std::alloc::AllocError;

/// Takes memory for one element more if there is no spare capacity, by `Vec::reserve`, which is called only then.
/// `Err` means out of memory.
#[inline(always)]
pub fn reserve_one<T>(list: &mut Vec<T>) -> Result<(), AllocError>
    ensures items { list.new.items ≡ list.old.items }
    ensures len { vec_len list.new ≡ vec_len list.old }
    ensures ok { OnOk result (vec_len list.new + 1 ≤ vec_capacity list.new) }
    ensures capacity { vec_capacity list.old ≤ vec_capacity list.new }
    ensures succeeds { vec_len list.old + 1 ≤ vec_capacity list.old → IsOk result }
    ensures err { OnErr result (vec_capacity list.new ≡ vec_capacity list.old) }
{
    if list.len() < list.capacity() {
        return Ok(());
    }
    list.reserve(1)
}
