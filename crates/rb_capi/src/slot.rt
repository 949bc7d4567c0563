//! A box that C may keep, or nothing.
//!
//! The pointer is null exactly if nothing is there, so a slot whose bytes are zero is an empty one.
ghost use Rattle.std.specs.Prelude.{◌≡◌};
ghost use Rattle.std.specs.declared.option.Option.{Option};
ghost use Rattle.std.specs.declared.option.Option.TheVariants.{None, Some};
ghost use Rattle.std.specs.Option.{MatchOption};
ghost use Rattle.std.specs.Coded.{coded_option};
ghost use Rattle.rb_capi.specs.Slots.{slot_owns};

use crate::raw_box::RawBox;
use std::alloc::Global;
use std::marker::Model;
use std::ptr::null_mut;

/// A box that C may keep, or nothing. All its bytes are zero if there is nothing.
#[repr(C)]
pub struct Slot<T> {
    pub at: *mut T,
    pub alloc: Global,
    pub ghost value: { Option T } by { coded_option T.code },
}

impl<T> Model for Slot<T> {
    ghost also_owns = { λ s. slot_owns T.row s.alloc s.at s.value };
}

impl<T> Slot<T> {
    /// Nothing.
    pub fn none(alloc: Global) -> Slot<T>
        ensures { result.value ≡ None }
    {
        Slot {
            at: null_mut(),
            alloc,
        }
    }

    /// The pointer of a box.
    fn of_raw_box(raw_box: RawBox<T, Global>) -> Slot<T>
        ensures { result.value ≡ Some raw_box.value }
    {
        let RawBox { at, alloc } = raw_box;
        Slot { at, alloc }
    }

    /// The pointer of the box, if there is one.
    fn into_raw_box(self) -> Option<RawBox<T, Global>>
        ensures { MatchOption result (self.value ≡ None) (λ l. self.value ≡ Some l.value) }
    {
        let Slot { at, alloc } = self;
        if at.is_null() {
            None
        } else {
            Some(RawBox { at, alloc })
        }
    }
}

impl<T: Drop> Slot<T> {
    /// This box.
    pub fn of(value: Box<T>) -> Slot<T>
        ensures { result.value ≡ Some value.value }
    {
        Slot::of_raw_box(RawBox::of(value))
    }

    /// The box, if there is one.
    pub fn take(self) -> Option<Box<T>>
        ensures { MatchOption result (self.value ≡ None) (λ b. self.value ≡ Some b.value) }
    {
        match self.into_raw_box() {
            Some(raw_box) => Some(raw_box.into_box()),
            None => None,
        }
    }
}
