//! Rows of shadows.
//!
//! A row has free slots before it. Where a shadow is put in or taken out, those on its shorter side are moved: none at
//! either end. The slots that are made or given up at a time grow with the row, so that few calls have to.
ghost use Rattle.std.specs.Prelude.{◌≡◌, ◌<◌, ◌≤◌, [], length, insert, remove, OnErr, OnOk};

use rb_shadow::Shadow;
use std::alloc::{AllocError, Global};
use std::marker::Model;

/// A row of held shadows after free slots, so that those before a place can be moved as well as those after it.
#[derive(Drop)]
pub struct HeldRow {
    slots: Vec<Shadow>,
    free: usize,
}

impl Model for HeldRow {
    ghost use Rattle.std.specs.Prelude.{List, ◌≤◌, drop, length};
    ghost use Rattle.rb_shadow.specs.declared.shadow.Shadow.{Shadow};

    ghost Value = { List Shadow };

    ghost view = { λ r. drop r.free r.slots.items };

    ghost invariant = { λ r. r.free ≤ length r.slots.items };
}

impl HeldRow {
    /// A row without shadows.
    pub fn open(alloc: Global) -> HeldRow
        ensures { result ≡ [] }
    {
        HeldRow {
            slots: Vec::new(alloc),
            free: 0,
        }
    }

    /// The shadows, from the first on.
    pub fn as_slice(&self) -> &[Shadow]
        ensures { result.now ≡ self.now }
    {
        &self.slots[self.free..]
    }

    /// Puts a shadow in before the one at the index, or at the end. `Err` means out of memory.
    #[inline(always)]
    pub fn insert(&mut self, index: usize, shadow: &Shadow) -> Result<(), AllocError>
        requires { index ≤ length self.old }
        ensures ok { OnOk result (self.new ≡ insert self.old index shadow.now) }
        ensures err { OnErr result (self.new ≡ self.old) }
    {
        self.make_room(index)?;
        let place = self.free + index;
        if self.free > 0 && index <= self.slots.len() - place {
            self.slots.copy_within(self.free..place, self.free - 1);
            self.slots[place - 1] = *shadow;
            self.free -= 1;
            return Ok(());
        }
        if place == self.slots.len() {
            self.slots.reserve(1)?;
            self.slots.push_reserved(*shadow);
            return Ok(());
        }
        self.slots.insert(place, *shadow)?;
        Ok(())
    }

    /// Takes out the shadow at the index.
    #[inline(always)]
    pub fn remove(&mut self, index: usize)
        requires { index < length self.old }
        ensures { self.new ≡ remove self.old index }
    {
        let place = self.free + index;
        if index < self.slots.len() - place {
            self.slots.copy_within(self.free..place, self.free + 1);
            self.free += 1;
        } else {
            self.slots.remove(place);
        }
    }

    /// Makes room for a shadow at the index. In the first half it takes a free slot: if there is none, the shadows are
    /// copied to slots at the end, and the old ones are free then. In the second half it takes a slot at the end: if
    /// there is no memory for one, and as many are free as not, the free ones are given up.
    #[inline(always)]
    fn make_room(&mut self, index: usize) -> Result<(), AllocError>
        ensures { self.new ≡ self.old }
    {
        let count = self.slots.len() - self.free;
        if index <= count / 2 {
            if self.free == 0 {
                self.slots.extend_from_within(..)?;
                self.free = count;
            }
        } else if self.slots.len() == self.slots.capacity() && count <= self.free {
            self.slots.rotate_left(self.free);
            self.slots.truncate(count);
            self.free = 0;
        }
        Ok(())
    }
}
