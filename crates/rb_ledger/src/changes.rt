//! Changes to a ledger.
//!
//! From 64 entries on the lists grow to 32,768 at once. The C library copies a list of 4 to 128 kilobytes as it grows,
//! and the heap keeps a hole; a larger one is a mapping of its own, of which only what is used takes memory. That is
//! 11 % of the peak of a mix of commands, and 40 % of that at sixteen sites.
ghost use Rattle.std.specs.Prelude.{◌≡◌, ◌≤◌, ◌<◌, ◌+◌, length, Some, None, List, [], ◌∷◌, ◌++◌, ◌⊎◌, OnOk, OnErr};
ghost use Rattle.std.specs.Prelude.{IfOk, IfErr};
ghost use Rattle.rb_money.specs.declared.limits.TheConstants.{MOST_OPERATIONS};
ghost use Rattle.rb_shadow.specs.declared.shadow.Shadow.{Shadow as TheShadow};
ghost use Rattle.rb_ledger.specs.Valid.{IsValid, parts_of};
ghost use Rattle.rb_ledger.specs.Checks.{refusal_of};

use crate::Ledger;
use rb_money::Refusal;
use rb_shadow::Shadow;
use rb_undo::Undo;
use std::alloc::AllocError;

/// From this number of entries on the lists grow to `MANY_ENTRIES` at once.
const FEW_ENTRIES: usize = 64;

/// For this number of entries even the list of the smallest items of each, positions of 4 bytes, takes 128 kilobytes.
const MANY_ENTRIES: usize = 32_768;

impl Ledger {
    /// Adds a shadow at the end, and gives the record to undo that. A shadow that is refused comes
    /// back, with the refusal of `check`, or else `OutOfMemory`.
    #[inline(always)]
    pub fn apply(&mut self, shadow: Shadow) -> Result<Undo, (Shadow, Refusal)>
        ensures applied { IfOk result (λ undo. (self.new.entries ≡ self.old.entries ++ shadow ∷ [])
            × (undo ≡ parts_of self.old.settings self.old.entries shadow)) }
        ensures taken { OnOk result (refusal_of self.old.settings self.old.entries shadow ≡ None) }
        ensures settings { self.new.settings ≡ self.old.settings }
        ensures room { OnOk result (0 < self.old.room → self.new.room + 1 ≡ self.old.room) }

        ensures refused { IfErr result (λ back. (self.new ≡ self.old) × (back.0 ≡ shadow)) }
        ensures reason { IfErr result (λ back. (refusal_of self.old.settings self.old.entries shadow ≡ Some back.1)
            ⊎ ((back.1 ≡ Refusal.OutOfMemory) × (refusal_of self.old.settings self.old.entries shadow ≡ None)
            × (self.old.room ≡ 0))) }
    {
        if let Err(refusal) = self.check(&shadow) {
            return Err((shadow, refusal));
        }
        match self.apply_valid(&shadow) {
            Ok(undo) => Ok(undo),
            Err(AllocError) => Err((shadow, Refusal::OutOfMemory)),
        }
    }

    /// Adds a shadow that keeps the list valid at the end, without checking that again, and gives the
    /// record to undo it. An error means out of memory.
    #[inline(always)]
    pub fn apply_valid(&mut self, shadow: &Shadow) -> Result<Undo, AllocError>
        requires { IsValid self.old.settings (self.old.entries ++ shadow.now ∷ []) }
        ensures applied { IfOk result (λ undo. (self.new.entries ≡ self.old.entries ++ shadow.now ∷ [])
            × (undo ≡ parts_of self.old.settings self.old.entries shadow.now)) }
        ensures settings { self.new.settings ≡ self.old.settings }
        ensures room { OnOk result (0 < self.old.room → self.new.room + 1 ≡ self.old.room) }
        ensures err { OnErr result ((self.new ≡ self.old) × (self.old.room ≡ 0)) }
    {
        self.make_room()?;
        let parts = self.index.parts(&self.entries.all(), shadow);
        let links = self.links_of(shadow, &parts);
        self.index.push(&self.entries.all(), shadow, &parts, &links);
        self.links.mark(parts.target, true);
        self.links.push(&links);
        self.entries.push(shadow);
        self.checkpoints.push(parts.position, &self.index.heads);
        Ok(Undo::new(parts))
    }

    /// Takes the last entry out again. The record is that of this entry.
    pub fn undo(&mut self, undo: Undo)
        requires { (front : List TheShadow) × (last : TheShadow) × (self.old.entries ≡ front ++ last ∷ [])
            × (undo ≡ parts_of self.old.settings front last) }
        ensures entries { (last : TheShadow) × (self.old.entries ≡ self.new.entries ++ last ∷ []) }
        ensures settings { self.new.settings ≡ self.old.settings }
        ensures room { self.new.room ≡ self.old.room + 1 }
    {
        let parts = undo.spend();
        let (position, target) = (parts.position, parts.target);
        let links = self.links.at(position as usize - 1);
        self.links.pop();
        self.entries.pop();
        self.index.pop(&self.entries.all(), parts, &links);
        self.links.mark(target, self.index.is_cancelled(target));
        self.checkpoints.pop(position);
    }

    /// Reserves capacity for `additional` more operations. It takes no memory if there is enough.
    /// `Err` means out of memory.
    pub fn reserve(&mut self, additional: usize) -> Result<(), AllocError>
        ensures settings { self.new.settings ≡ self.old.settings }
        ensures entries { self.new.entries ≡ self.old.entries }
        ensures ok { OnOk result (additional ≤ self.new.room) }
        ensures grows { self.old.room ≤ self.new.room }
        ensures short { OnErr result (self.old.room < additional) }
        ensures err { OnErr result (self.new ≡ self.old) }
    {
        let count = self.len() as usize;
        let limit = self.index.rows.limit();
        if additional <= limit - count {
            return Ok(());
        }
        match count.checked_add(additional) {
            Some(needed) => self.grow(needed.max(next_limit(count))),
            None => Err(AllocError),
        }
    }

    /// Takes memory for one more entry if there is no spare capacity. `Err` means out of memory.
    #[inline(always)]
    fn make_room(&mut self) -> Result<(), AllocError>
        ensures settings { self.new.settings ≡ self.old.settings }
        ensures entries { self.new.entries ≡ self.old.entries }
        ensures ok { OnOk result (0 < self.new.room) }
        ensures room { 0 < self.old.room → self.new ≡ self.old }
        ensures err { OnErr result ((self.new ≡ self.old) × (self.old.room ≡ 0)) }
    {
        let count = self.len() as usize;
        if count < self.index.rows.limit() {
            return Ok(());
        }
        self.grow(next_limit(count))
    }

    /// Takes memory for `limit` entries in all. `Err` means out of memory.
    #[cold]
    fn grow(&mut self, limit: usize) -> Result<(), AllocError>
        requires { length self.old.entries + self.old.room ≤ limit }
        ensures settings { self.new.settings ≡ self.old.settings }
        ensures entries { self.new.entries ≡ self.old.entries }
        ensures ok { OnOk result (length self.new.entries + self.new.room ≡ limit) }
        ensures err { OnErr result (self.new ≡ self.old) }
    {
        let additional = limit - self.entries.len();
        self.entries.reserve(limit)?;
        self.links.reserve(limit)?;
        self.index.cancels.reserve_exact(additional)?;
        self.checkpoints.reserve(limit)?;
        self.index.rows.reserve(limit)
    }
}

/// For how many entries in all memory is taken if that for `count` is used up. From a few on it is for as many as
/// make each list a mapping of its own at once, which grows without a copy and of which only what is used takes memory;
/// the checkpoints, a byte an entry, become one later.
fn next_limit(count: usize) -> usize
    requires { count ≤ MOST_OPERATIONS }
    ensures more { count < result }
{
    if count < FEW_ENTRIES {
        count * 2 + 8
    } else {
        MANY_ENTRIES.max(count * 2)
    }
}
