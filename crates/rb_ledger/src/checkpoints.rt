//! The last operations on the accounts, at regular points of the list.
//!
//! A balance as of a position begins at the next checkpoint, which has the last operation on each account, and follows
//! each operation's link to the one before. In a simulation of 500,000 operations on ten accounts that took 70 to 120
//! ns, 26 skew-binary jumps (Myers, 1983) took 640, and a search by halves in a list for each account 124. Such lists
//! would also need spare capacity for all operations that may come.
//!
//! The number of steps isn't proved: at most four for each account of the bank, and two on average. By turns with the
//! links the search walks back from the position, so it ends at once on an account that most operations are on.
ghost use Rattle.std.specs.Prelude.{◌≡◌, ◌≤◌, ◌<◌, ◌+◌, ◌*◌, length, map, [], ◌∷◌, ◌++◌, List, Some, IfSome};
ghost use Rattle.std.specs.Prelude.{IsNone, OnOk, ℕ};
ghost use Rattle.std.specs.Prelude.{slice_get, vec_capacity};
ghost use Rattle.rb_money.specs.Settings.{Settings, IsConfigured};
ghost use Rattle.rb_money.specs.declared.limits.TheConstants.{MOST_ACCOUNTS, MOST_OPERATIONS};
ghost use Rattle.rb_shadow.specs.declared.shadow.Shadow.{Shadow as TheShadow};
ghost use Rattle.rb_ledger.specs.declared.marks.Head.{Head as TheHead};
ghost use Rattle.rb_ledger.specs.Index.{AreHeads};
ghost use Rattle.rb_ledger.specs.Checkpoints.{AreCheckpoints};

use crate::marks::Head;
use rb_money::Place;
use std::alloc::{AllocError, Global};

/// For this number of operations there is one entry, of 4 bytes. So checkpoints take a byte an operation, however many
/// accounts there are, and an account has on average this number of operations from one checkpoint to the next.
pub const OPERATIONS_PER_ENTRY: u32 = 4;

/// Checkpoints, at which a search back along an account begins: a row after each stride of a list of operations, which
/// is `OPERATIONS_PER_ENTRY` operations for each account. A search begins at the next one. They belong to the whole
/// list, even if the index is as of a position before its end.
#[derive(Drop)]
pub struct Checkpoints {
    /// The rows, one after another: for each account the position of the last operation on it, or 0.
    pub lasts: Vec<u32>,
    /// How many accounts there are.
    pub accounts: u32,
    /// How many operations there are when the next row is due.
    pub due: u32,
}

impl Checkpoints {
    /// The checkpoints of no operations on this number of accounts, without memory for any.
    pub fn new(alloc: Global, accounts: u32) -> Checkpoints
        requires { accounts ≤ MOST_ACCOUNTS }
        ensures lasts { result.lasts.items ≡ [] }
        ensures accounts { result.accounts ≡ accounts }
        ensures due { result.due ≡ OPERATIONS_PER_ENTRY * accounts }
    {
        Checkpoints {
            lasts: Vec::new(alloc),
            accounts,
            due: OPERATIONS_PER_ENTRY * accounts,
        }
    }

    /// The position of the last operation on an account as of the first checkpoint that is as of `limit` operations or
    /// more. `None` if there is no such checkpoint yet.
    pub fn last_from(&self, limit: u32, place: Place) -> Option<u32>
        requires account { place.0 < self.now.accounts }
        requires rows { (n : ℕ) × (length self.now.lasts.items ≡ n * self.now.accounts) }
        ensures first { IfSome result (λ p. (k : ℕ)
            × (limit ≤ OPERATIONS_PER_ENTRY * (k * self.now.accounts + self.now.accounts))
            × (OPERATIONS_PER_ENTRY * (k * self.now.accounts) ≤ limit)
            × (slice_get self.now.lasts.items (k * self.now.accounts + place.0) ≡ Some p)) }
        ensures none { IsNone result → OPERATIONS_PER_ENTRY * length self.now.lasts.items ≤ limit }
    {
        let entry = limit.saturating_sub(1) / OPERATIONS_PER_ENTRY;
        let row = entry / self.accounts * self.accounts;
        let index = row as usize + usize::from(place.0);
        self.lasts.get(index).copied()
    }

    /// Adds the row that is due, if one is due at `count` operations, by the heads of the accounts. There is spare
    /// capacity for it.
    #[inline(always)]
    pub fn push(&mut self, count: u32, heads: &[Head])
        requires there { (s : Settings) × (us : List TheShadow) × AreCheckpoints s us self.old }
        requires accounts { length heads.now ≡ self.old.accounts }
        requires few { self.old.accounts ≤ MOST_ACCOUNTS }
        requires count { count ≤ MOST_OPERATIONS }
        requires room { count ≤ OPERATIONS_PER_ENTRY * vec_capacity self.old.lasts }
        ensures checkpoints { (s : Settings) (us : List TheShadow) (h : TheShadow) → IsConfigured s →
            AreCheckpoints s us self.old → AreHeads s (us ++ h ∷ []) heads.now → count ≡ length us + 1 →
            AreCheckpoints s (us ++ h ∷ []) self.new }
        ensures capacity { vec_capacity self.new.lasts ≡ vec_capacity self.old.lasts }
    {
        if count == self.due {
            self.push_row(heads);
        }
    }

    /// Adds a row, by the heads of the accounts, in spare capacity.
    #[inline(never)]
    fn push_row(&mut self, heads: &[Head])
        requires due { self.old.due ≤ MOST_OPERATIONS }
        requires few { self.old.accounts ≤ MOST_ACCOUNTS }
        requires room { length self.old.lasts.items + length heads.now ≤ vec_capacity self.old.lasts }
        ensures lasts { self.new.lasts.items ≡ self.old.lasts.items ++ map (λ (h : TheHead). h.last) heads.now }
        ensures accounts { self.new.accounts ≡ self.old.accounts }
        ensures due { self.new.due ≡ self.old.due + OPERATIONS_PER_ENTRY * self.old.accounts }
        ensures capacity { vec_capacity self.new.lasts ≡ vec_capacity self.old.lasts }
    {
        for head in heads {
            self.lasts.push_reserved(head.last);
        }
        self.due += OPERATIONS_PER_ENTRY * self.accounts;
    }

    /// Takes the last row out again if the last of `count` operations, which is taken out, completed it.
    pub fn pop(&mut self, count: u32)
        requires { (s : Settings) × (us : List TheShadow) × AreCheckpoints s us self.old }
        ensures checkpoints { (s : Settings) (us : List TheShadow) (h : TheShadow) → IsConfigured s →
            AreCheckpoints s (us ++ h ∷ []) self.old → count ≡ length us + 1 → AreCheckpoints s us self.new }
        ensures capacity { vec_capacity self.new.lasts ≡ vec_capacity self.old.lasts }
    {
        let before = self.due - OPERATIONS_PER_ENTRY * self.accounts;
        if count == before {
            let rest = self.lasts.len().saturating_sub(self.accounts as usize);
            self.lasts.truncate(rest);
            self.due = before;
        }
    }

    /// Takes memory for the rows of at least `limit` operations in all. `Err` means out of memory.
    pub fn reserve(&mut self, limit: usize) -> Result<(), AllocError>
        ensures lasts { self.new.lasts.items ≡ self.old.lasts.items }
        ensures accounts { self.new.accounts ≡ self.old.accounts }
        ensures due { self.new.due ≡ self.old.due }
        ensures ok { OnOk result (limit ≤ OPERATIONS_PER_ENTRY * vec_capacity self.new.lasts) }
        ensures grows { vec_capacity self.old.lasts ≤ vec_capacity self.new.lasts }
    {
        let entries = limit / OPERATIONS_PER_ENTRY as usize + 1;
        self.lasts
            .reserve_exact(entries.saturating_sub(self.lasts.len()))
    }
}
