//! The index of a list of operations.
//!
//! Counts, links, running balances, the positions of names and the clock are kept beside the list of operations, so
//! that no call walks it.
ghost use Rattle.std.specs.Prelude.{◌≡◌, ◌≤◌, ◌<◌, ◌+◌, length, pos, [], ◌∷◌, ◌++◌, List, IfOk, ℕ, slice_index};
ghost use Rattle.std.specs.Prelude.{slice_index_or, vec_len, vec_capacity};
ghost use Rattle.rb_money.specs.declared.limits.TheConstants.{MOST_OPERATIONS};
ghost use Rattle.rb_shadow.specs.declared.shadow.Shadow.{Shadow as TheShadow};
ghost use Rattle.rb_shadow.specs.Operations.{target_of, is_on, other_of};
ghost use Rattle.rb_ledger.specs.Valid.{IsValid, find_position, parts_of, position_of};
ghost use Rattle.rb_ledger.specs.Index.{AreHeads, IsIndex, changed_at, one_more, one_less, no_cancels, IsLinked};
ghost use Rattle.rb_ledger.specs.Index.{heads_at, no_head, counted_at};

use crate::OperationRef;
use crate::marks::{Cancels, Head, Links};
use crate::prefix::Prefix;
use crate::rows::Rows;
use rb_money::{Config, Place};
use rb_shadow::{Kind, OpName, Shadow};
use rb_undo::UndoParts;
use rb_vclock::Clock;
use std::alloc::{AllocError, Global};

/// The index of a list of operations, by which no look-up, check, application or undo walks it. It changes in place
/// with each operation that comes to the end of the list or leaves it. The list itself is kept elsewhere.
#[derive(Drop)]
pub struct Index {
    /// The configuration, under which the list is valid.
    pub config: Config,
    /// How many blue operations of each site there are, and how many red ones of all.
    pub clock: Clock,
    /// For each operation, how often it is cancelled.
    pub cancels: Vec<Cancels>,
    /// For each account, its running balance and the last operation on it.
    pub heads: Vec<Head>,
    /// The position of each name.
    pub rows: Rows,
}

impl Index {
    /// The index of no operations, without memory for any.
    pub fn open(alloc: Global, config: &Config) -> Result<Index, AllocError>
        ensures index { IfOk result (λ index. IsIndex config.now [] index) }
        ensures limit { IfOk result (λ index. index.rows.limit ≡ 0) }
    {
        let config = config.try_copy()?;
        let heads = starting_heads(alloc, &config)?;
        let rows = Rows::new(alloc, usize::from(config.sites()) + 1)?;
        Ok(Index {
            config,
            clock: Clock::zero(),
            cancels: Vec::new(alloc),
            heads,
            rows,
        })
    }

    /// The position of the operation of the name, counted from 1, in each list that this is the index of, or
    /// `None`.
    pub fn find(&self, name: &OpName) -> Option<u32>
        ensures { (us : List TheShadow) → IsIndex self.now.config us self.now → result ≡ find_position us name.now }
    {
        let row = self.rows.row(name.row());
        let index = name.number().checked_sub(1)?;
        row.get(index as usize).copied()
    }

    /// The position of what an operation of the kind cancels, or 0.
    #[inline(always)]
    pub fn target(&self, kind: Kind) -> u32
        ensures { (us : List TheShadow) → IsIndex self.now.config us self.now →
            result ≡ position_of us (target_of kind) }
    {
        match kind.target() {
            Some(target) => self.find(&target).unwrap_or(0),
            None => 0,
        }
    }

    /// The second account of an operation of the kind after those before: that of a transfer, or of the
    /// transfer that it cancels.
    #[inline(always)]
    pub fn other(&self, before: &Prefix<'_>, kind: Kind) -> Option<Place>
        requires { IsIndex self.now.config before.now self.now }
        ensures { result ≡ other_of before.now kind }
    {
        other_at(before, kind, self.target(kind))
    }

    /// Whether an operation that follows those before is on an account, as its own or its second one.
    #[inline(always)]
    pub fn is_on(&self, before: &Prefix<'_>, entry: &OperationRef<'_>, place: Place) -> bool
        requires { IsIndex self.now.config before.now self.now }
        ensures { result ≡ is_on before.now entry.now place }
    {
        if entry.account() == place {
            return true;
        }
        match self.other(before, entry.kind()) {
            Some(other) => other == place,
            None => false,
        }
    }

    /// Whether an operation cancels the one at a position, counted from 1. `false` if there is no such position.
    pub fn is_cancelled(&self, position: u32) -> bool
        ensures { result ≡ counted_at position self.now.cancels.items }
    {
        let Some(index) = position.checked_sub(1) else {
            return false;
        };
        if index as usize >= self.cancels.len() {
            return false;
        }
        self.cancels[index as usize].count > 0
    }

    /// The running balance of an account, in cents, or 0 if there is no such account.
    fn balance(&self, place: Place) -> u64
        ensures { result ≡ (slice_index_or self.now.heads.items place.0 no_head).balance }
    {
        let index = usize::from(place.0);
        if index >= self.heads.len() {
            return 0;
        }
        self.heads[index].balance
    }

    /// The parts of the record that undoes a shadow, which may follow as the next operation after those before.
    #[inline(always)]
    pub fn parts(&self, before: &Prefix<'_>, shadow: &Shadow) -> UndoParts
        requires index { IsIndex self.now.config before.now self.now }
        requires longer { IsValid self.now.config (before.now ++ shadow.now ∷ []) }
        ensures { result ≡ parts_of self.now.config before.now shadow.now }
    {
        let target = self.target(shadow.kind);
        let second = other_at(before, shadow.kind, target);
        let other = second.unwrap_or(Place::NOWHERE);
        let balance = self.balance(shadow.account);
        let other_balance = self.balance(other);
        UndoParts {
            position: before.len() as u32 + 1,
            name: shadow.name,
            place: shadow.account,
            balance,
            target,
            other,
            other_balance,
        }
    }

    /// Takes in an operation after those before, in spare capacity. The parts are what is kept to undo it,
    /// the links its links.
    #[inline(always)]
    pub fn push(&mut self, before: &Prefix<'_>, shadow: &Shadow, parts: &UndoParts, links: &Links)
        requires index { IsIndex self.old.config before.now self.old }
        requires longer { IsValid self.old.config (before.now ++ shadow.now ∷ []) }
        requires parts { parts.now ≡ parts_of self.old.config before.now shadow.now }
        requires links { IsLinked self.old.config before.now shadow.now links.now }
        requires rows { length before.now < self.old.rows.limit }
        requires cancels { length before.now < vec_capacity self.old.cancels }
        ensures index { IsIndex self.old.config (before.now ++ shadow.now ∷ []) self.new }
        ensures limit { self.new.rows.limit ≡ self.old.rows.limit }
        ensures capacity { vec_capacity self.new.cancels ≡ vec_capacity self.old.cancels }
    {
        let position = parts.position;
        cancel_one_more(&mut self.cancels, parts.target, position);
        self.cancels.push_reserved(Cancels { count: 0, first: 0 });
        set_head(&mut self.heads, parts.place, position, links.own.balance);
        set_head(&mut self.heads, parts.other, position, links.other.balance);
        self.rows.push(shadow.name.row(), position);
        self.clock.advance(&shadow.name);
    }

    /// Lets the operation after those before out again: the last one, of which the parts were kept. The
    /// links are its links.
    pub fn pop(&mut self, before: &Prefix<'_>, parts: UndoParts, links: &Links)
        requires { (last : TheShadow) × IsIndex self.old.config (before.now ++ last ∷ []) self.old
            × (parts ≡ parts_of self.old.config before.now last) × IsLinked self.old.config before.now last links.now }
        ensures index { IsIndex self.old.config before.now self.new }
        ensures limit { self.new.rows.limit ≡ self.old.rows.limit }
        ensures capacity { vec_capacity self.new.cancels ≡ vec_capacity self.old.cancels }
    {
        self.clock.retreat(&parts.name);
        self.rows.pop(parts.name.row());
        self.cancels.truncate(before.len());
        cancel_one_less(&mut self.cancels, parts.target);
        let own = links.own.earlier;
        let other = links.other.earlier;
        set_head(&mut self.heads, parts.place, own, parts.balance);
        set_head(&mut self.heads, parts.other, other, parts.other_balance);
    }
}

/// The second account of an operation of the kind after those before: that of the one at the target, which it cancels,
/// or its own if the target is 0.
#[inline(always)]
pub fn other_at(before: &Prefix<'_>, kind: Kind, target: u32) -> Option<Place>
    requires { target ≡ position_of before.now (target_of kind) }
    ensures { result ≡ other_of before.now kind }
{
    match target.checked_sub(1) {
        Some(index) => before.receiver(index as usize),
        None => kind.receiver(),
    }
}

/// Gives an account another last entry: its position, or 0 for none, and the balance after it. Nothing changes if
/// there is no such account.
fn set_head(heads: &mut Vec<Head>, place: Place, last: u32, balance: u64)
    ensures { heads.new.items ≡ heads_at place.0 (record { last = last; balance = balance }) heads.old.items }
{
    let index = usize::from(place.0);
    if index >= heads.len() {
        return;
    }
    heads[index] = Head { last, balance };
}

/// The heads of accounts without operations.
fn starting_heads(alloc: Global, config: &Config) -> Result<Vec<Head>, AllocError>
    ensures { IfOk result (λ heads. AreHeads config.now [] heads.items) }
{
    let mut heads = Vec::new(alloc);
    for place in 0..config.accounts().len() {
        let balance = start(config, Place(place as u16));
        heads.push(Head { last: 0, balance })?;
    }
    Ok(heads)
}

/// The balance that an account starts with, in cents.
pub fn start(config: &Config, place: Place) -> u64
    requires { place.0 < length config.now.starts }
    ensures { result ≡ slice_index config.now.starts place.0 }
{
    match config.accounts().start(place) {
        Some(start) => start.0,
        None => unreachable!(),
    }
}

/// Counts a cancellation at a position, of the entry at the target. Nothing changes if the target is 0.
fn cancel_one_more(cancels: &mut Vec<Cancels>, target: u32, position: u32)
    requires within { target ≤ length cancels.old.items }
    requires fits { (i : ℕ) → (slice_index_or cancels.old.items i no_cancels).count ≤ MOST_OPERATIONS }
    ensures items { cancels.new.items ≡ changed_at target (one_more position) cancels.old.items }
    ensures len { vec_len cancels.new ≡ vec_len cancels.old }
    ensures capacity { vec_capacity cancels.new ≡ vec_capacity cancels.old }
{
    if target == 0 {
        return;
    }
    let old = cancels[target as usize - 1];
    cancels[target as usize - 1] = Cancels {
        count: old.count + 1,
        first: if old.count == 0 { position } else { old.first },
    };
}

/// Leaves the last cancellation of the entry at the target out again. Nothing changes if the target is 0.
fn cancel_one_less(cancels: &mut Vec<Cancels>, target: u32)
    requires within { target ≤ length cancels.old.items }
    requires some { (i : ℕ) → target ≡ i + 1 → 0 < (slice_index_or cancels.old.items i no_cancels).count }
    ensures items { cancels.new.items ≡ changed_at target one_less cancels.old.items }
    ensures len { vec_len cancels.new ≡ vec_len cancels.old }
    ensures capacity { vec_capacity cancels.new ≡ vec_capacity cancels.old }
{
    if target == 0 {
        return;
    }
    let old = cancels[target as usize - 1];
    cancels[target as usize - 1] = Cancels {
        count: old.count - 1,
        first: if old.count == 1 { 0 } else { old.first },
    };
}
