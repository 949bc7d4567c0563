//! Inboxes.
//!
//! Held shadows are in a row for each home and one for red, free slots in front: what comes in order or backwards moves
//! no others, and what comes between moves the shorter side of its row. A row grows by doubling, and keeps its memory
//! when it empties: giving that back takes 5 % more time for 4 % of the peak. Held shadows are compared with the clock
//! itself, as a copy of the clock takes 10 instructions for each home.
ghost use Rattle.std.specs.Prelude.{◌≡◌, ◌≢◌, ◌⊎◌, ◌==◌, ℕ, ◌+◌, ◌<◌, ◌≤◌, [], ◌++◌, filter, length, replicate, IfErr};
ghost use Rattle.std.specs.Prelude.{IfNone, IfOk, IfSome, OnErr, OnOk, Some, None, Ok, Err};
ghost use Rattle.std.specs.Bool.{OnFalse, OnTrue};
ghost use Rattle.std.specs.Option.{option_copied};
ghost use Rattle.rb_shadow.specs.Operations.{Among, find_in, is_blue_of, is_red, row_of};
ghost use Rattle.rb_shadow.specs.declared.shadow.Shadow.{Shadow};
ghost use Rattle.rb_inbox.specs.Held.{HoldsReady, HoldsWaiting, IsFirstOf, IsFirstReady, IsInConflict, IsInOrder};
ghost use Rattle.rb_inbox.specs.Held.{IsNumbered, IsReady};
ghost use Rattle.rb_inbox.specs.Held.{IsTooMany, IsWelcome, held_before, index_in_row, with_held, without};
ghost use Rattle.rb_inbox.specs.Quiet.{IsCovered, IsQuiet};
ghost use Rattle.rb_inbox.specs.Rows.{IsFirstBlue, IsHeldRow, NoBlue, earlier_home};

use crate::PutAnswer;
use crate::held_row::HeldRow;
use crate::quiet::{Quiet, note_held, note_removed};
use rb_money::Refusal;
use rb_shadow::{OpName, Shadow};
use rb_vclock::Clock;
use std::alloc::{AllocError, Global};
use std::marker::Model;

/// The shadows that a site received and hasn't applied, at most one of each name.
#[derive(Drop)]
pub struct Inbox {
    limit: u32,
    alloc: Global,
    /// The red ones, and then the blue ones of each site, each row in rising order of number.
    rows: Vec<HeldRow>,
    count: usize,
    quiet: Option<Quiet>,
}

impl Model for Inbox {
    ghost use Rattle.rb_inbox.specs.Held.{Holding};
    ghost use Rattle.rb_inbox.specs.Rows.{AreCounted, held_of};

    ghost Value = { Holding };

    ghost view = { λ b. record { limit = b.limit; held = held_of b.rows.items } };

    ghost invariant = { λ b. AreCounted b.rows.items b.count b.quiet };
}

impl Inbox {
    /// An inbox that holds nothing. From `limit` shadows on it takes only those that are ready.
    pub fn open(alloc: Global, limit: u32) -> Inbox
        ensures { result ≡ record { limit = limit; held = [] } }
    {
        Inbox {
            limit,
            alloc,
            rows: Vec::new(alloc),
            count: 0,
            quiet: None,
        }
    }

    /// Holds a shadow. One that is ready at the clock is held however many are held.
    ///
    /// A sound shadow meets the condition.
    ///
    /// Errors: `Conflict` if another shadow is held under its name; `InboxFull` if the limit is
    /// reached and it isn't ready; `OutOfMemory`. Each leaves the inbox as it was.
    pub fn put(&mut self, shadow: Shadow, clock: &Clock) -> Result<PutAnswer, Refusal>
        requires { IsNumbered shadow }
        ensures held { result ≡ Ok PutAnswer.Held → self.new
            ≡ record self.old { held = with_held shadow self.old.held } }
        ensures welcome { result ≡ Ok PutAnswer.Held → IsWelcome self.old clock.now shadow }
        ensures already { result ≡ Ok PutAnswer.Already → find_in self.old.held shadow.name ≡ Some shadow }
        ensures unchanged { result ≡ Ok PutAnswer.Already → self.new ≡ self.old }

        ensures conflict { result ≡ Err Refusal.Conflict → IsInConflict self.old shadow }
        ensures full { result ≡ Err Refusal.InboxFull → IsTooMany self.old clock.now shadow }
        ensures memory { result ≡ Err Refusal.OutOfMemory → IsWelcome self.old clock.now shadow }
        ensures refusals { IfErr result (λ why. (why ≡ Refusal.Conflict) ⊎ (why ≡ Refusal.InboxFull)
            ⊎ (why ≡ Refusal.OutOfMemory)) }
        ensures err { OnErr result (self.new ≡ self.old) }
    {
        self.put_copy(&shadow, clock)
    }

    /// Holds a shadow as `put` does, but by a copy: the shadow stays with its caller.
    #[inline(always)]
    pub fn put_copy(&mut self, shadow: &Shadow, clock: &Clock) -> Result<PutAnswer, Refusal>
        requires { IsNumbered shadow.now }
        ensures held { result ≡ Ok PutAnswer.Held → self.new
            ≡ record self.old { held = with_held shadow.now self.old.held } }
        ensures welcome { result ≡ Ok PutAnswer.Held → IsWelcome self.old clock.now shadow.now }
        ensures already { result ≡ Ok PutAnswer.Already → find_in self.old.held shadow.now.name ≡ Some shadow.now }
        ensures unchanged { result ≡ Ok PutAnswer.Already → self.new ≡ self.old }

        ensures conflict { result ≡ Err Refusal.Conflict → IsInConflict self.old shadow.now }
        ensures full { result ≡ Err Refusal.InboxFull → IsTooMany self.old clock.now shadow.now }
        ensures memory { result ≡ Err Refusal.OutOfMemory → IsWelcome self.old clock.now shadow.now }
        ensures refusals { IfErr result (λ why. (why ≡ Refusal.Conflict) ⊎ (why ≡ Refusal.InboxFull)
            ⊎ (why ≡ Refusal.OutOfMemory)) }
        ensures err { OnErr result (self.new ≡ self.old) }
    {
        let (index, held) = self.find(&shadow.name);
        if let Some(held) = held {
            return answer_held(held, shadow);
        }
        if !self.may_hold(shadow, clock) {
            return Err(Refusal::InboxFull);
        }
        match self.hold(shadow, index, clock) {
            Ok(()) => Ok(PutAnswer::Held),
            Err(_) => Err(Refusal::OutOfMemory),
        }
    }

    /// The answer that `put` would give if there is memory. Nothing changes.
    ///
    /// Errors: `Conflict` and `InboxFull`, as `put` has them.
    pub fn check(&self, shadow: &Shadow, clock: &Clock) -> Result<PutAnswer, Refusal>
        ensures welcome { result ≡ Ok PutAnswer.Held → IsWelcome self.now clock.now shadow.now }
        ensures already { result ≡ Ok PutAnswer.Already → find_in self.now.held shadow.now.name ≡ Some shadow.now }

        ensures conflict { result ≡ Err Refusal.Conflict → IsInConflict self.now shadow.now }
        ensures full { result ≡ Err Refusal.InboxFull → IsTooMany self.now clock.now shadow.now }
        ensures refusals { IfErr result (λ why. (why ≡ Refusal.Conflict) ⊎ (why ≡ Refusal.InboxFull)) }
    {
        if let Some(held) = self.held(&shadow.name) {
            return answer_held(held, shadow);
        }
        if self.may_hold(shadow, clock) {
            Ok(PutAnswer::Held)
        } else {
            Err(Refusal::InboxFull)
        }
    }

    /// Holds a shadow whose name is held by no other, at the index in its row.
    #[inline(always)]
    fn hold(&mut self, shadow: &Shadow, index: usize, clock: &Clock) -> Result<(), AllocError>
        requires new { find_in self.old.held shadow.now.name ≡ None }
        requires index { index ≡ index_in_row self.old.held shadow.now.name }
        requires numbered { IsNumbered shadow.now }
        ensures ok { OnOk result (self.new ≡ record self.old { held = with_held shadow.now self.old.held }) }
        ensures err { OnErr result (self.new ≡ self.old) }
    {
        // There is no memory for more shadows than a `usize` counts.
        let count = self.count.checked_add(1).ok_or(AllocError)?;
        let row = shadow.name.row();
        add_rows(&mut self.rows, row, self.alloc)?;
        self.rows[row].insert(index, shadow)?;
        self.count = count;
        note_held(&mut self.quiet, shadow, clock);
        Ok(())
    }

    #[tactic(auto, unfolding(rb_shadow::specs::Operations::past))]
    fn may_hold(&self, shadow: &Shadow, clock: &Clock) -> bool
        ensures room { OnTrue result (self.now.limit ≤ length self.now.held → IsReady clock.now shadow.now) }
        ensures full { OnFalse result (self.now.limit ≤ length self.now.held) }
        ensures waits { OnFalse result (¬ IsReady clock.now shadow.now) }
    {
        self.len() < self.limit as usize || clock.at_least(&shadow.deps)
    }

    /// The name of the held shadow that is applied first of those that are ready at the clock, if there is one: they go
    /// by home, of one home the blue ones before the red ones, and of one colour by number.
    pub fn ready(&self, clock: &Clock) -> Option<OpName>
        ensures some { IfSome result (HoldsReady self.now clock.now) }
        ensures first { IfSome result (IsFirstReady self.now.held clock.now) }
        ensures none { IfNone result ((shadow : Shadow) → Among shadow self.now.held → ¬ IsReady clock.now shadow) }
    {
        if self.len() == 0 {
            return None;
        }
        match first_ready(self.row(0), clock) {
            None => self.first_blue(self.rows.len(), clock),
            Some(red) => match self.first_blue(row_after(red.home), clock) {
                None => Some(red.name),
                blue => blue,
            },
        }
    }

    /// The name that `ready` gives. The held shadows are looked at only if the clock reached what one of them waits
    /// for, or if two or more came that were ready; nothing that clients see changes.
    pub fn next_ready(&mut self, clock: &Clock) -> Option<OpName>
        ensures same { self.new ≡ self.old }
        ensures first { IfSome result (IsFirstReady self.old.held clock.now) }
        ensures none { IfNone result ((shadow : Shadow) → Among shadow self.old.held → ¬ IsReady clock.now shadow) }
    {
        if self.count == 0 {
            return None;
        }
        if let Some(known) = self.known_ready(clock) {
            return known;
        }
        let ready = self.ready(clock);
        if ready.is_none() {
            self.quiet = self.waiting(clock);
        }
        ready
    }

    /// The name that `ready` gives, if it is known without a look at each held shadow.
    fn known_ready(&self, clock: &Clock) -> Option<Option<OpName>>
        ensures first { IfSome result (λ o. IfSome o (IsFirstReady self.now.held clock.now)) }
        ensures none { IfSome result (λ o. IfNone o ((shadow : Shadow) → Among shadow self.now.held
            → ¬ IsReady clock.now shadow)) }
    {
        let Some(quiet) = &self.quiet else {
            return None;
        };
        if !quiet.reaches(clock) {
            return None;
        }
        let Some(name) = quiet.fresh else {
            return Some(None);
        };
        match self.held(&name) {
            Some(shadow) if clock.at_least(&shadow.deps) => Some(Some(name)),
            _ => Some(None),
        }
    }

    /// What is known of the held shadows after a look at each.
    fn waiting(&self, clock: &Clock) -> Option<Quiet>
        ensures { IsQuiet result self.now.held }
    {
        let mut quiet = Quiet::new();
        for index in 0..self.rows.len() {
            if !add_row(&mut quiet, self.row(index), clock) {
                return None;
            }
        }
        Some(quiet)
    }

    /// The name of the first ready one of the blue shadows whose rows are before the index, if there is one.
    fn first_blue(&self, end: usize, clock: &Clock) -> Option<OpName>
        ensures some { IfSome result (IsFirstBlue self.now.held clock.now end) }
        ensures none { IfNone result (NoBlue self.now.held clock.now end) }
    {
        for index in 1..end {
            if let Some(blue) = first_ready(self.row(index), clock) {
                return Some(blue.name);
            }
        }
        None
    }

    /// The shadow that is held under the name, or `None`.
    pub fn held(&self, name: &OpName) -> Option<&Shadow>
        ensures { option_copied result ≡ find_in self.now.held name.now }
    {
        self.find(name).1
    }

    /// The index of the name in its row, or the one at which it would be put, and the shadow that is held under it.
    #[inline(always)]
    pub fn find(&self, name: &OpName) -> (usize, Option<&Shadow>)
        ensures index { result.0 ≡ index_in_row self.now.held name.now }
        ensures held { option_copied result.1 ≡ find_in self.now.held name.now }
    {
        let row = self.row(name.row());
        let index = index_of(row, *name);
        match row.get(index) {
            None => (index, None),
            Some(shadow) => {
                if shadow.name == *name {
                    (index, Some(shadow))
                } else {
                    (index, None)
                }
            }
        }
    }

    /// Takes out the shadow that is held under the name and is ready at the clock.
    ///
    /// Errors: `NotHeld` if no shadow of the name is held; `NotReady` if one is, but it isn't ready.
    /// Each leaves the inbox as it was.
    #[tactic(auto, unfolding(rb_shadow::specs::Operations::past))]
    pub fn take(&mut self, name: OpName, clock: &Clock) -> Result<Shadow, Refusal>
        ensures found { IfOk result (λ shadow. find_in self.old.held name ≡ Some shadow) }
        ensures ready { IfOk result (IsReady clock.now) }
        ensures taken { IfOk result (λ _. self.new ≡ record self.old { held = without name self.old.held }) }

        ensures not_held { result ≡ Err Refusal.NotHeld → find_in self.old.held name ≡ None }
        ensures not_ready { result ≡ Err Refusal.NotReady → HoldsWaiting self.old clock.now name }
        ensures refusals { IfErr result (λ why. (why ≡ Refusal.NotHeld) ⊎ (why ≡ Refusal.NotReady)) }
        ensures err { OnErr result (self.new ≡ self.old) }
    {
        let (index, held) = self.find(&name);
        let Some(&shadow) = held else {
            return Err(Refusal::NotHeld);
        };
        if !clock.at_least(&shadow.deps) {
            return Err(Refusal::NotReady);
        }
        self.remove_at(&name, index);
        Ok(shadow)
    }

    /// Lets go the shadow that is held under the name, at its index in its row, as `find` gives it.
    pub fn remove_at(&mut self, name: &OpName, index: usize)
        requires held { (u : Shadow) × (find_in self.old.held name.now ≡ Some u) }
        requires index { index ≡ index_in_row self.old.held name.now }
        ensures { self.new ≡ record self.old { held = without name.now self.old.held } }
    {
        let row = name.row();
        self.rows[row].remove(index);
        self.count -= 1;
        note_removed(&mut self.quiet, name);
    }

    /// How many shadows are held.
    pub fn len(&self) -> usize
        ensures { result ≡ length self.now.held }
    {
        self.count
    }

    /// The held blue shadows of a site, in rising order of number: none if there is no such site.
    pub fn blue_row(&self, site: u8) -> &[Shadow]
        ensures held { result.now ≡ filter (λ u. is_blue_of u.name site) self.now.held }
        ensures in_order { IsInOrder result.now }
        ensures homes { (u : Shadow) → Among u result.now → u.home ≡ site }
    {
        self.row(usize::from(site) + 1)
    }

    /// The held red shadows, in rising order of number.
    pub fn red_row(&self) -> &[Shadow]
        ensures held { result.now ≡ filter (λ u. is_red u.name) self.now.held }
        ensures in_order { IsInOrder result.now }
    {
        self.row(0)
    }

    /// The row at an index: the red one at 0, and then the blue ones by site.
    fn row(&self, index: usize) -> &[Shadow]
        ensures held { result.now ≡ filter (λ u. row_of u.name == index) self.now.held }
        ensures row { IsHeldRow index result.now }
        ensures numbered { (u : Shadow) → Among u self.now.held → IsNumbered u }
    {
        match self.rows.get(index) {
            Some(row) => row.as_slice(),
            None => &[],
        }
    }
}

/// The answer to a shadow under whose name this one is held.
#[inline(always)]
fn answer_held(held: &Shadow, shadow: &Shadow) -> Result<PutAnswer, Refusal>
    ensures already { result ≡ Ok PutAnswer.Already → held.now ≡ shadow.now }
    ensures conflict { result ≡ Err Refusal.Conflict → held.now ≢ shadow.now }
    ensures cases { (result ≡ Ok PutAnswer.Already) ⊎ (result ≡ Err Refusal.Conflict) }
{
    if held.same(shadow) {
        Ok(PutAnswer::Already)
    } else {
        Err(Refusal::Conflict)
    }
}

/// Adds empty rows, until there is one at the index. `Err` means out of memory.
#[inline(always)]
fn add_rows(rows: &mut Vec<HeldRow>, index: usize, alloc: Global) -> Result<(), AllocError>
    ensures rows { (k : ℕ) × (rows.new.items ≡ rows.old.items ++ replicate k []) }
    ensures ok { OnOk result (index < length rows.new.items) }
{
    while rows.len() <= index {
        rows.push(HeldRow::open(alloc))?;
    }
    Ok(())
}

/// Takes the shadows of a row in. `false` if two are ready.
fn add_row(quiet: &mut Quiet, row: &[Shadow], clock: &Clock) -> bool
    ensures covers { OnTrue result ((u : Shadow) → Among u row.now → IsCovered quiet.new u) }
    ensures keeps { OnTrue result ((u : Shadow) → IsCovered quiet.old u → IsCovered quiet.new u) }
{
    for shadow in row {
        if !quiet.add(shadow, clock) {
            return false;
        }
    }
    true
}

/// The index after that of the row of a site's blue shadows.
fn row_after(site: u8) -> usize
    ensures { result ≡ site + 2 }
{
    usize::from(site) + 2
}

/// The shadow of the row that is applied first of those that are ready, if there is one. It is looked for up to the
/// number after the clock's entry: none after that is ready. In the red row a later one may be of an earlier home.
fn first_ready<'a>(row: &'a [Shadow], clock: &Clock) -> Option<&'a Shadow>
    requires { (r : ℕ) × IsHeldRow r row.now }
    ensures some { IfSome (option_copied result) (IsFirstOf row.now clock.now) }
    ensures none { IfNone (option_copied result) ((u : Shadow) → Among u row.now → ¬ IsReady clock.now u) }
{
    let entries = clock.entries();
    let mut first = None;
    for shadow in row {
        if shadow.name.number() > entries.entry(shadow.name).saturating_add(1) {
            return first;
        }
        if clock.at_least(&shadow.deps) {
            first = earlier_home(first, shadow);
        }
    }
    first
}

/// The one of two shadows that is of the lesser home; the first, if they are of one.
fn earlier_home<'a>(first: Option<&'a Shadow>, shadow: &'a Shadow) -> Option<&'a Shadow>
    ensures { option_copied result ≡ Some (earlier_home (option_copied first.entry) shadow.now) }
{
    match first {
        Some(found) if found.home <= shadow.home => first,
        _ => Some(shadow),
    }
}

/// The index, in its row, of the shadow of the name, or the one at which it would be put. Both ends are looked at
/// first, since it is mostly there.
fn index_of(shadows: &[Shadow], name: OpName) -> usize
    requires order { IsInOrder shadows.now }
    requires placed { (u : Shadow) → Among u shadows.now → row_of u.name ≡ row_of name }
    ensures index { result ≡ held_before shadows.now name }
    ensures bound { result ≤ length shadows.now }
{
    let Some(last) = shadows.last() else {
        return 0;
    };
    let number = name.number();
    if last.name.number() < number {
        return shadows.len();
    }
    if number <= shadows[0].name.number() {
        return 0;
    }
    shadows.partition_point(|held| held.name.number() < number)
}
