//! The handles that C keeps.
//!
//! An exported type has no type parameter, so a bank, a site and a site with its journal have a handle each, made of a
//! slot's pointer. C's types keep them apart.
ghost use Rattle.std.specs.Prelude.{◌≡◌, MatchOption};
ghost use Rattle.std.specs.declared.option.Option.{Option};
ghost use Rattle.std.specs.declared.option.Option.TheVariants.{None, Some};
ghost use Rattle.std.specs.Coded.{coded_option};
ghost use Rattle.rb_capi.specs.Banks.{SeenBank};
ghost use Rattle.rb_capi.specs.JournalSites.{SeenJournal};
ghost use Rattle.rb_capi.specs.Sites.{SeenKept};
ghost use Rattle.rb_capi.specs.Slots.{slot_owns};
ghost use Rattle.rb_capi.specs.contracts.bank.Bank.{the_row as bank_row};
ghost use Rattle.rb_capi.specs.contracts.kept_journal.KeptJournal.{the_row as journal_row};
ghost use Rattle.rb_capi.specs.contracts.kept_site.KeptSite.{the_row as site_row};

use crate::bank::Bank;
use crate::kept_journal::KeptJournal;
use crate::kept_site::KeptSite;
use crate::slot::Slot;
use std::alloc::Global;
use std::marker::Model;
use std::mem::replace;

/// A handle of what C keeps, or of nothing.
pub trait Handle: Drop {
    type Kept: Drop;

    /// What it is a handle of, if anything.
    ghost kept: { Self → Option Self.Kept };

    /// The handle of a slot.
    fn of_slot(slot: Slot<Self::Kept>) -> Self
        ensures { kept result ≡ slot.value };

    /// The slot of a handle.
    fn into_slot(self) -> Slot<Self::Kept>
        ensures { result.value ≡ kept self };

    /// Takes out what is kept, and leaves nothing.
    final fn take(&mut self, alloc: Global) -> Option<Box<Self::Kept>>
        ensures taken { MatchOption result (kept self.old ≡ None) (λ it. kept self.old ≡ Some it.value) }
        ensures left { kept self.new ≡ None }
    {
        replace(self, Self::of_slot(Slot::none(alloc)))
            .into_slot()
            .take()
    }

    /// Keeps this. What was kept before is ended.
    final fn put(&mut self, it: Box<Self::Kept>)
        ensures { kept self.new ≡ Some it.value }
    {
        drop(replace(self, Self::of_slot(Slot::of(it))));
    }

    /// Ends what is kept, if anything is.
    final fn clear(&mut self, alloc: Global)
        ensures { kept self.new ≡ None }
    {
        drop(replace(self, Self::of_slot(Slot::none(alloc))));
    }
}

/// The handle of a bank, C's `struct rbbank`: a pointer that C never follows, or null. All its bytes are zero to
/// begin with.
#[repr(C)]
pub struct BankHandle {
    at: *mut u8,
    alloc: Global,
    pub ghost value: { Option SeenBank } by { coded_option bank_row.coded },
}

impl Model for BankHandle {
    ghost also_owns = { λ h. slot_owns bank_row h.alloc h.at h.value };
}

impl Handle for BankHandle {
    type Kept = Bank;

    ghost kept = { λ h. h.value };

    fn of_slot(slot: Slot<Bank>) -> BankHandle
        ensures { result.value ≡ slot.value }
    {
        let Slot { at, alloc } = slot;
        BankHandle {
            at: at as *mut u8,
            alloc,
        }
    }

    fn into_slot(self) -> Slot<Bank>
        ensures { result.value ≡ self.value }
    {
        let BankHandle { at, alloc } = self;
        Slot {
            at: at as *mut Bank,
            alloc,
        }
    }
}

impl Drop for BankHandle {
    fn drop(self) {
        drop(self.into_slot().take());
    }
}

/// The handle of a site, C's `struct rbbank_site`, as `BankHandle` is that of a bank.
#[repr(C)]
pub struct SiteHandle {
    at: *mut u8,
    alloc: Global,
    pub ghost value: { Option SeenKept } by { coded_option site_row.coded },
}

impl Model for SiteHandle {
    ghost also_owns = { λ h. slot_owns site_row h.alloc h.at h.value };
}

impl Handle for SiteHandle {
    type Kept = KeptSite;

    ghost kept = { λ h. h.value };

    fn of_slot(slot: Slot<KeptSite>) -> SiteHandle
        ensures { result.value ≡ slot.value }
    {
        let Slot { at, alloc } = slot;
        SiteHandle {
            at: at as *mut u8,
            alloc,
        }
    }

    fn into_slot(self) -> Slot<KeptSite>
        ensures { result.value ≡ self.value }
    {
        let SiteHandle { at, alloc } = self;
        Slot {
            at: at as *mut KeptSite,
            alloc,
        }
    }
}

impl Drop for SiteHandle {
    fn drop(self) {
        drop(self.into_slot().take());
    }
}

/// The handle of a site with its journal, C's `struct rbbank_journal`, as `BankHandle` is that of a bank.
#[repr(C)]
pub struct JournalHandle {
    at: *mut u8,
    alloc: Global,
    pub ghost value: { Option SeenJournal } by { coded_option journal_row.coded },
}

impl Model for JournalHandle {
    ghost also_owns = { λ h. slot_owns journal_row h.alloc h.at h.value };
}

impl Handle for JournalHandle {
    type Kept = KeptJournal;

    ghost kept = { λ h. h.value };

    fn of_slot(slot: Slot<KeptJournal>) -> JournalHandle
        ensures { result.value ≡ slot.value }
    {
        let Slot { at, alloc } = slot;
        JournalHandle {
            at: at as *mut u8,
            alloc,
        }
    }

    fn into_slot(self) -> Slot<KeptJournal>
        ensures { result.value ≡ self.value }
    {
        let JournalHandle { at, alloc } = self;
        Slot {
            at: at as *mut KeptJournal,
            alloc,
        }
    }
}

impl Drop for JournalHandle {
    fn drop(self) {
        drop(self.into_slot().take());
    }
}
