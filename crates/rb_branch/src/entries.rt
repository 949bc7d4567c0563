//! The ledger of a branch's entries.

use std::marker::Brand;
use std::sync::ledger::Ledger;

/// The ledger that counts the entries of a branch's histories. It names the branch's configuration,
/// which contracts alone read.
pub trait Entries: Ledger {
    ghost use Rattle.rb_money.specs.Settings.{Settings};

    ghost settings: { Settings };
}

// Each use of `Brand` names a configuration of its own in place of this one.
impl Entries for Brand {
    ghost use Rattle.std.specs.Prelude.{[]};
    ghost use Rattle.rb_money.specs.Settings.{Settings};

    ghost settings = { record {
      sites = 0;
      names = [];
      starts = [];
      limits = record { blue = 0; red = 0; inbox = 0; history = 0; epoch = 0 };
      version = 0;
    } };
}
