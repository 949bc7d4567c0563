//! A site's ledger with the record to undo each operation. Memory for the record is taken before the operation is
//! applied, so that each operation has its record, and out of memory leaves both lists as before.
ghost use Rattle.std.specs.Prelude.{◌≡◌, ◌++◌, ◌∷◌, ◌⊎◌, [], Some, None, IfOk, IfErr, OnOk, OnErr};
ghost use Rattle.rb_ledger.specs.Checks.{refusal_of};
ghost use Rattle.rb_ledger.specs.Records.{records_of};
ghost use Rattle.rb_ledger.specs.Valid.{IsValid};
ghost use Rattle.rb_shadow.specs.Operations.{clock_of};

use rb_ledger::{Ledger, OperationList};
use rb_money::{Config, Refusal};
use rb_shadow::Shadow;
use rb_undo::UndoLog;
use rb_vclock::Clock;
use std::alloc::{AllocError, Global};
use std::marker::Model;

/// A ledger that can undo all it applied: a log has the record of each operation. Clients see settings and operations.
pub struct RecordedLedger {
    pub(crate) ledger: Ledger,
    pub(crate) log: UndoLog,
}

impl Model for RecordedLedger {
    ghost use Rattle.std.specs.Prelude.{◌≡◌};
    ghost use Rattle.rb_ledger.specs.Records.{records_of};
    ghost use Rattle.rb_site.specs.States.{SeenLedger};

    ghost Value = { SeenLedger };

    ghost view = { λ r. record { settings = r.ledger.settings; ops = r.ledger.entries } };

    ghost invariant = { λ r. r.log.parts ≡ records_of r.ledger.settings r.ledger.entries };
}

impl RecordedLedger {
    /// A ledger of the configuration without operations, and without records. `Err` means out of memory.
    pub fn open(alloc: Global, config: &Config) -> Result<RecordedLedger, AllocError>
        ensures { IfOk result (λ recorded. recorded ≡ record { settings = config.now; ops = [] }) }
    {
        let ledger = Ledger::open(alloc, config)?;
        Ok(RecordedLedger {
            ledger,
            log: UndoLog::new(alloc),
        })
    }

    /// The ledger.
    pub fn ledger(&self) -> &Ledger
        ensures settings { result.now.settings ≡ self.now.settings }
        ensures entries { result.now.entries ≡ self.now.ops }
    {
        &self.ledger
    }

    /// The undo records: the k-th is that of the first k operations.
    pub fn log(&self) -> &UndoLog
        ensures { result.now.parts ≡ records_of self.now.settings self.now.ops }
    {
        &self.log
    }

    /// Applies a shadow, and keeps the record to undo that. After a refusal, which is that of `Ledger::check`, or else
    /// out of memory, all is as before.
    pub fn apply(&mut self, shadow: &Shadow) -> Result<(), Refusal>
        ensures applied { OnOk result (self.new ≡ record self.old { ops = self.old.ops ++ shadow.now ∷ [] }) }
        ensures taken { OnOk result (refusal_of self.old.settings self.old.ops shadow.now ≡ None) }
        ensures refused { IfErr result (λ why. (self.new ≡ self.old)
            × ((refusal_of self.old.settings self.old.ops shadow.now ≡ Some why)
            ⊎ ((why ≡ Refusal.OutOfMemory) × (refusal_of self.old.settings self.old.ops shadow.now ≡ None)))) }
    {
        if self.log.reserve(1).is_err() {
            // Out of memory is the refusal if nothing else refuses the shadow.
            self.ledger.check(shadow)?;
            return Err(Refusal::OutOfMemory);
        }
        let applied = self.ledger.apply(*shadow);
        match applied {
            Ok(undo) => {
                self.log.push_reserved(undo);
                Ok(())
            }
            Err((_, why)) => Err(why),
        }
    }

    /// Applies a shadow that may follow the operations, and keeps the record to undo that. An `Err` means out of
    /// memory, and all is as before.
    #[inline(always)]
    pub fn apply_made(&mut self, shadow: &Shadow) -> Result<(), AllocError>
        requires { IsValid self.old.settings (self.old.ops ++ shadow.now ∷ []) }
        ensures ok { OnOk result (self.new ≡ record self.old { ops = self.old.ops ++ shadow.now ∷ [] }) }
        ensures err { OnErr result (self.new ≡ self.old) }
    {
        self.log.reserve(1)?;
        let undo = self.ledger.apply_valid(shadow)?;
        self.log.push_reserved(undo);
        Ok(())
    }

    /// Gives up the undo of every operation, and gives the operations and their clock.
    pub fn close(self) -> (OperationList, Clock)
        ensures entries { result.0.items ≡ self.ops }
        ensures clock { result.1 ≡ clock_of self.ops }
    {
        let RecordedLedger { ledger, log } = self;
        log.close();
        ledger.close()
    }
}
