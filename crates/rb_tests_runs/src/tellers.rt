//! That two tellers of a run are under way at once. Runs of the program, with their audits, and writes of theirs that
//! fail are in tests/cases.py and threads.cases.
use crate::checks::{equal, holds};
use crate::flags::Flag;
use rb_branch::{Gate, NoGate};
use rb_lines::ToBytes;
use rb_run_threads::run_threads;
use std::rt::Clock;
use std::sync::Wait;
use std::test::Fail;

/// A gate whose first entry at each of two sites waits for the other's.
#[derive(Drop)]
struct Meet<'a, W> {
    rt: &'a W,
    zero: &'a Flag,
    one: &'a Flag,
    late: &'a Flag,
}

impl<W: Wait + Clock> Gate for Meet<'_, W> {
    fn enter(&self, site: u8) {
        let (mine, other) = if site == 0 {
            (self.zero, self.one)
        } else {
            (self.one, self.zero)
        };
        if mine.raise(self.rt) {
            return;
        }
        if !other.comes(self.rt) {
            self.late.raise(self.rt);
        }
    }

    fn leave(&self, _site: u8) {}
}

#[test]
fn gate_threads(rt: HostRuntime) -> Result<(), Fail> {
    let zero = Flag::new();
    let one = Flag::new();
    let late = Flag::new();
    let gate = Meet {
        rt: &rt,
        zero: &zero,
        one: &one,
        late: &late,
    };
    let mut writer = ToBytes::new(rt.alloc());
    let run = run_threads(&rt, rt.alloc(), 2, 2, 0, gate, &mut writer);
    equal(&rt, run, Ok(()));
    holds(
        &rt,
        "both entered",
        zero.is_raised(&rt) && one.is_raised(&rt),
    );
    holds(&rt, "not late", !late.is_raised(&rt));
    Ok(())
}
