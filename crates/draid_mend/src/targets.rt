//! A column of a stripe lands on the targets of its slot.
ghost use Rattle.std.specs.Prelude.{◌≡◌, ◌+◌, ◌≤◌, ◌<◌, ℕ, List, Option, length, true, vec_capacity, vec_len};
ghost use Rattle.draid_rack.specs.Rack.{OnBothTold, Told};
ghost use Rattle.draid_shard.specs.Calls.{CountsFailed};
ghost use Rattle.draid_shard.specs.Rows.{FitsRows};
ghost use Rattle.draid_mend.specs.Targets.{AllAnswer, AreThere, FailsBelow, MendsBelow, failed_by, has_answered};

use crate::mending::{Mended, mend_column};
use draid_names::{ArmAt, At};
use draid_rack::Rack;
use draid_shard::ColumnRows;
use draid_slots::Slots;

/// Writes one sector of a column, made of these sources, to the targets of its slot that answer, and notes the leaves on
/// which calls failed. Only where each of these targets answers it says so.
pub(crate) fn mend_targets<R: Rack>(
    rack: &mut R,
    slots: &Slots,
    targets: &[ArmAt],
    rows: ColumnRows,
    column: &[u8],
    sources: &[At],
    failed: &mut Vec<u64>,
) -> bool
    requires fits { FitsRows (R.shape rack.old) slots.now rows }
    requires there { AreThere slots.now targets.now }
    requires one { rows.count ≡ 1 }
    requires long { length column.now ≡ rows.size }
    requires room { vec_len failed.old + length targets.now ≤ vec_capacity failed.old }
    ensures mends { OnBothTold (R.told rack.old) (R.told rack.new) (MendsBelow slots.now rows targets.now (length targets.now) column.now sources.now failed.new.items) }
    ensures fails { FailsBelow slots.now rows targets.now (length targets.now) failed.old.items failed.new.items }
    ensures counts { (first : Option ℕ → ℕ) → CountsFailed failed.old.items first (R.faults rack.old) → CountsFailed failed.new.items first (R.faults rack.new) }
    ensures shape { R.shape rack.new ≡ R.shape rack.old }
    ensures room { vec_capacity failed.new ≡ vec_capacity failed.old }
    ensures few { length failed.new.items ≤ length failed.old.items + length targets.now }
    ensures answered { result ≡ true → AllAnswer slots.now rows targets.now (length targets.now) }
{
    let mut answered = true;
    for i in 0..targets.len() {
        answered = mend_next(rack, slots, targets, i, rows, column, sources, failed) && answered;
    }
    answered
}

/// Writes it to the next one, if that is a target of its slot.
fn mend_next<R: Rack>(
    rack: &mut R,
    slots: &Slots,
    targets: &[ArmAt],
    i: usize,
    rows: ColumnRows,
    column: &[u8],
    sources: &[At],
    failed: &mut Vec<u64>,
) -> bool
    requires fits { FitsRows (R.shape rack.old) slots.now rows }
    requires there { AreThere slots.now targets.now }
    requires one { rows.count ≡ 1 }
    requires long { length column.now ≡ rows.size }
    requires less { i < length targets.now }
    requires room { vec_len failed.old < vec_capacity failed.old }
    ensures mends { (start : Option Told) → OnBothTold start (R.told rack.old) (MendsBelow slots.now rows targets.now i column.now sources.now failed.old.items)
        → OnBothTold start (R.told rack.new) (MendsBelow slots.now rows targets.now (i + 1) column.now sources.now failed.new.items) }
    ensures fails { (before : List ℕ) → FailsBelow slots.now rows targets.now i before failed.old.items → FailsBelow slots.now rows targets.now (i + 1) before failed.new.items }
    ensures counts { (first : Option ℕ → ℕ) → CountsFailed failed.old.items first (R.faults rack.old) → CountsFailed failed.new.items first (R.faults rack.new) }
    ensures shape { R.shape rack.new ≡ R.shape rack.old }
    ensures room { vec_capacity failed.new ≡ vec_capacity failed.old }
    ensures few { length failed.new.items ≤ length failed.old.items + 1 }
    ensures answered { result ≡ true → AllAnswer slots.now rows targets.now i → AllAnswer slots.now rows targets.now (i + 1) }
{
    let at = targets[i];
    if at.slot != rows.slot {
        return true;
    }
    let mended = mend_column(rack, slots, rows, at.arm, column, sources);
    note(failed, mended);
    has_answered(mended)
}

/// Whether the arm answered.
fn has_answered(mended: Mended) -> bool
    ensures { result ≡ has_answered mended }
{
    match mended {
        Mended::Silent => false,
        Mended::Failed { .. } | Mended::Done { .. } => true,
    }
}

/// Notes what became of a landing.
fn note(failed: &mut Vec<u64>, mended: Mended)
    requires { vec_len failed.old < vec_capacity failed.old }
    ensures failed { failed.new.items ≡ failed_by mended failed.old.items }
    ensures room { vec_capacity failed.new ≡ vec_capacity failed.old }
{
    if let Mended::Failed { leaf } = mended {
        failed.push_reserved(leaf);
    }
}
