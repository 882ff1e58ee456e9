//! The columns of a stripe land on the pass's targets.
ghost use Rattle.std.specs.Prelude.{◌≡◌, ◌==◌, ◌+◌, ◌*◌, ◌≤◌, ◌<◌, ℕ, List, Option, length, take, true, vec_capacity, vec_len};
ghost use Rattle.draid_rack.specs.Rack.{OnBothTold, Told};
ghost use Rattle.draid_shard.specs.Calls.{CountsFailed};
ghost use Rattle.draid_shard.specs.Part.{IsPart, IsRun};
ghost use Rattle.draid_shard.specs.Rows.{FitsRows, IsStripePlace};
ghost use Rattle.draid_shard.specs.States.{part_of};
ghost use Rattle.draid_mend.specs.Aiming.{AreAimed};
ghost use Rattle.draid_mend.specs.Lands.{IsLaid};
ghost use Rattle.draid_mend.specs.Solving.{IsOneSector};
ghost use Rattle.draid_mend.specs.Stripes.{AnswerBelow, FailsColumns, LandsBelow, sources_below};
ghost use Rattle.draid_mend.specs.Targets.{AllAnswer, AreThere, FailsBelow, MendsBelow};

use crate::aiming::{MOST_COLUMNS, aimed_columns};
use crate::targets::mend_targets;
use draid_area::Area;
use draid_names::{ArmAt, At, Pointer};
use draid_parity::Stripe;
use draid_rack::Rack;
use draid_shard::{ColumnRows, Shard, Source, StripePlace};

/// Writes each column of a stripe to the targets of its slot that answer, and notes the leaves on which calls failed. A column
/// that was taken from a source is made of that, and any other of all that were. Only where each target of the columns' slots
/// answers it says so.
pub(crate) fn land_columns<R: Rack, A: Area>(
    shard: &mut Shard<R, A>,
    pointer: &Pointer,
    targets: &[ArmAt],
    chosen: &[Option<Source>],
    columns: &Stripe,
    failed: &mut Vec<u64>,
) -> bool
    requires laid { IsLaid R.Rack shard.old }
    requires run { IsRun shard.old.geometry pointer.now.first pointer.now.stripes }
    requires one { pointer.now.stripes ≡ 1 }
    requires there { AreThere shard.old.slots targets.now }
    requires shape { IsOneSector shard.old.geometry columns.now }
    requires chosen { length chosen.now ≡ shard.old.geometry.g }
    requires room { vec_len failed.old + shard.old.geometry.g * length targets.now ≤ vec_capacity failed.old }
    ensures rack { shard.new ≡ record shard.old { rack = shard.new.rack } }
    ensures shape { R.shape shard.new.rack ≡ R.shape shard.old.rack }
    ensures lands { OnBothTold (R.told shard.old.rack) (R.told shard.new.rack)
        (LandsBelow (part_of shard.old) shard.old.slots pointer.now targets.now shard.old.geometry.g columns.now.columns chosen.now failed.new.items) }
    ensures fails { FailsColumns (part_of shard.old) shard.old.slots pointer.now targets.now shard.old.geometry.g failed.old.items failed.new.items }
    ensures counts { (first : Option ℕ → ℕ) → CountsFailed failed.old.items first (R.faults shard.old.rack) → CountsFailed failed.new.items first (R.faults shard.new.rack) }
    ensures answered { result ≡ true → AnswerBelow (part_of shard.old) shard.old.slots pointer.now targets.now shard.old.geometry.g }
{
    let aimed = aimed_columns(shard, pointer, targets);
    let mut answered = true;
    for column in 0..shard.geometry.g {
        answered = land_next(
            shard, pointer, &aimed, targets, chosen, columns, column, failed,
        ) && answered;
    }
    answered
}

/// Writes the next one, if it is marked: no target is of the slot of another.
fn land_next<R: Rack, A: Area>(
    shard: &mut Shard<R, A>,
    pointer: &Pointer,
    aimed: &[bool],
    targets: &[ArmAt],
    chosen: &[Option<Source>],
    columns: &Stripe,
    column: u32,
    failed: &mut Vec<u64>,
) -> bool
    requires laid { IsLaid R.Rack shard.old }
    requires run { IsRun shard.old.geometry pointer.now.first pointer.now.stripes }
    requires aimed { AreAimed (part_of shard.old) pointer.now.first targets.now (length targets.now) aimed.now }
    requires marks { shard.old.geometry.g ≤ length aimed.now }
    requires one { pointer.now.stripes ≡ 1 }
    requires there { AreThere shard.old.slots targets.now }
    requires shape { IsOneSector shard.old.geometry columns.now }
    requires chosen { length chosen.now ≡ shard.old.geometry.g }
    requires less { column < shard.old.geometry.g }
    requires room { vec_len failed.old + length targets.now ≤ vec_capacity failed.old }
    ensures rack { shard.new ≡ record shard.old { rack = shard.new.rack } }
    ensures shape { R.shape shard.new.rack ≡ R.shape shard.old.rack }
    ensures lands { (start : Option Told)
        → OnBothTold start (R.told shard.old.rack) (LandsBelow (part_of shard.old) shard.old.slots pointer.now targets.now column columns.now.columns chosen.now failed.old.items)
        → OnBothTold start (R.told shard.new.rack) (LandsBelow (part_of shard.old) shard.old.slots pointer.now targets.now (column + 1) columns.now.columns chosen.now failed.new.items) }
    ensures fails { (first : List ℕ) → FailsColumns (part_of shard.old) shard.old.slots pointer.now targets.now column first failed.old.items
        → FailsColumns (part_of shard.old) shard.old.slots pointer.now targets.now (column + 1) first failed.new.items }
    ensures counts { (first : Option ℕ → ℕ) → CountsFailed failed.old.items first (R.faults shard.old.rack) → CountsFailed failed.new.items first (R.faults shard.new.rack) }
    ensures room { vec_capacity failed.new ≡ vec_capacity failed.old }
    ensures few { length failed.new.items ≤ length failed.old.items + length targets.now }
    ensures answered { result ≡ true → AnswerBelow (part_of shard.old) shard.old.slots pointer.now targets.now column
        → AnswerBelow (part_of shard.old) shard.old.slots pointer.now targets.now (column + 1) }
{
    if !aimed[column as usize] {
        return true;
    }
    let place = shard.stripe_place(pointer);
    let rows = shard.rows_at(&place, pointer, column);
    let bytes = columns.column(column);
    if let Some(source) = chosen[column as usize] {
        let own = At {
            leaf: source.leaf,
            sector: rows.first,
        };
        return mend_targets(
            &mut shard.rack,
            &shard.slots,
            targets,
            rows,
            bytes,
            &[own],
            failed,
        );
    }
    land_missing(shard, pointer, &place, targets, chosen, rows, bytes, failed)
}

/// Writes a column that was taken from no source to the targets of its slot: it is made of all sectors that were read.
fn land_missing<R: Rack, A: Area>(
    shard: &mut Shard<R, A>,
    pointer: &Pointer,
    place: &StripePlace,
    targets: &[ArmAt],
    chosen: &[Option<Source>],
    rows: ColumnRows,
    column: &[u8],
    failed: &mut Vec<u64>,
) -> bool
    requires part { IsPart (part_of shard.old) }
    requires run { IsRun shard.old.geometry pointer.now.first pointer.now.stripes }
    requires place { IsStripePlace (part_of shard.old) pointer.now.first place.now }
    requires chosen { length chosen.now ≡ shard.old.geometry.g }
    requires fits { FitsRows (R.shape shard.old.rack) shard.old.slots rows }
    requires there { AreThere shard.old.slots targets.now }
    requires one { rows.count ≡ 1 }
    requires long { length column.now ≡ rows.size }
    requires room { vec_len failed.old + length targets.now ≤ vec_capacity failed.old }
    ensures rack { shard.new ≡ record shard.old { rack = shard.new.rack } }
    ensures mends { OnBothTold (R.told shard.old.rack) (R.told shard.new.rack) (MendsBelow shard.old.slots rows targets.now (length targets.now) column.now
        (sources_below (part_of shard.old) pointer.now chosen.now shard.old.geometry.g) failed.new.items) }
    ensures fails { FailsBelow shard.old.slots rows targets.now (length targets.now) failed.old.items failed.new.items }
    ensures counts { (first : Option ℕ → ℕ) → CountsFailed failed.old.items first (R.faults shard.old.rack) → CountsFailed failed.new.items first (R.faults shard.new.rack) }
    ensures shape { R.shape shard.new.rack ≡ R.shape shard.old.rack }
    ensures room { vec_capacity failed.new ≡ vec_capacity failed.old }
    ensures few { length failed.new.items ≤ length failed.old.items + length targets.now }
    ensures answered { result ≡ true → AllAnswer shard.old.slots rows targets.now (length targets.now) }
{
    let mut list = [At { leaf: 0, sector: 0 }; MOST_COLUMNS];
    let count = list_sources(shard, pointer, place, chosen, &mut list);
    mend_targets(
        &mut shard.rack,
        &shard.slots,
        targets,
        rows,
        column,
        &list[..count],
        failed,
    )
}

/// Lists the sectors from which columns were taken.
fn list_sources<R: Rack, A: Area>(
    shard: &Shard<R, A>,
    pointer: &Pointer,
    place: &StripePlace,
    chosen: &[Option<Source>],
    list: &mut [At],
) -> usize
    requires part { IsPart (part_of shard.now) }
    requires run { IsRun shard.now.geometry pointer.now.first pointer.now.stripes }
    requires place { IsStripePlace (part_of shard.now) pointer.now.first place.now }
    requires chosen { length chosen.now ≡ shard.now.geometry.g }
    requires room { shard.now.geometry.g ≤ length list.old }
    ensures long { length list.new ≡ length list.old }
    ensures within { result ≤ length list.old }
    ensures listed { take result list.new ≡ sources_below (part_of shard.now) pointer.now chosen.now shard.now.geometry.g }
{
    let mut count = 0;
    for column in 0..shard.geometry.g {
        if let Some(source) = chosen[column as usize] {
            list[count] = At {
                leaf: source.leaf,
                sector: shard.rows_at(place, pointer, column).first,
            };
            count += 1;
        }
    }
    count
}
