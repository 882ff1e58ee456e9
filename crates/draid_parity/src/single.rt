//! One missing data column from a sum that is there, all columns of neighbouring rows at once.
ghost use Rattle.std.specs.Prelude.{◌≡◌, ◌≢◌, ◌∷◌, [], ℕ, ◌+◌, ◌-◌, ◌*◌, ◌<◌, ◌≤◌, length, vec_len};
ghost use Rattle.draid_gf.specs.Field.{field_power, field_product, IsByte};
ghost use Rattle.draid_gf.specs.Lanes.{HasLanes};
ghost use Rattle.draid_parity.specs.Columns.{AreColumns, HasSum, IsColumn, column_at, rest_of};
ghost use Rattle.draid_parity.specs.Rows.{IsSolvedBefore, SolvesRows};

use crate::column::Column;
use crate::encode::add_rows;
use crate::fused::one_sum;
use crate::rows::Rows;
use draid_gf::{Factor, inv, pow2};
use std::simd::prelude::*;

// What is to be added to the column, where `rest` is left of sum `k`, in which `over` undoes the column's weight.
#[inline(always)]
fn part<V: Rows>(rest: V, k: usize, over: &Factor) -> V
    requires plain { k ≡ 0 → over.now ≡ 1 }
    ensures { (s : ℕ → ℕ) → HasLanes V.COUNT (V.bytes rest) s
        → ((j : ℕ) → j < V.COUNT → IsByte (s j))
        → HasLanes V.COUNT (V.bytes result) (λ j. field_product over.now (s j)) }
{
    if k == 0 { rest } else { rest.times(over) }
}

// What parity column `k` leaves in the rows from `at` on.
#[inline(always)]
fn rest<V: Rows>(columns: &[Column], parity: usize, at: usize, k: usize) -> V
    requires kind { parity ≤ 3 }
    requires present { k < parity }
    requires some { parity < length columns.now }
    requires inside { (i : ℕ) → i < length columns.now
        → at + V.COUNT ≤ length (column_at columns.now i) }
    ensures lanes { HasLanes V.COUNT (V.bytes result)
        (λ j. rest_of parity columns.now k (at + j)) }
    ensures bytes { (j : ℕ) → j < V.COUNT → IsByte (rest_of parity columns.now k (at + j)) }
{
    let sum = one_sum::<V>(columns, parity, at, k as u32);
    let row = columns[k].rows::<V>(at);
    row.plus(sum)
}

// Solves the rows from `at` on.
#[inline(always)]
fn solve_at<V: Rows>(
    columns: &mut Vec<Column>,
    parity: usize,
    at: usize,
    k: usize,
    x: usize,
    over: &Factor,
)
    requires kind { parity ≤ 3 }
    requires present { k < parity }
    requires missing { parity ≤ x }
    requires in_range { x < vec_len columns.old }
    requires inside { (i : ℕ) → i < vec_len columns.old
        → at + V.COUNT ≤ length (column_at columns.old.items i) }
    requires plain { k ≡ 0 → over.now ≡ 1 }
    requires byte { IsByte over.now }
    requires over { field_product (field_power 2 (k * (length columns.old.items - 1 - x))) over.now ≡ 1 }
    ensures { SolvesRows parity at V.COUNT (k ∷ []) (x ∷ []) columns.old.items columns.new.items }
{
    let rest = rest::<V>(columns, parity, at, k);
    add_rows(columns, x, at, part(rest, k, over));
}

// Goes on from row `from` as far as whole vectors go, and says how far that is.
#[inline(always)]
fn solve_rows<V: Rows>(
    columns: &mut Vec<Column>,
    parity: usize,
    from: usize,
    k: usize,
    x: usize,
    over: &Factor,
) -> usize
    requires step { 1 ≤ V.COUNT }
    requires kind { parity ≤ 3 }
    requires present { k < parity }
    requires missing { parity ≤ x }
    requires in_range { x < vec_len columns.old }
    requires columns { AreColumns (length (column_at columns.old.items 0)) columns.old.items }
    requires from { from ≤ length (column_at columns.old.items 0) }
    requires front { IsSolvedBefore parity from (k ∷ []) (x ∷ []) columns.old.items }
    requires plain { k ≡ 0 → over.now ≡ 1 }
    requires byte { IsByte over.now }
    requires over { field_product (field_power 2 (k * (length columns.old.items - 1 - x))) over.now ≡ 1 }

    ensures stays { (i : ℕ) → i ≢ x → column_at columns.new.items i ≡ column_at columns.old.items i }
    ensures count { vec_len columns.new ≡ vec_len columns.old }
    ensures columns { AreColumns (length (column_at columns.old.items 0)) columns.new.items }
    ensures inside { result ≤ length (column_at columns.old.items 0) }
    ensures far { length (column_at columns.old.items 0) < result + V.COUNT }
    ensures solved { IsSolvedBefore parity result (k ∷ []) (x ∷ []) columns.new.items }
{
    let len = columns[0].len();
    let mut at = from;
    'rows: while len - at >= V::COUNT {
        solve_at::<V>(columns, parity, at, k, x, over);
        at += V::COUNT;
    }
    at
}

/// Solves data column `x` from parity column `k`.
pub fn restore_one(columns: &mut Vec<Column>, parity: usize, k: usize, x: usize)
    requires kind { parity ≤ 3 }
    requires present { k < parity }
    requires missing { parity ≤ x }
    requires in_range { x < vec_len columns.old }
    requires few { vec_len columns.old ≤ parity + 255 }
    requires columns { AreColumns (length (column_at columns.old.items 0)) columns.old.items }

    ensures stays { (i : ℕ) → i ≢ x → column_at columns.new.items i ≡ column_at columns.old.items i }
    ensures count { vec_len columns.new ≡ vec_len columns.old }
    ensures column { IsColumn (length (column_at columns.old.items 0)) (column_at columns.new.items x) }
    ensures sum { HasSum parity columns.new.items k }
{
    let over = Factor::new(inv(pow2((k * (columns.len() - 1 - x)) as u32)));
    let at = solve_rows::<u8x64>(columns, parity, 0, k, x, &over);
    solve_rows::<u8>(columns, parity, at, k, x, &over);
}
