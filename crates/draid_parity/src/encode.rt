//! Parity columns from data columns, all columns of neighbouring rows at once.
ghost use Rattle.std.specs.Prelude.{◌≡◌, ℕ, ◌+◌, ◌<◌, ◌≤◌, length, vec_len};
ghost use Rattle.draid_parity.specs.Columns.{AreColumns, HasSum, column_at};
ghost use Rattle.draid_parity.specs.Rows.{AddsRows, HasSumBefore, PutsRows, SetsSums};

use crate::column::Column;
use crate::fused::{one_sum, three_sums, two_sums};
use crate::rows::Rows;
use std::simd::prelude::*;

/// Sets each parity column to its sum.
pub fn encode_columns(columns: &mut Vec<Column>, parity: usize)
    requires some_parity { 1 ≤ parity }
    requires kind { parity ≤ 3 }
    requires some { parity < vec_len columns.old }
    requires columns { AreColumns (length (column_at columns.old.items 0)) columns.old.items }

    ensures stays { (i : ℕ) → parity ≤ i → column_at columns.new.items i
        ≡ column_at columns.old.items i }
    ensures count { vec_len columns.new ≡ vec_len columns.old }
    ensures columns { AreColumns (length (column_at columns.old.items 0)) columns.new.items }
    ensures sums { (k : ℕ) → k < parity → HasSum parity columns.new.items k }
{
    let at = encode_vectors(columns, parity);
    encode_rows::<u8>(columns, parity, at);
}

// Three sums of wider vectors would not fit the processor's registers.
fn encode_vectors(columns: &mut Vec<Column>, parity: usize) -> usize
    requires some_parity { 1 ≤ parity }
    requires kind { parity ≤ 3 }
    requires some { parity < vec_len columns.old }
    requires columns { AreColumns (length (column_at columns.old.items 0)) columns.old.items }

    ensures stays { (i : ℕ) → parity ≤ i → column_at columns.new.items i
        ≡ column_at columns.old.items i }
    ensures count { vec_len columns.new ≡ vec_len columns.old }
    ensures columns { AreColumns (length (column_at columns.old.items 0)) columns.new.items }
    ensures inside { result ≤ length (column_at columns.old.items 0) }
    ensures sums { (k : ℕ) → k < parity → HasSumBefore result parity columns.new.items k }
{
    if parity < 3 {
        encode_rows::<u8x64>(columns, parity, 0)
    } else {
        encode_rows::<u8x32>(columns, parity, 0)
    }
}

// Goes on from row `from` as far as whole vectors go, and says how far that is.
fn encode_rows<V: Rows>(columns: &mut Vec<Column>, parity: usize, from: usize) -> usize
    requires step { 1 ≤ V.COUNT }
    requires some_parity { 1 ≤ parity }
    requires kind { parity ≤ 3 }
    requires some { parity < vec_len columns.old }
    requires columns { AreColumns (length (column_at columns.old.items 0)) columns.old.items }
    requires from { from ≤ length (column_at columns.old.items 0) }
    requires front { (k : ℕ) → k < parity → HasSumBefore from parity columns.old.items k }

    ensures stays { (i : ℕ) → parity ≤ i → column_at columns.new.items i
        ≡ column_at columns.old.items i }
    ensures count { vec_len columns.new ≡ vec_len columns.old }
    ensures columns { AreColumns (length (column_at columns.old.items 0)) columns.new.items }
    ensures inside { result ≤ length (column_at columns.old.items 0) }
    ensures far { length (column_at columns.old.items 0) < result + V.COUNT }
    ensures sums { (k : ℕ) → k < parity → HasSumBefore result parity columns.new.items k }
{
    let len = columns[0].len();
    let mut at = from;
    'rows: while len - at >= V::COUNT {
        encode_at::<V>(columns, parity, at);
        at += V::COUNT;
    }
    at
}

#[inline(always)]
fn encode_at<V: Rows>(columns: &mut Vec<Column>, parity: usize, at: usize)
    requires some_parity { 1 ≤ parity }
    requires kind { parity ≤ 3 }
    requires some { parity < vec_len columns.old }
    requires inside { (i : ℕ) → i < vec_len columns.old
        → at + V.COUNT ≤ length (column_at columns.old.items i) }
    ensures { SetsSums parity parity at V.COUNT columns.old.items columns.new.items }
{
    match parity {
        1 => encode_one::<V>(columns, at),
        2 => encode_two::<V>(columns, at),
        _ => encode_three::<V>(columns, at),
    }
}

#[inline(always)]
fn encode_one<V: Rows>(columns: &mut Vec<Column>, at: usize)
    requires some { 1 < vec_len columns.old }
    requires inside { (i : ℕ) → i < vec_len columns.old
        → at + V.COUNT ≤ length (column_at columns.old.items i) }
    ensures { SetsSums 1 1 at V.COUNT columns.old.items columns.new.items }
{
    let p = one_sum::<V>(columns, 1, at, 0);
    put_rows(columns, 0, at, p);
}

#[inline(always)]
fn encode_two<V: Rows>(columns: &mut Vec<Column>, at: usize)
    requires some { 2 < vec_len columns.old }
    requires inside { (i : ℕ) → i < vec_len columns.old
        → at + V.COUNT ≤ length (column_at columns.old.items i) }
    ensures { SetsSums 2 2 at V.COUNT columns.old.items columns.new.items }
{
    let (p, q) = two_sums::<V>(columns, 2, at, 0, 1);
    put_rows(columns, 0, at, p);
    put_rows(columns, 1, at, q);
}

#[inline(always)]
fn encode_three<V: Rows>(columns: &mut Vec<Column>, at: usize)
    requires some { 3 < vec_len columns.old }
    requires inside { (i : ℕ) → i < vec_len columns.old
        → at + V.COUNT ≤ length (column_at columns.old.items i) }
    ensures { SetsSums 3 3 at V.COUNT columns.old.items columns.new.items }
{
    let (p, q, r) = three_sums::<V>(columns, at);
    put_rows(columns, 0, at, p);
    put_rows(columns, 1, at, q);
    put_rows(columns, 2, at, r);
}

/// Puts bytes to column `k` in the rows from `at` on.
#[inline(always)]
pub fn put_rows<V: Rows>(columns: &mut Vec<Column>, k: usize, at: usize, rows: V)
    requires column { k < vec_len columns.old }
    requires inside { at + V.COUNT ≤ length (column_at columns.old.items k) }
    requires count { length (V.bytes rows) ≡ V.COUNT }
    ensures { PutsRows at V.COUNT k (V.bytes rows) columns.old.items columns.new.items }
{
    columns[k].put(at, rows);
}

/// Adds to column `x` in the rows from `at` on.
#[inline(always)]
pub fn add_rows<V: Rows>(columns: &mut Vec<Column>, x: usize, at: usize, rows: V)
    requires column { x < vec_len columns.old }
    requires inside { at + V.COUNT ≤ length (column_at columns.old.items x) }
    requires count { length (V.bytes rows) ≡ V.COUNT }
    ensures { AddsRows at V.COUNT x (V.bytes rows) columns.old.items columns.new.items }
{
    let sums = columns[x].rows::<V>(at).plus(rows);
    put_rows(columns, x, at, sums);
}
