//! One parity column from the data columns, all columns of neighbouring rows at once.
ghost use Rattle.std.specs.Prelude.{◌≡◌, ◌≢◌, ◌∷◌, [], ℕ, ◌+◌, ◌<◌, ◌≤◌, length, vec_len};
ghost use Rattle.draid_parity.specs.Columns.{AreColumns, HasSum, column_at};
ghost use Rattle.draid_parity.specs.Rows.{IsSolvedBefore, SolvesRows};

use crate::column::Column;
use crate::encode::put_rows;
use crate::fused::one_sum;
use crate::rows::Rows;
use std::simd::prelude::*;

// Sets parity column `k` to its sum in the rows from `at` on.
#[inline(always)]
fn encode_at<V: Rows>(columns: &mut Vec<Column>, parity: usize, at: usize, k: usize)
    requires kind { parity ≤ 3 }
    requires parity { k < parity }
    requires some { parity < vec_len columns.old }
    requires inside { (i : ℕ) → i < vec_len columns.old
        → at + V.COUNT ≤ length (column_at columns.old.items i) }
    ensures { SolvesRows parity at V.COUNT (k ∷ []) (k ∷ []) columns.old.items columns.new.items }
{
    let sum = one_sum::<V>(columns, parity, at, k as u32);
    put_rows(columns, k, at, sum);
}

// Goes on from row `from` as far as whole vectors go, and says how far that is.
#[inline(always)]
fn encode_rows<V: Rows>(columns: &mut Vec<Column>, parity: usize, from: usize, k: usize) -> usize
    requires step { 1 ≤ V.COUNT }
    requires kind { parity ≤ 3 }
    requires parity { k < parity }
    requires some { parity < vec_len columns.old }
    requires columns { AreColumns (length (column_at columns.old.items 0)) columns.old.items }
    requires from { from ≤ length (column_at columns.old.items 0) }
    requires front { IsSolvedBefore parity from (k ∷ []) (k ∷ []) columns.old.items }

    ensures stays { (i : ℕ) → i ≢ k → column_at columns.new.items i ≡ column_at columns.old.items i }
    ensures count { vec_len columns.new ≡ vec_len columns.old }
    ensures columns { AreColumns (length (column_at columns.old.items 0)) columns.new.items }
    ensures inside { result ≤ length (column_at columns.old.items 0) }
    ensures far { length (column_at columns.old.items 0) < result + V.COUNT }
    ensures solved { IsSolvedBefore parity result (k ∷ []) (k ∷ []) columns.new.items }
{
    let len = columns[0].len();
    let mut at = from;
    'rows: while len - at >= V::COUNT {
        encode_at::<V>(columns, parity, at, k);
        at += V::COUNT;
    }
    at
}

/// Sets parity column `k` to its sum.
pub fn encode_sum(columns: &mut Vec<Column>, parity: usize, k: usize)
    requires kind { parity ≤ 3 }
    requires parity { k < parity }
    requires some { parity < vec_len columns.old }
    requires columns { AreColumns (length (column_at columns.old.items 0)) columns.old.items }

    ensures stays { (i : ℕ) → i ≢ k → column_at columns.new.items i ≡ column_at columns.old.items i }
    ensures count { vec_len columns.new ≡ vec_len columns.old }
    ensures columns { AreColumns (length (column_at columns.old.items 0)) columns.new.items }
    ensures sum { HasSum parity columns.new.items k }
{
    let at = encode_rows::<u8x64>(columns, parity, 0, k);
    encode_rows::<u8>(columns, parity, at, k);
}
