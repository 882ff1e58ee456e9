//! Three missing data columns from P, Q and R, all columns of neighbouring rows at once.
ghost use Rattle.std.specs.Prelude.{◌≡◌, ◌≢◌, ◌∷◌, [], ℕ, ◌+◌, ◌-◌, ◌<◌, ◌≤◌, length, vec_len};
ghost use Rattle.draid_gf.specs.Field.{IsByte};
ghost use Rattle.draid_gf.specs.Lanes.{HasLanes};
ghost use Rattle.draid_parity.specs.Columns.{AreColumns, HasSum, IsColumn, column_at, rest_of};
ghost use Rattle.draid_parity.specs.Rows.{IsSolvedBefore, SolvesLanes, SolvesRows, SolvesTriple};

use crate::column::Column;
use crate::encode::add_rows;
use crate::fused::three_sums;
use crate::rows::Rows;
use draid_gf::{Factor, inv, pow2};
use std::simd::prelude::*;

// The nodes of the first two columns, and the inverses of what each two of the three nodes differ by.
#[derive(Drop)]
struct Triple {
    first: Factor,
    second: Factor,
    over_second: Factor,
    over_third: Factor,
    between: Factor,
}

// What is to be added to the three columns, where `p`, `q` and `r` are left of the sums.
#[inline(always)]
fn parts<V: Rows>(p: V, q: V, r: V, triple: &Triple) -> (V, V, V)
    ensures { (e f g : ℕ) (s t u : ℕ → ℕ) → SolvesTriple e f g triple.now.first triple.now.second triple.now.over_second triple.now.over_third triple.now.between
        → HasLanes V.COUNT (V.bytes p) s → HasLanes V.COUNT (V.bytes q) t → HasLanes V.COUNT (V.bytes r) u
        → ((j : ℕ) → j < V.COUNT → IsByte (s j)) → ((j : ℕ) → j < V.COUNT → IsByte (t j)) → ((j : ℕ) → j < V.COUNT → IsByte (u j))
        → SolvesLanes V.COUNT e f g s t u (V.bytes result.0) (V.bytes result.1) (V.bytes result.2) }
{
    let low = q.plus(p.times(&triple.first));
    let high = r.plus(q.times(&triple.first));
    let last = high.plus(low.times(&triple.second)).times(&triple.between);
    let second = low.plus(last).times(&triple.over_second);
    let third = last.times(&triple.over_third);
    (p.plus(second).plus(third), second, third)
}

// What P, Q and R leave in the rows from `at` on.
#[inline(always)]
fn rests<V: Rows>(columns: &[Column], at: usize) -> (V, V, V)
    requires some { 3 < length columns.now }
    requires inside { (i : ℕ) → i < length columns.now
        → at + V.COUNT ≤ length (column_at columns.now i) }
    ensures p { HasLanes V.COUNT (V.bytes result.0) (λ j. rest_of 3 columns.now 0 (at + j)) }
    ensures q { HasLanes V.COUNT (V.bytes result.1) (λ j. rest_of 3 columns.now 1 (at + j)) }
    ensures r { HasLanes V.COUNT (V.bytes result.2) (λ j. rest_of 3 columns.now 2 (at + j)) }
    ensures bytes { (k j : ℕ) → k < 3 → j < V.COUNT → IsByte (rest_of 3 columns.now k (at + j)) }
{
    let (p, q, r) = three_sums::<V>(columns, at);
    let first = columns[0].rows::<V>(at);
    let second = columns[1].rows::<V>(at);
    let third = columns[2].rows::<V>(at);
    (first.plus(p), second.plus(q), third.plus(r))
}

// Solves the rows from `at` on.
#[inline(always)]
fn solve_at<V: Rows>(
    columns: &mut Vec<Column>,
    at: usize,
    x: usize,
    y: usize,
    z: usize,
    triple: &Triple,
)
    requires missing { 3 ≤ x }
    requires both_missing { x < y }
    requires all_missing { y < z }
    requires in_range { z < vec_len columns.old }
    requires inside { (i : ℕ) → i < vec_len columns.old
        → at + V.COUNT ≤ length (column_at columns.old.items i) }
    requires triple { SolvesTriple (length columns.old.items - 1 - x) (length columns.old.items - 1 - y) (length columns.old.items - 1 - z)
        triple.now.first triple.now.second triple.now.over_second triple.now.over_third triple.now.between }
    ensures { SolvesRows 3 at V.COUNT (0 ∷ 1 ∷ 2 ∷ []) (x ∷ y ∷ z ∷ []) columns.old.items columns.new.items }
{
    let (p, q, r) = rests::<V>(columns, at);
    let (first, second, third) = parts(p, q, r, triple);
    add_rows(columns, x, at, first);
    add_rows(columns, y, at, second);
    add_rows(columns, z, at, third);
}

// Goes on from row `from` as far as whole vectors go, and says how far that is.
fn solve_rows<V: Rows>(
    columns: &mut Vec<Column>,
    from: usize,
    x: usize,
    y: usize,
    z: usize,
    triple: &Triple,
) -> usize
    requires step { 1 ≤ V.COUNT }
    requires missing { 3 ≤ x }
    requires both_missing { x < y }
    requires all_missing { y < z }
    requires in_range { z < vec_len columns.old }
    requires columns { AreColumns (length (column_at columns.old.items 0)) columns.old.items }
    requires from { from ≤ length (column_at columns.old.items 0) }
    requires front { IsSolvedBefore 3 from (0 ∷ 1 ∷ 2 ∷ []) (x ∷ y ∷ z ∷ []) columns.old.items }
    requires triple { SolvesTriple (length columns.old.items - 1 - x) (length columns.old.items - 1 - y) (length columns.old.items - 1 - z)
        triple.now.first triple.now.second triple.now.over_second triple.now.over_third triple.now.between }

    ensures stays { (i : ℕ) → i ≢ x → i ≢ y → i ≢ z → column_at columns.new.items i ≡ column_at columns.old.items i }
    ensures count { vec_len columns.new ≡ vec_len columns.old }
    ensures columns { AreColumns (length (column_at columns.old.items 0)) columns.new.items }
    ensures inside { result ≤ length (column_at columns.old.items 0) }
    ensures far { length (column_at columns.old.items 0) < result + V.COUNT }
    ensures solved { IsSolvedBefore 3 result (0 ∷ 1 ∷ 2 ∷ []) (x ∷ y ∷ z ∷ []) columns.new.items }
{
    let len = columns[0].len();
    let mut at = from;
    'rows: while len - at >= V::COUNT {
        solve_at::<V>(columns, at, x, y, z, triple);
        at += V::COUNT;
    }
    at
}

/// Solves data columns `x`, `y` and `z` from P, Q and R.
pub fn restore_three(columns: &mut Vec<Column>, x: usize, y: usize, z: usize)
    requires missing { 3 ≤ x }
    requires both_missing { x < y }
    requires all_missing { y < z }
    requires in_range { z < vec_len columns.old }
    requires few { vec_len columns.old ≤ 3 + 255 }
    requires columns { AreColumns (length (column_at columns.old.items 0)) columns.old.items }

    ensures stays { (i : ℕ) → i ≢ x → i ≢ y → i ≢ z → column_at columns.new.items i
        ≡ column_at columns.old.items i }
    ensures count { vec_len columns.new ≡ vec_len columns.old }
    ensures first { IsColumn (length (column_at columns.old.items 0)) (column_at columns.new.items x) }
    ensures second { IsColumn (length (column_at columns.old.items 0)) (column_at columns.new.items y) }
    ensures third { IsColumn (length (column_at columns.old.items 0)) (column_at columns.new.items z) }
    ensures sums { (k : ℕ) → k < 3 → HasSum 3 columns.new.items k }
{
    let last = columns.len() - 1;
    let triple = triple_of(last - x, last - y, last - z);
    let at = solve_rows::<u8x32>(columns, 0, x, y, z, &triple);
    solve_rows::<u8>(columns, at, x, y, z, &triple);
}

fn triple_of(e: usize, f: usize, g: usize) -> Triple
    requires apart { f < e }
    requires all_apart { g < f }
    requires few { e < 255 }
    ensures { SolvesTriple e f g result.first result.second result.over_second result.over_third result.between }
{
    let first = pow2(e as u32);
    let second = pow2(f as u32);
    let third = pow2(g as u32);
    Triple {
        first: Factor::new(first),
        second: Factor::new(second),
        over_second: Factor::new(inv(first ^ second)),
        over_third: Factor::new(inv(first ^ third)),
        between: Factor::new(inv(second ^ third)),
    }
}
