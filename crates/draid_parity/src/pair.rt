//! Two missing data columns from two sums that are there, all columns of neighbouring rows at once.
ghost use Rattle.std.specs.Prelude.{◌≡◌, ◌≢◌, ◌∷◌, [], ℕ, ◌+◌, ◌-◌, ◌*◌, ◌<◌, ◌≤◌, bit_xor, length, slice_index, vec_len};
ghost use Rattle.draid_gf.specs.Field.{field_power, field_product, IsByte};
ghost use Rattle.draid_gf.specs.Lanes.{HasLanes};
ghost use Rattle.draid_parity.specs.Columns.{AreColumns, HasSum, IsColumn, column_at, rest_of};
ghost use Rattle.draid_parity.specs.Rows.{IsSolvedBefore, SolvesPair, SolvesRows, second_part};

use crate::column::Column;
use crate::encode::add_rows;
use crate::fused::two_sums;
use crate::rows::Rows;
use draid_gf::{Factor, inv, pow2};
use std::simd::prelude::*;

// The node of the first column, and the inverses of what the nodes differ by and of the weights of
// the columns in the lower sum.
#[derive(Drop)]
struct Pair {
    node: Factor,
    between: Factor,
    over_first: Factor,
    over_second: Factor,
}

// What is to be added to the two columns, where `low` and `high` are left of the sums.
#[inline(always)]
fn parts<V: Rows>(low: V, high: V, k: usize, pair: &Pair) -> (V, V)
    requires plain { k ≡ 0 → (pair.now.over_first ≡ 1) × (pair.now.over_second ≡ 1) }
    requires byte { IsByte pair.now.between }
    ensures first { (s t : ℕ → ℕ) → HasLanes V.COUNT (V.bytes low) s
        → HasLanes V.COUNT (V.bytes high) t
        → ((j : ℕ) → j < V.COUNT → IsByte (s j))
        → HasLanes V.COUNT (V.bytes result.0) (λ j. field_product pair.now.over_first
        (bit_xor (s j) (second_part pair.now.node pair.now.between (s j) (t j)))) }
    ensures second { (s t : ℕ → ℕ) → HasLanes V.COUNT (V.bytes low) s
        → HasLanes V.COUNT (V.bytes high) t
        → HasLanes V.COUNT (V.bytes result.1) (λ j. field_product pair.now.over_second
        (second_part pair.now.node pair.now.between (s j) (t j))) }
{
    let second = high.plus(low.times(&pair.node)).times(&pair.between);
    let first = low.plus(second);
    if k == 0 {
        (first, second)
    } else {
        (
            first.times(&pair.over_first),
            second.times(&pair.over_second),
        )
    }
}

// Solves the rows from `at` on.
#[inline(always)]
fn solve_at<V: Rows>(
    columns: &mut Vec<Column>,
    parity: usize,
    at: usize,
    k: usize,
    l: usize,
    x: usize,
    y: usize,
    pair: &Pair,
)
    requires kind { parity ≤ 3 }
    requires present { k < l }
    requires both_present { l < parity }
    requires missing { parity ≤ x }
    requires both_missing { x < y }
    requires in_range { y < vec_len columns.old }
    requires inside { (i : ℕ) → i < vec_len columns.old
        → at + V.COUNT ≤ length (column_at columns.old.items i) }
    requires plain { k ≡ 0 → (pair.now.over_first ≡ 1) × (pair.now.over_second ≡ 1) }
    requires pair { SolvesPair k l (length columns.old.items - 1 - x) (length columns.old.items - 1 - y)
        pair.now.node pair.now.between pair.now.over_first pair.now.over_second }
    ensures { SolvesRows parity at V.COUNT (k ∷ l ∷ []) (x ∷ y ∷ []) columns.old.items columns.new.items }
{
    let (low, high) = rests::<V>(columns, parity, at, k, l);
    let (first, second) = parts(low, high, k, pair);
    add_rows(columns, x, at, first);
    add_rows(columns, y, at, second);
}

// What parity columns `k` and `l` leave in the rows from `at` on.
#[inline(always)]
fn rests<V: Rows>(columns: &[Column], parity: usize, at: usize, k: usize, l: usize) -> (V, V)
    requires kind { parity ≤ 3 }
    requires present { k < parity }
    requires both_present { l < parity }
    requires some { parity < length columns.now }
    requires inside { (i : ℕ) → i < length columns.now
        → at + V.COUNT ≤ length (column_at columns.now i) }
    ensures first { HasLanes V.COUNT (V.bytes result.0)
        (λ j. rest_of parity columns.now k (at + j)) }
    ensures second { HasLanes V.COUNT (V.bytes result.1)
        (λ j. rest_of parity columns.now l (at + j)) }
    ensures first_bytes { (j : ℕ) → j < V.COUNT → IsByte (rest_of parity columns.now k (at + j)) }
    ensures second_bytes { (j : ℕ) → j < V.COUNT → IsByte (rest_of parity columns.now l (at + j)) }
{
    let (first, second) = two_sums::<V>(columns, parity, at, k as u32, l as u32);
    let low = columns[k].rows::<V>(at);
    let high = columns[l].rows::<V>(at);
    (low.plus(first), high.plus(second))
}

// Goes on from row `from` as far as whole vectors go, and says how far that is.
#[inline(always)]
fn solve_rows<V: Rows>(
    columns: &mut Vec<Column>,
    parity: usize,
    from: usize,
    k: usize,
    l: usize,
    x: usize,
    y: usize,
    pair: &Pair,
) -> usize
    requires step { 1 ≤ V.COUNT }
    requires kind { parity ≤ 3 }
    requires present { k < l }
    requires both_present { l < parity }
    requires missing { parity ≤ x }
    requires both_missing { x < y }
    requires in_range { y < vec_len columns.old }
    requires columns { AreColumns (length (column_at columns.old.items 0)) columns.old.items }
    requires from { from ≤ length (column_at columns.old.items 0) }
    requires front { IsSolvedBefore parity from (k ∷ l ∷ []) (x ∷ y ∷ []) columns.old.items }
    requires plain { k ≡ 0 → (pair.now.over_first ≡ 1) × (pair.now.over_second ≡ 1) }
    requires pair { SolvesPair k l (length columns.old.items - 1 - x) (length columns.old.items - 1 - y)
        pair.now.node pair.now.between pair.now.over_first pair.now.over_second }

    ensures stays { (i : ℕ) → i ≢ x → i ≢ y → column_at columns.new.items i
        ≡ column_at columns.old.items i }
    ensures count { vec_len columns.new ≡ vec_len columns.old }
    ensures columns { AreColumns (length (column_at columns.old.items 0)) columns.new.items }
    ensures inside { result ≤ length (column_at columns.old.items 0) }
    ensures far { length (column_at columns.old.items 0) < result + V.COUNT }
    ensures solved { IsSolvedBefore parity result (k ∷ l ∷ []) (x ∷ y ∷ []) columns.new.items }
{
    let len = columns[0].len();
    let mut at = from;
    'rows: while len - at >= V::COUNT {
        solve_at::<V>(columns, parity, at, k, l, x, y, pair);
        at += V::COUNT;
    }
    at
}

/// Solves data columns `x` and `y` from parity columns `k` and `l`.
pub fn restore_two(columns: &mut Vec<Column>, parity: usize, k: usize, l: usize, x: usize, y: usize)
    requires kind { parity ≤ 3 }
    requires present { k < l }
    requires both_present { l < parity }
    requires missing { parity ≤ x }
    requires both_missing { x < y }
    requires in_range { y < vec_len columns.old }
    requires few { vec_len columns.old ≤ parity + 255 }
    requires columns { AreColumns (length (column_at columns.old.items 0)) columns.old.items }

    ensures stays { (i : ℕ) → i ≢ x → i ≢ y → column_at columns.new.items i
        ≡ column_at columns.old.items i }
    ensures count { vec_len columns.new ≡ vec_len columns.old }
    ensures first { IsColumn (length (column_at columns.old.items 0)) (column_at columns.new.items x) }
    ensures second { IsColumn (length (column_at columns.old.items 0)) (column_at columns.new.items y) }
    ensures sums { HasSum parity columns.new.items k × HasSum parity columns.new.items l }
{
    let pair = pair_of(k, l, columns.len() - 1 - x, columns.len() - 1 - y);
    let at = solve_vectors(columns, parity, k, l, x, y, &pair);
    solve_rows::<u8>(columns, parity, at, k, l, x, y, &pair);
}

fn pair_of(k: usize, l: usize, e: usize, f: usize) -> Pair
    requires order { k < l }
    requires kind { l < 3 }
    requires apart { f < e }
    requires few { e < 255 }
    ensures pair { SolvesPair k l e f result.node result.between result.over_first result.over_second }
    ensures plain { k ≡ 0 → (result.over_first ≡ 1) × (result.over_second ≡ 1) }
{
    let first = pow2(((l - k) * e) as u32);
    let second = pow2(((l - k) * f) as u32);
    Pair {
        node: Factor::new(first),
        between: Factor::new(inv(first ^ second)),
        over_first: Factor::new(inv(pow2((k * e) as u32))),
        over_second: Factor::new(inv(pow2((k * f) as u32))),
    }
}

// The sums are known where each call is made, so that the loop over the columns never asks which.
fn solve_vectors(
    columns: &mut Vec<Column>,
    parity: usize,
    k: usize,
    l: usize,
    x: usize,
    y: usize,
    pair: &Pair,
) -> usize
    requires kind { parity ≤ 3 }
    requires present { k < l }
    requires both_present { l < parity }
    requires missing { parity ≤ x }
    requires both_missing { x < y }
    requires in_range { y < vec_len columns.old }
    requires columns { AreColumns (length (column_at columns.old.items 0)) columns.old.items }
    requires plain { k ≡ 0 → (pair.now.over_first ≡ 1) × (pair.now.over_second ≡ 1) }
    requires pair { SolvesPair k l (length columns.old.items - 1 - x) (length columns.old.items - 1 - y)
        pair.now.node pair.now.between pair.now.over_first pair.now.over_second }

    ensures stays { (i : ℕ) → i ≢ x → i ≢ y → column_at columns.new.items i
        ≡ column_at columns.old.items i }
    ensures count { vec_len columns.new ≡ vec_len columns.old }
    ensures columns { AreColumns (length (column_at columns.old.items 0)) columns.new.items }
    ensures inside { result ≤ length (column_at columns.old.items 0) }
    ensures solved { IsSolvedBefore parity result (k ∷ l ∷ []) (x ∷ y ∷ []) columns.new.items }
{
    if k == 0 && l == 1 {
        solve_rows::<u8x64>(columns, parity, 0, 0, 1, x, y, pair)
    } else {
        solve_rows::<u8x64>(columns, parity, 0, k, l, x, y, pair)
    }
}
