//! Which parity columns missing data columns are solved from.
ghost use Rattle.std.specs.Prelude.{◌≡◌, ◌≢◌, ℕ, ◌+◌, ◌<◌, ◌≤◌, Contains, count_by, length, nat_le, slice_index, vec_len};
ghost use Rattle.std.specs.List.Sorted.{IsStrictlyIncreasing};
ghost use Rattle.draid_gf.specs.Field.{IsByte};
ghost use Rattle.draid_parity.specs.Columns.{AreColumns, ChosenSums, HasSum, IsChosen, IsColumn, SolvesColumns, column_at, present_below};

use crate::column::Column;
use crate::pair::restore_two;
use crate::single::restore_one;
use crate::sums::encode_sum;
use crate::triple::restore_three;

/// Sets the missing columns from the others.
pub fn solve_columns(columns: &mut Vec<Column>, parity: usize, missing: &[u32])
    requires kind { parity ≤ 3 }
    requires some { parity < vec_len columns.old }
    requires few { vec_len columns.old ≤ parity + 255 }
    requires columns { AreColumns (length (column_at columns.old.items 0)) columns.old.items }
    requires enough { length missing.now ≤ parity }
    requires ascending { IsStrictlyIncreasing missing.now }
    requires in_range { (n : ℕ) → n < length missing.now → slice_index missing.now n < vec_len columns.old }

    ensures count { vec_len columns.new ≡ vec_len columns.old }
    ensures columns { AreColumns (length (column_at columns.old.items 0)) columns.new.items }
    ensures bytes { (i j : ℕ) → Contains missing.now i → parity ≤ i
        → IsByte (slice_index (column_at columns.new.items i) j) }
    ensures solved { SolvesColumns parity missing.now columns.old.items columns.new.items }
    ensures chosen { ChosenSums parity missing.now columns.new.items }
{
    let (unencoded, lost) = missing.split_at(first_data(missing, parity));
    solve_data(columns, parity, missing, lost);
    for k in unencoded {
        encode_sum(columns, parity, *k as usize);
    }
}

// Where the data columns begin in an ascending list of columns.
fn first_data(missing: &[u32], parity: usize) -> usize
    requires { IsStrictlyIncreasing missing.now }
    ensures bound { result ≤ length missing.now }
    ensures parity { (n : ℕ) → n < result → slice_index missing.now n < parity }
    ensures rest { (n : ℕ) → result ≤ n → n < length missing.now → parity ≤ slice_index missing.now n }
{
    for (n, i) in missing.iter().enumerate() {
        if *i as usize >= parity {
            return n;
        }
    }
    missing.len()
}

// The lowest parity column from `from` on that isn't missing.
fn next_present(missing: &[u32], from: u32, parity: u32) -> u32
    requires start { from ≤ parity }
    requires some { present_below missing.now from < present_below missing.now parity }
    ensures above { from ≤ result }
    ensures below { result < parity }
    ensures present { Contains missing.now result → ⊥ }
    ensures lowest { present_below missing.now result ≡ present_below missing.now from }
{
    for k in from..parity {
        if !missing.contains(&k) {
            return k;
        }
    }
    unreachable!()
}

// Solves the missing data columns, of which there are at most three, from the lowest present parity
// columns.
fn solve_data(columns: &mut Vec<Column>, parity: usize, missing: &[u32], lost: &[u32])
    requires kind { parity ≤ 3 }
    requires some { parity < vec_len columns.old }
    requires few { vec_len columns.old ≤ parity + 255 }
    requires columns { AreColumns (length (column_at columns.old.items 0)) columns.old.items }
    requires enough { length missing.now ≤ parity }
    requires all { length lost.now ≡ count_by (λ i. nat_le parity i) missing.now }
    requires ascending { IsStrictlyIncreasing lost.now }
    requires lost { (n : ℕ) → n < length lost.now → parity ≤ slice_index lost.now n }
    requires in_range { (n : ℕ) → n < length lost.now → slice_index lost.now n < vec_len columns.old }

    ensures stays { (i : ℕ) → (Contains lost.now i → ⊥) → column_at columns.new.items i
        ≡ column_at columns.old.items i }
    ensures count { vec_len columns.new ≡ vec_len columns.old }
    ensures columns { AreColumns (length (column_at columns.old.items 0)) columns.new.items }
    ensures bytes { (i j : ℕ) → Contains lost.now i → IsByte (slice_index (column_at columns.new.items i) j) }
    ensures chosen { ChosenSums parity missing.now columns.new.items }
{
    match lost {
        [] => {}
        [x] => {
            let k = next_present(missing, 0, parity as u32);
            restore_one(columns, parity, k as usize, *x as usize);
        }
        [x, y] => {
            let k = next_present(missing, 0, parity as u32);
            let l = next_present(missing, k + 1, parity as u32);
            restore_two(
                columns,
                parity,
                k as usize,
                l as usize,
                *x as usize,
                *y as usize,
            );
        }
        [x, y, z] => restore_three(columns, *x as usize, *y as usize, *z as usize),
        _ => unreachable!(),
    }
}
