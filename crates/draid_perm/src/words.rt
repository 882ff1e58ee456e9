ghost use Rattle.std.specs.Prelude.{◌≡◌, ◌+◌, ◌-◌, ◌<◌, ◌≤◌, ℕ, [], length, take, drop, slice_index_or};
ghost use Rattle.std.specs.List.{range_with_len};
ghost use Rattle.std.specs.List.Sorted.{IsPermutation};
ghost use Rattle.rand_core.specs.Steps.{first_words};
ghost use Rattle.rand_xoshiro.specs.Xoroshiro128.{plus_plus};
ghost use Rattle.draid_perm.specs.Rows.{IsPermuted, base_row};
ghost use Rattle.draid_perm.specs.Shuffle.{shuffled};
ghost use Rattle.draid_perm.specs.Words.{after, seeded};

use crate::exchange::shuffle;
use rand_core::SeedableRng;
use rand_core::utils::NextWord;
use rand_xoshiro::Xoroshiro128PlusPlus;

/// The base rows of n children by a seed. Behind the first n items of a row the numbers stay in order.
pub(crate) fn base_rows(n: usize, seed: u64) -> [[u8; 64]; 16]
    requires least { 2 ≤ n }
    requires most { n ≤ 64 }
    ensures rows { (row : ℕ) → row < 16 → take n (slice_index_or result row []) ≡ base_row n seed row }
    ensures rest { (row : ℕ) → row < 16 → drop n (slice_index_or result row []) ≡ range_with_len n (64 - n) }
    ensures permuted { (row : ℕ) → row < 16 → IsPermuted n (slice_index_or result row []) }
{
    let mut rng = Xoroshiro128PlusPlus::seed_from_u64(seed);
    let mut row = in_order();
    let mut rows = [[0; 64]; 16];
    for r in 0..16 {
        shuffle_front(&mut row, n, &mut rng);
        rows[r] = row;
    }
    rows
}

/// The children in order.
fn in_order() -> [u8; 64]
    ensures { result ≡ range_with_len 0 64 }
{
    [
        0, 1, 2, 3, 4, 5, 6, 7, 8, 9, 10, 11, 12, 13, 14, 15, 16, 17, 18, 19, 20, 21, 22, 23, 24,
        25, 26, 27, 28, 29, 30, 31, 32, 33, 34, 35, 36, 37, 38, 39, 40, 41, 42, 43, 44, 45, 46, 47,
        48, 49, 50, 51, 52, 53, 54, 55, 56, 57, 58, 59, 60, 61, 62, 63,
    ]
}

/// Shuffles the first n items of a row by the next words.
fn shuffle_front(row: &mut [u8; 64], n: usize, rng: &mut Xoroshiro128PlusPlus)
    requires least { 1 ≤ n }
    requires most { n ≤ 64 }
    ensures front { take n row.new ≡ shuffled (first_words plus_plus (n - 1) rng.old) (take n row.old) }
    ensures permutation { IsPermutation (take n row.old) (take n row.new) }
    ensures rest { drop n row.new ≡ drop n row.old }
    ensures state { rng.new ≡ after (n - 1) rng.old }
{
    shuffle_next(&mut row[..n], rng);
}

/// Shuffles a row of at most 64 items by the next words of a generator.
fn shuffle_next(row: &mut [u8], rng: &mut Xoroshiro128PlusPlus)
    requires some { 1 ≤ length row.old }
    requires most { length row.old ≤ 64 }
    ensures row { row.new ≡ shuffled (first_words plus_plus (length row.old - 1) rng.old) row.old }
    ensures permutation { IsPermutation row.old row.new }
    ensures state { rng.new ≡ after (length row.old - 1) rng.old }
{
    let mut words = [0; 63];
    let words = &mut words[..row.len() - 1];
    fill_words(rng, words);
    shuffle(row, words);
}

/// Fills a slice with the next words of a generator.
fn fill_words(rng: &mut Xoroshiro128PlusPlus, into: &mut [u64])
    ensures words { into.new ≡ first_words plus_plus (length into.old) rng.old }
    ensures state { rng.new ≡ after (length into.old) rng.old }
{
    'words: for i in 0..into.len() {
        into[i] = rng.next_word();
    }
}
