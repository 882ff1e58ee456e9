ghost use Rattle.std.specs.Prelude.{◌≡◌, ◌==◌, ◌+◌, ◌-◌, ◌<◌, ◌≤◌, ◌*◌, ◌/◌, ◌%◌, ℕ, true, [], length, slice_index, slice_index_or};
ghost use Rattle.std.specs.List.{list_any};
ghost use Rattle.draid_perm.specs.Rows.{IsPermuted};

use crate::words::base_rows;

/// The permutations of a vdev's children, one for each slice: a position that carries groups or a
/// spare stands on another child in other slices.
#[derive(Clone, Copy)]
pub struct Perms {
    n: u32,
    rows: [[u8; 64]; 16],
    ghost least: { 2 ≤ n },
    ghost most: { n ≤ 64 },
    ghost permuted: { (row : ℕ) → row < 16 → IsPermuted n (slice_index_or rows row []) },
}

impl Perms {
    ghost use Rattle.draid_perm.specs.Perms.{AreSeeded, child_of, children_of};

    /// The permutations of 2 to 64 children that a seed gives. Each of the 16 base rows is shuffled from
    /// the one before, the first from the order of the children, by the words of
    /// `Xoroshiro128PlusPlus::seed_from_u64(seed)`.
    pub fn new(n: u32, seed: u64) -> Perms
        requires least { 2 ≤ n }
        requires most { n ≤ 64 }
        ensures { AreSeeded result n seed }
    {
        let rows = base_rows(n as usize, seed);
        Perms { n, rows }
    }

    /// The child that stands at a position of a slice.
    pub fn child(&self, slice: u64, position: u32) -> u32
        requires { position < children_of self.now }
        ensures formula { result ≡ child_of self.now slice position }
        ensures below { result < children_of self.now }
    {
        let (row, turn) = self.turn(slice);
        (u32::from(self.rows[row][position as usize]) + turn) % self.n
    }

    /// The position of a slice at which a child stands.
    pub fn position(&self, slice: u64, child: u32) -> u32
        requires { child < children_of self.now }
        ensures below { result < children_of self.now }
        ensures inverse { child_of self.now slice result ≡ child }
        ensures only { (position : ℕ) → position < children_of self.now
            → child_of self.now slice position ≡ child → position ≡ result }
    {
        let (row, turn) = self.turn(slice);
        let item = (child + self.n - turn) % self.n;
        index_of(&self.rows[row][..self.n as usize], item as u8) as u32
    }

    /// The base row of a slice, and by how much it is turned.
    fn turn(&self, slice: u64) -> (usize, u32)
        ensures row { result.0 ≡ slice % (16 * self.now.n) / self.now.n }
        ensures turn { result.1 ≡ slice % (16 * self.now.n) % self.now.n }
        ensures base { result.0 < 16 }
        ensures less { result.1 < self.now.n }
    {
        let turn = (slice % u64::from(16 * self.n)) as u32;
        ((turn / self.n) as usize, turn % self.n)
    }
}

/// Where an item stands in a row.
fn index_of(row: &[u8], item: u8) -> usize
    requires { list_any (λ x. x == item) row.now ≡ true }
    ensures within { result < length row.now }
    ensures item { slice_index row.now result ≡ item }
{
    for (index, x) in row.iter().enumerate() {
        if *x == item {
            return index;
        }
    }
    unreachable!()
}
