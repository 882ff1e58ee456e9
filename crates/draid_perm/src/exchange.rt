ghost use Rattle.std.specs.Prelude.{◌≡◌, ◌+◌, length};
ghost use Rattle.std.specs.List.Sorted.{IsPermutation};
ghost use Rattle.draid_perm.specs.Shuffle.{shuffled};

/// Shuffles a row by words: from the last item down to the second, each is exchanged with the item
/// whose index is the next word modulo the number of items up to there (the shuffle of Fisher and
/// Yates).
pub fn shuffle(row: &mut [u8], words: &[u64])
    requires { length row.old ≡ length words.now + 1 }
    ensures exchange { row.new ≡ shuffled words.now row.old }
    ensures permutation { IsPermutation row.old row.new }
{
    let mut last = words.len();
    for word in words {
        let other = *word % (last as u64 + 1);
        row.swap(last, other as usize);
        last -= 1;
    }
}
