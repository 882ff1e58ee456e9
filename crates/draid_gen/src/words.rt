ghost use Rattle.std.specs.Prelude.{◌≡◌, length};
ghost use Rattle.rand_core.specs.Steps.{first_words};
ghost use Rattle.rand_xoshiro.specs.Xoroshiro128.{plus_plus};
ghost use Rattle.draid_gen.specs.Workload.{words_of};

use rand_core::SeedableRng;
use rand_core::utils::NextWord;
use rand_xoshiro::Xoroshiro128PlusPlus;

/// The words that are drawn for a workload.
pub fn drawn(number: u64) -> [u64; 21]
    ensures { result ≡ words_of number }
{
    let mut rng = Xoroshiro128PlusPlus::seed_from_u64(number);
    let mut words = [0; 21];
    fill_words(&mut rng, &mut words);
    words
}

/// Fills a slice with the next words of a generator.
fn fill_words(rng: &mut Xoroshiro128PlusPlus, into: &mut [u64])
    ensures { into.new ≡ first_words plus_plus (length into.old) rng.old }
{
    'words: for i in 0..into.len() {
        into[i] = rng.next_word();
    }
}
