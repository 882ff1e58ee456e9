ghost use Rattle.std.specs.Prelude.{◌≡◌, map};
ghost use Rattle.draid_script.specs.Fault.{Gives};
ghost use Rattle.draid_script.specs.Field.{number_at, short_at};
ghost use Rattle.draid_script.specs.Keys as spec;
ghost use Rattle.draid_script.specs.Keys.{key_in, keys_at, new_value, value_in};
ghost use Rattle.draid_script.specs.Word.{placed};

use crate::field::{number, short_number};
use crate::text::{first, without_first};
use crate::word::Word;
use crate::{LineFaultKind, ParseFault, PoolKeys};

const SECTOR: &[u8] = b"sector";

const HEIGHT: &[u8] = b"height";

const METASLABS: &[u8] = b"metaslabs";

const SLICES: &[u8] = b"slices";

const SEED: &[u8] = b"seed";

const VERSION: &[u8] = b"version";

/// A key of `create`.
#[derive(Clone, Copy)]
pub enum Key {
    Sector,
    Height,
    Metaslabs,
    Slices,
    Seed,
    Version,
}

/// The values of the keys that were given so far.
#[derive(Clone, Copy, Default)]
pub struct Given {
    pub sector: Option<u32>,
    pub height: Option<u32>,
    pub metaslabs: Option<u32>,
    pub slices: Option<u32>,
    pub seed: Option<u64>,
    pub version: Option<u32>,
}

impl Given {
    /// What is given with one more word `key=value`.
    fn with(self, word: &Word) -> Result<Given, ParseFault>
        ensures { Gives (λ given. given) result (spec.given_with self (placed word.now)) }
    {
        let (name, value) = halves(word);
        match key_named(name) {
            Some(key) => self.with_value(key, &value),
            None => Err(ParseFault::line(LineFaultKind::Number, word.at)),
        }
    }

    /// What is given with the value of one more key.
    fn with_value(self, key: Key, value: &Word) -> Result<Given, ParseFault>
        ensures { Gives (λ given. given) result (spec.given_value self key (placed value.now)) }
    {
        match key {
            Key::Sector => {
                let sector = new_short(self.sector, value)?;
                Ok(Given { sector, ..self })
            }
            Key::Height => {
                let height = new_short(self.height, value)?;
                Ok(Given { height, ..self })
            }
            Key::Metaslabs => {
                let metaslabs = new_short(self.metaslabs, value)?;
                Ok(Given { metaslabs, ..self })
            }
            Key::Slices => {
                let slices = new_short(self.slices, value)?;
                Ok(Given { slices, ..self })
            }
            Key::Seed => {
                let seed = new_number(self.seed, value)?;
                Ok(Given { seed, ..self })
            }
            Key::Version => {
                let version = new_short(self.version, value)?;
                Ok(Given { version, ..self })
            }
        }
    }

    /// The values, with the default where a key isn't given.
    fn keys(self) -> PoolKeys
        ensures { result ≡ spec.keys_in self }
    {
        PoolKeys {
            sector: self.sector.unwrap_or(4096),
            height: self.height.unwrap_or(8),
            metaslabs: self.metaslabs.unwrap_or(4),
            slices: self.slices.unwrap_or(16),
            seed: self.seed.unwrap_or(1),
            version: self.version.unwrap_or(1),
        }
    }
}

/// The values of the keys in these words, each `key=value`.
pub fn keys(words: &[Word]) -> Result<PoolKeys, ParseFault>
    ensures { Gives (λ keys. keys) result (keys_at (map placed words.now)) }
{
    let mut given = Given::default();
    for word in words {
        given = given.with(word)?;
    }
    Ok(given.keys())
}

/// The key of this name.
#[tactic(auto, unfolding(crate::specs::Keys::key_named))]
fn key_named(name: &[u8]) -> Option<Key>
    ensures { result ≡ spec.key_named name.now }
{
    if name == SECTOR {
        return Some(Key::Sector);
    }
    if name == HEIGHT {
        return Some(Key::Height);
    }
    if name == METASLABS {
        return Some(Key::Metaslabs);
    }
    if name == SLICES {
        return Some(Key::Slices);
    }
    if name == SEED {
        return Some(Key::Seed);
    }
    if name == VERSION {
        return Some(Key::Version);
    }
    None
}

/// What stands before the first `=` of a word, and what behind it.
fn halves<'a>(word: &Word<'a>) -> (&'a [u8], Word<'a>)
    ensures key { result.0.now ≡ key_in (placed word.now) }
    ensures value { placed result.1 ≡ value_in (placed word.now) }
{
    let (key, rest) = word.text.split_at(first(word.text, b'='));
    let text = without_first(rest);
    (key, Word { text, at: word.at })
}

/// The value of a key below 2^32, where none was given before.
fn new_short(earlier: Option<u32>, value: &Word) -> Result<Option<u32>, ParseFault>
    ensures { Gives (λ new. new) result (new_value short_at earlier (placed value.now)) }
{
    match earlier {
        Some(_) => Err(ParseFault::line(LineFaultKind::Number, value.at)),
        None => {
            let number = short_number(value)?;
            Ok(Some(number))
        }
    }
}

/// The value of a key, where none was given before.
fn new_number(earlier: Option<u64>, value: &Word) -> Result<Option<u64>, ParseFault>
    ensures { Gives (λ new. new) result (new_value number_at earlier (placed value.now)) }
{
    match earlier {
        Some(_) => Err(ParseFault::line(LineFaultKind::Number, value.at)),
        None => {
            let number = number(value)?;
            Ok(Some(number))
        }
    }
}
