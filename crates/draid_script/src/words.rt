ghost use Rattle.std.specs.Prelude.{◌≡◌, ◌+◌, ◌≤◌, IfOk, drop, length, map};
ghost use Rattle.std.specs.List.{before_first};
ghost use Rattle.draid_script.specs.Word.{is_space, placed, words_of};

use crate::text::first;
use crate::word::Word;
use std::alloc::{AllocError, Global};

/// The words of a line, which stand between its spaces.
pub fn words(alloc: Global, line: &[u8]) -> Result<Vec<Word<'_>>, AllocError>
    ensures { IfOk result (λ words. map placed words.items ≡ words_of line.now) }
{
    let mut words = Vec::new(alloc);
    let mut start = 0;
    loop {
        let word = word_at(line, start);
        let end = start + word.text.len();
        words.push(word)?;
        if end == line.len() {
            return Ok(words);
        }
        start = end + 1;
    }
}

/// The word from `start` on, up to a space or the line's end.
fn word_at(line: &[u8], start: usize) -> Word<'_>
    requires { start ≤ length line.now }
    ensures text { result.text.now ≡ before_first is_space (drop start line.now) }
    ensures at { result.at ≡ start }
    ensures bound { start + length result.text.now ≤ length line.now }
{
    let (_, rest) = line.split_at(start);
    let (text, _) = rest.split_at(first(rest, b' '));
    Word {
        text,
        at: start as u64,
    }
}
