ghost use Rattle.std.specs.Prelude.{◌≡◌, ◌+◌, ◌<◌, ◌≤◌, ◌^◌, IfOk, length};
ghost use Rattle.draid_script.specs.Line.{IsArmArgument, most_objects};
ghost use Rattle.draid_script.specs.Fault.{Gives};
ghost use Rattle.draid_script.specs.Field as spec;
ghost use Rattle.draid_script.specs.Word.{placed};

use crate::text::{decimal, hex_bytes, is_hex};
use crate::word::Word;
use crate::{ArmArgument, LineFaultKind, ParseFault, StatusFormat};
use draid_names::{LONGEST_BLOCK, NUMBERS, OBJECTS};
use std::alloc::Global;

/// The most objects that one command names.
const MOST_OBJECTS: u64 = 65_536;

const DRAID: &[u8] = b"draid";

const JSON: &[u8] = b"json";

/// A number.
pub fn number(word: &Word) -> Result<u64, ParseFault>
    ensures { Gives (λ n. n) result (spec.number_at (placed word.now)) }
{
    match decimal(word.text) {
        Some(number) => Ok(number),
        None => Err(ParseFault::line(LineFaultKind::Number, word.at)),
    }
}

/// A number from `low` on and below `limit`.
pub fn number_in(word: &Word, low: u64, limit: u64) -> Result<u64, ParseFault>
    ensures value { Gives (λ n. n) result (spec.number_in low limit (placed word.now)) }
    ensures range { IfOk result (λ n. (low ≤ n) × (n < limit)) }
{
    let number = number(word)?;
    if low <= number && number < limit {
        Ok(number)
    } else {
        Err(ParseFault::line(LineFaultKind::Range, word.at))
    }
}

/// A number below 2^32.
pub fn short_number(word: &Word) -> Result<u32, ParseFault>
    ensures { Gives (λ n. n) result (spec.short_at (placed word.now)) }
{
    let number = number_in(word, 0, 1 << 32)?;
    Ok(number as u32)
}

/// An object.
pub fn object(word: &Word) -> Result<u64, ParseFault>
    ensures value { Gives (λ n. n) result (spec.object_at (placed word.now)) }
    ensures range { IfOk result (λ n. n < OBJECTS) }
{
    number_in(word, 0, OBJECTS)
}

/// How many objects from `first` on: 1 to 65,536, and all of them below 2^32.
pub fn count(first: u64, word: &Word) -> Result<u64, ParseFault>
    requires { first < OBJECTS }
    ensures value { Gives (λ n. n) result (spec.count_at first (placed word.now)) }
    ensures range { IfOk result (λ n. (1 ≤ n) × (n ≤ most_objects) × (first + n ≤ OBJECTS)) }
{
    let count = number_in(word, 1, MOST_OBJECTS + 1)?;
    if first + count <= OBJECTS {
        Ok(count)
    } else {
        Err(ParseFault::line(LineFaultKind::Range, word.at))
    }
}

/// The bytes of a block, in a line that ends at `end`.
pub fn block(alloc: Global, end: u64, word: &Word) -> Result<Vec<u8>, ParseFault>
    ensures value { Gives (λ bytes. bytes.items) result (spec.block_at end (placed word.now)) }
    ensures range { IfOk result (λ bytes. (1 ≤ length bytes.items) × (length bytes.items ≤ LONGEST_BLOCK)) }
{
    match hex_bytes(alloc, word.text)? {
        Some(bytes) if bytes.len() as u64 <= LONGEST_BLOCK => Ok(bytes),
        Some(_) => Err(ParseFault::line(LineFaultKind::Range, word.at)),
        None => Err(ParseFault::line(LineFaultKind::Hex, hex_place(end, word))),
    }
}

/// Where the word stops to be hex digits: its first byte that is none, else the end of the line.
fn hex_place(end: u64, word: &Word) -> u64
    ensures { result ≡ spec.hex_place end (placed word.now) }
{
    for (place, byte) in word.text.iter().enumerate() {
        if !is_hex(*byte) {
            return word.at + place as u64;
        }
    }
    end
}

/// A leaf's number, or a spare's name.
pub fn arm(word: &Word) -> Result<ArmArgument, ParseFault>
    ensures value { Gives (λ arm. arm) result (spec.arm_at (placed word.now)) }
    ensures range { IfOk result (λ arm. IsArmArgument arm) }
{
    match word.text.strip_prefix(DRAID) {
        Some(text) => spare(&Word { text, at: word.at }),
        None => {
            let leaf = number_in(word, 0, NUMBERS)?;
            Ok(ArmArgument::Leaf { leaf })
        }
    }
}

/// What stands behind `draid` in the name of a spare: its parity, `-0-` and its number.
fn spare(name: &Word) -> Result<ArmArgument, ParseFault>
    ensures value { Gives (λ arm. arm) result (spec.spare_behind name.now.at name.now.text.now) }
    ensures range { IfOk result (λ arm. IsArmArgument arm) }
{
    match name.text {
        [parity @ b'1'..=b'3', b'-', b'0', b'-', text @ ..] => {
            let spare = short_number(&Word { text, at: name.at })?;
            let parity = u32::from(*parity - b'0');
            Ok(ArmArgument::Spare { parity, spare })
        }
        _ => Err(ParseFault::line(LineFaultKind::Number, name.at)),
    }
}

/// The word `json`.
pub fn format(word: &Word) -> Result<StatusFormat, ParseFault>
    ensures { Gives (λ format. format) result (spec.format_at (placed word.now)) }
{
    if word.text == JSON {
        Ok(StatusFormat::Json)
    } else {
        Err(ParseFault::line(LineFaultKind::Number, word.at))
    }
}
