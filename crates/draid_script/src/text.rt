ghost use Rattle.std.specs.Prelude.{◌≡◌, ◌==◌, ◌≤◌, IfOk, IfSome, drop, length, option_map};
ghost use Rattle.std.specs.List.{position_or_len};
ghost use Rattle.hex.specs.Hex.{is_hex_digit};
ghost use Rattle.draid_script.specs.Word as spec;

use draid_names::NoMemory;
use hex::FromHexError;
use std::alloc::Global;
use std::str;

/// The number below 2^64 that the text is in decimal digits, without a sign or a leading zero.
pub fn decimal(text: &[u8]) -> Option<u64>
    ensures { result ≡ spec.number_of text.now }
{
    if !begins_number(text) {
        return None;
    }
    match str::from_utf8(text) {
        Ok(text) => text.parse().ok(),
        Err(_) => None,
    }
}

/// Whether the text is `0` alone, or has a digit 1 to 9 at the front.
fn begins_number(text: &[u8]) -> bool
    ensures { result ≡ spec.begins_number text.now }
{
    match text {
        [] => false,
        [b'0'] => true,
        [digit, ..] => (b'1'..=b'9').contains(digit),
    }
}

/// The bytes that the text is in pairs of hex digits of either case, at least one pair.
#[tactic(auto, unfolding(crate::specs::Word::bytes_of), using(crate::proofs::Pairs::decodes_some))]
pub fn hex_bytes(alloc: Global, text: &[u8]) -> Result<Option<Vec<u8>>, NoMemory>
    ensures value { IfOk result (λ found. option_map (λ bytes. bytes.items) found ≡ spec.bytes_of text.now) }
    ensures some { IfOk result (λ found. IfSome found (λ bytes. 1 ≤ length bytes.items)) }
{
    if text.is_empty() {
        return Ok(None);
    }
    match hex::decode(alloc, text) {
        Ok(bytes) => Ok(Some(bytes)),
        Err(FromHexError::OutOfMemory) => Err(NoMemory),
        Err(_) => Ok(None),
    }
}

/// How many bytes stand before the first of this value, or how many there are.
pub fn first(bytes: &[u8], wanted: u8) -> usize
    ensures value { result ≡ position_or_len (λ byte. byte == wanted) bytes.now }
    ensures bound { result ≤ length bytes.now }
{
    for (place, byte) in bytes.iter().enumerate() {
        if *byte == wanted {
            return place;
        }
    }
    bytes.len()
}

/// The bytes without the first, if there is one.
pub fn without_first(bytes: &[u8]) -> &[u8]
    ensures { result.now ≡ drop 1 bytes.now }
{
    match bytes {
        [_, rest @ ..] => rest,
        [] => bytes,
    }
}

/// Whether the byte is a hex digit of either case.
pub fn is_hex(byte: u8) -> bool
    ensures { result ≡ is_hex_digit byte }
{
    byte.is_ascii_hexdigit()
}
