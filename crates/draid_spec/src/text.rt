ghost use Rattle.std.specs.Prelude.{◌≡◌, ◌+◌, ◌<◌, ◌≤◌, ◌^◌, IfOk, OnOk, true};
ghost use Rattle.draid_spec.specs.Spec.{IsSpec, need_of, have_of};
ghost use Rattle.draid_spec.specs.Said.{IsSaid, adding, checked_children, checked_limits, is_letter, spec_of, spec_checked};
ghost use Rattle.draid_spec.specs.Text.{IsReading, arguments, letters_of, opened, read_byte, said_by, spec_by, with_digit};

use crate::numbers::{check_width, limit, most_children};
use crate::spec::{Spec, SpecFault};

/// What a text says: the parity, and the number that stands before each letter.
#[derive(Clone, Copy)]
pub struct Said {
    pub parity: u32,
    pub ndata: Option<u32>,
    pub children: Option<u32>,
    pub spares: Option<u32>,
}

/// The digits of an argument so far, and their number.
#[derive(Clone, Copy)]
pub struct Digits {
    pub count: u32,
    pub value: u32,
}

/// How far a text was read: what it said, and the digits of the argument that has begun.
#[derive(Clone, Copy)]
pub struct Reading {
    pub said: Said,
    pub digits: Option<Digits>,
}

/// Reads the text of a spec for so many children: `draid`, a digit for the parity, and arguments as
/// `:4d` in any order. Without them the parity is 1, there are no spares, and the data columns are 8
/// or as many as are left. The text is looked at from left to right, then the number of children that
/// it says, the limits (`c`, `s`, `d`), and the width. Version 1 has at most 32 children, any other 64.
pub fn parse_spec(text: &[u8], given: u32, version: u32) -> Result<Spec, SpecFault>
    ensures exact { result ≡ spec_by text.now given version }
    ensures ranges { IfOk result (IsSpec version) }
    ensures width { IfOk result (λ spec. need_of spec ≤ have_of spec) }
    ensures children { IfOk result (λ spec. spec.children ≡ given) }
{
    check(read_text(text)?, given, version)
}

/// Reads what the text says.
fn read_text(text: &[u8]) -> Result<Said, SpecFault>
    ensures exact { result ≡ said_by text.now }
    ensures ranges { IfOk result IsSaid }
{
    let Some(rest) = text.strip_prefix(b"draid") else {
        return Err(SpecFault::NotDraid);
    };
    match rest {
        [digit @ b'1'..=b'3', rest @ ..] => read_arguments(u32::from(*digit - b'0'), 6, rest),
        [b'0'..=b'9', ..] => Err(SpecFault::Parity),
        _ => read_arguments(1, 5, rest),
    }
}

/// Reads the arguments, which stand from byte `from` on.
fn read_arguments(parity: u32, from: u32, text: &[u8]) -> Result<Said, SpecFault>
    requires some { 1 ≤ parity }
    requires most { parity ≤ 3 }
    requires from { from ≤ 6 }
    ensures exact { result ≡ arguments (opened parity) from text.now }
    ensures ranges { IfOk result IsSaid }
{
    let mut reading = Reading::open(parity);
    let mut at = from;
    for byte in text {
        reading = reading.after(*byte, at)?;
        at += 1;
    }
    match reading.digits {
        None => Ok(reading.said),
        Some(_) => Err(SpecFault::Number { at }),
    }
}

/// The spec that is meant for so many children and a version.
fn check(said: Said, given: u32, version: u32) -> Result<Spec, SpecFault>
    requires { IsSaid said }
    ensures exact { result ≡ spec_checked said given version }
    ensures ranges { IfOk result (IsSpec version) }
    ensures width { IfOk result (λ spec. need_of spec ≤ have_of spec) }
    ensures children { IfOk result (λ spec. spec.children ≡ given) }
{
    said.check_children(given)?;
    said.check_limits(given, version)?;
    let spec = said.spec(given);
    check_width(spec)?;
    Ok(spec)
}

impl Reading {
    /// Before the first argument.
    fn open(parity: u32) -> Reading
        ensures { result ≡ opened parity }
    {
        Reading {
            said: Said {
                parity,
                ndata: None,
                children: None,
                spares: None,
            },
            digits: None,
        }
    }

    /// Reads one byte more, the text's byte `at`.
    fn after(self, byte: u8, at: u32) -> Result<Reading, SpecFault>
        requires { IsReading self at }
        ensures exact { result ≡ read_byte self.said self.digits at byte }
        ensures keeps { IfOk result (λ reading. IsReading reading (at + 1)) }
    {
        match self.digits {
            None if byte == b':' => Ok(Reading {
                said: self.said,
                digits: Some(Digits { count: 0, value: 0 }),
            }),
            Some(digits) if byte.is_ascii_digit() && digits.count < 9 => Ok(Reading {
                said: self.said,
                digits: Some(digits.with(byte)),
            }),
            Some(digits) if letter(byte) && digits.count > 0 => Ok(Reading {
                said: self.said.with(byte, digits.value)?,
                digits: None,
            }),
            _ => Err(SpecFault::Number { at }),
        }
    }
}

impl Digits {
    /// One digit more.
    fn with(self, digit: u8) -> Digits
        requires least { 48 ≤ digit }
        requires most { digit ≤ 57 }
        requires count { self.count < 9 }
        requires value { self.value < 10 ^ self.count }
        ensures exact { result ≡ with_digit self digit }
        ensures value { result.value < 10 ^ result.count }
    {
        Digits {
            count: self.count + 1,
            value: self.value * 10 + u32::from(digit - b'0'),
        }
    }
}

/// Whether a byte is the letter of an argument.
fn letter(byte: u8) -> bool
    ensures { result ≡ is_letter byte }
{
    matches!(byte, b'd' | b'c' | b's')
}

impl Said {
    /// Adds the number that stands before a letter.
    fn with(self, letter: u8, value: u32) -> Result<Said, SpecFault>
        requires said { IsSaid self }
        requires letter { is_letter letter ≡ true }
        requires value { value ≤ 999999999 }
        ensures exact { result ≡ adding self letter value }
        ensures ranges { IfOk result IsSaid }
        ensures count { IfOk result (λ said. letters_of said ≡ letters_of self + 1) }
    {
        match letter {
            b'd' if self.ndata.is_none() => Ok(Said {
                ndata: Some(value),
                ..self
            }),
            b'c' if self.children.is_none() => Ok(Said {
                children: Some(value),
                ..self
            }),
            b's' if self.spares.is_none() => Ok(Said {
                spares: Some(value),
                ..self
            }),
            _ => Err(SpecFault::Repeated { letter }),
        }
    }

    /// Refuses another number of children than the text says.
    fn check_children(self, given: u32) -> Result<(), SpecFault>
        ensures { result ≡ checked_children self.children given }
    {
        match self.children {
            Some(said) if said != given => Err(SpecFault::Children { said, given }),
            _ => Ok(()),
        }
    }

    /// Refuses the first number that is out of its limits for a version.
    fn check_limits(self, given: u32, version: u32) -> Result<(), SpecFault>
        ensures exact { result ≡ checked_limits self given version }
        ensures least { OnOk result (2 ≤ given) }
        ensures most { OnOk result (given ≤ 64) }
        ensures first { version ≡ 1 → OnOk result (given ≤ 32) }
        ensures spares { OnOk result ((spec_of self given).spares ≤ 4) }
        ensures data { OnOk result (1 ≤ (spec_of self given).ndata) }
    {
        if given < 2 || given > most_children(version) {
            return Err(limit(b'c', given));
        }
        let spares = self.spares.unwrap_or(0);
        if spares > 4 {
            return Err(limit(b's', spares));
        }
        if self.ndata == Some(0) {
            return Err(limit(b'd', 0));
        }
        Ok(())
    }

    /// The spec that is meant for so many children.
    fn spec(self, given: u32) -> Spec
        requires { IsSaid self }
        ensures exact { result ≡ spec_of self given }
        ensures most { result.ndata ≤ 999999999 }
    {
        let spares = self.spares.unwrap_or(0);
        let left = given.saturating_sub(self.parity + spares);
        Spec {
            parity: self.parity,
            ndata: self.ndata.unwrap_or(left.clamp(1, 8)),
            children: given,
            spares,
        }
    }
}
