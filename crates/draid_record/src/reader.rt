ghost use Rattle.std.specs.Prelude.{◌≡◌, ◌<◌, ◌≤◌, ◌^◌, Ok, IfOk, is_err, length};
ghost use Rattle.byteorder.specs.Endian.{big_number};
ghost use Rattle.draid_record.specs.Grammar as grammar;
ghost use Rattle.draid_record.specs.Reader.{Reads, Took, state_of};
ghost use Rattle.draid_record.specs.Reading.{Tells};

use crate::fault::{Fault, RecordFaultKind};
use byteorder::{BigEndian, ByteOrder};

/// The bytes that are still to be read, up to the first fault. Behind a fault each number that is read is 0.
#[derive(Drop)]
pub(crate) struct Reader<'a> {
    bytes: &'a [u8],
    fault: Option<Fault>,
}

impl<'a> Reader<'a> {
    pub(crate) fn new(bytes: &'a [u8]) -> Reader<'a>
        ensures { state_of result ≡ Ok bytes.now }
    {
        Reader { bytes, fault: None }
    }

    /// The bytes that are still to be read, or the first fault.
    pub(crate) fn left(&self) -> Result<&'a [u8], Fault>
        ensures { Tells (λ x. x.now) result (state_of self.now) }
    {
        match self.fault {
            None => Ok(self.bytes),
            Some(fault) => Err(fault),
        }
    }

    pub(crate) fn has_failed(&self) -> bool
        ensures { result ≡ is_err (state_of self.now) }
    {
        self.fault.is_some()
    }

    /// A number of so many bytes, the highest first, from `low` to `high`.
    pub(crate) fn number(&mut self, width: usize, low: u64, high: u64) -> u64
        requires { (1 ≤ width) × (width ≤ 8) }
        ensures reads { Reads (state_of self.old) (state_of self.new) result (grammar.number width low high) }
        ensures low { IfOk (state_of self.new) (λ _. low ≤ result) }
        ensures high { result ≤ high }
        ensures small { result < 256 ^ width }
        ensures took { Took width (state_of self.old) (state_of self.new) }
    {
        if self.fault.is_some() {
            return 0;
        }
        let bytes = self.bytes;
        let left = bytes.len();
        if left < width {
            self.fault = Some(Fault {
                left,
                kind: RecordFaultKind::Cut,
            });
            return 0;
        }
        let number = first_number(bytes, width);
        if number < low || high < number {
            self.fault = Some(Fault {
                left,
                kind: RecordFaultKind::Range,
            });
            return 0;
        }
        self.bytes = bytes.split_at(width).1;
        number
    }

    /// A number of so many bytes, which is this one.
    pub(crate) fn exactly(&mut self, width: usize, value: u64)
        requires { (1 ≤ width) × (width ≤ 8) }
        ensures reads { Reads (state_of self.old) (state_of self.new) value (grammar.number width value value) }
        ensures took { Took width (state_of self.old) (state_of self.new) }
    {
        self.number(width, value, value);
    }

    /// A digest.
    pub(crate) fn digest(&mut self) -> [u8; 32]
        ensures { Reads (state_of self.old) (state_of self.new) result (grammar.text 32) }
    {
        let mut digest = [0u8; 32];
        if self.fault.is_some() {
            return digest;
        }
        let left = self.bytes.len();
        if left < 32 {
            self.fault = Some(Fault {
                left,
                kind: RecordFaultKind::Cut,
            });
            return digest;
        }
        let (front, rest) = self.bytes.split_at(32);
        digest.copy_from_slice(front);
        self.bytes = rest;
        digest
    }

    /// A test of the field that begins so many bytes before this place.
    pub(crate) fn check(&mut self, holds: bool, back: usize)
        requires { back < 2 ^ 48 }
        ensures { Reads (state_of self.old) (state_of self.new) tt (grammar.check holds back) }
    {
        if holds || self.fault.is_some() {
            return;
        }
        let left = self.bytes.len() + back;
        self.fault = Some(Fault {
            left,
            kind: RecordFaultKind::Range,
        });
    }
}

/// The number of so many bytes at the front, the highest first.
fn first_number(bytes: &[u8], width: usize) -> u64
    requires width { (1 ≤ width) × (width ≤ 8) }
    requires room { width ≤ length bytes.now }
    ensures number { result ≡ big_number width bytes.now }
    ensures small { result < 256 ^ width }
{
    BigEndian::read_uint(bytes, width)
}
