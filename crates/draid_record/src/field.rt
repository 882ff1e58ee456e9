ghost use Rattle.std.specs.Prelude.{◌≡◌, ◌+◌, ◌<◌, ◌≤◌, ◌^◌, length, ◌++◌, take};
ghost use Rattle.byteorder.specs.Endian.{big_bytes};

use byteorder::{BigEndian, ByteOrder};

/// Writes a number at a place as so many bytes, the highest first.
pub(crate) fn put(bytes: &mut [u8], at: usize, width: usize, number: u64)
    requires width { (1 ≤ width) × (width ≤ 8) }
    requires room { at + width ≤ length bytes.old }
    requires fits { number < 256 ^ width }
    ensures front { take (at + width) bytes.new ≡ take at bytes.old ++ big_bytes width number }
    ensures len { length bytes.new ≡ length bytes.old }
{
    BigEndian::write_uint(&mut bytes[at..], number, width);
}
