ghost use Rattle.std.specs.Prelude.{◌≡◌, ◌≤◌, length};

use draid_gf::{inv, mul, mul_into, pow2, xor_into};

fn number(bytes: &mut [u8]) {
    for i in 0..bytes.len() {
        bytes[i] = (i % 251) as u8;
    }
}

fn add_by_kernels(to: &mut [u8], from: &[u8])
    requires { length to.old ≡ length from.now }
{
    xor_into(to, from);
    for by in 0..=255 {
        mul_into(to, by, from);
    }
}

/// What a byte becomes where another one is added, and then its product with each factor.
fn sum_of(to: u8, from: u8) -> u8 {
    let mut sum = to ^ from;
    for by in 0..=255 {
        sum ^= mul(by, from);
    }
    sum
}

fn add_by_bytes(to: &mut [u8], from: &[u8])
    requires { length to.old ≡ length from.now }
{
    for i in 0..from.len() {
        to[i] = sum_of(to[i], from[i]);
    }
}

/// Whether kernels add the same as a loop over bytes to so many bytes.
fn equals_a_loop(len: usize) -> bool
    requires { len ≤ 4096 }
{
    let mut from = [0; 4096];
    number(&mut from);
    let mut sum = from;
    let mut plain = from;
    add_by_kernels(&mut sum[..len], &from[..len]);
    add_by_bytes(&mut plain[..len], &from[..len]);
    sum == plain
}

// Every factor, at lengths round those of lanes.
#[test]
fn sums_equal_a_loop(rt: HostRuntime) {
    for len in [0, 1, 31, 32, 33, 4096] {
        assert!(rt; equals_a_loop(len), "at length {len}");
    }
}

/// Products of the worked rows, and those of H. P. Anvin, "The mathematics of RAID-6".
fn products() -> [u8; 5] {
    [
        mul(2, 0x80),
        mul(4, 0x80),
        mul(2, 0x8e),
        mul(0, 7),
        mul(1, 0xff),
    ]
}

/// Powers of 2 from there.
fn powers() -> [u8; 6] {
    [
        pow2(0),
        pow2(7),
        pow2(8),
        pow2(254),
        pow2(255),
        pow2(u32::MAX),
    ]
}

#[test]
fn known_products_and_powers(rt: HostRuntime) {
    assert!(rt; products() == [0x1d, 0x3a, 1, 0, 0xff]);
    assert!(rt; inv(2) == 0x8e && inv(1) == 1);
    assert!(rt; powers() == [1, 0x80, 0x1d, 0x8e, 1, 1]);
}
