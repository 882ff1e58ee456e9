ghost use Rattle.std.specs.Prelude.{◌≡◌, ◌<◌, ◌≤◌, All, IfOk, length};
ghost use Rattle.std.specs.List.Sorted.{IsStrictlyIncreasing};

use draid_gf::{mul, pow2};
use draid_parity::Stripe;
use std::alloc::{AllocError, Global};

/// The parity of a worked row.
fn encoded(alloc: Global) -> Result<[u8; 3], AllocError> {
    let mut stripe = Stripe::new(alloc, 3, 2, 1)?;
    stripe.column_mut(3)[0] = 0x80;
    stripe.encode();
    Ok([
        stripe.column(0)[0],
        stripe.column(1)[0],
        stripe.column(2)[0],
    ])
}

/// The missing columns 0, 3 and 4 of a worked row.
fn solved(alloc: Global) -> Result<[u8; 3], AllocError> {
    let mut stripe = Stripe::new(alloc, 3, 2, 1)?;
    stripe.column_mut(1)[0] = 0x00;
    stripe.column_mut(2)[0] = 0x06;
    stripe.solve(&[0, 3, 4]);
    Ok([
        stripe.column(0)[0],
        stripe.column(3)[0],
        stripe.column(4)[0],
    ])
}

#[test]
fn worked_rows(rt: HostRuntime) {
    assert!(rt; encoded(rt.alloc()) == Ok([0x80, 0x1d, 0x3a]));
    assert!(rt; solved(rt.alloc()) == Ok([0x03, 0x01, 0x02]));
}

static EXAMPLE: [[u8; 4]; 5] = [
    [0x8a, 0x00, 0x5d, 0xf1],
    [0x13, 0xff, 0x5d, 0x02],
    [0xc7, 0x80, 0x5d, 0x9e],
    [0x44, 0x01, 0x5d, 0x6b],
    [0xe0, 0x7f, 0x5d, 0x35],
];

/// Five data columns with those bytes.
fn example(alloc: Global) -> Result<Stripe, AllocError>
    ensures parity { IfOk result (λ stripe. stripe.parity ≡ 3) }
    ensures ndata { IfOk result (λ stripe. stripe.ndata ≡ 5) }
    ensures len { IfOk result (λ stripe. stripe.len ≡ 4) }
{
    let mut stripe = Stripe::new(alloc, 3, 5, 4)?;
    for i in 0..5 {
        stripe
            .column_mut(3 + i)
            .copy_from_slice(&EXAMPLE[i as usize]);
    }
    stripe.encode();
    Ok(stripe)
}

/// Writes other bytes to the missing columns and solves them.
fn solve_anew(stripe: &mut Stripe, missing: &[u32])
    requires parity { stripe.old.parity ≡ 3 }
    requires ndata { stripe.old.ndata ≡ 5 }
    requires few { length missing.now ≤ 3 }
    requires ascending { IsStrictlyIncreasing missing.now }
    requires in_range { All (λ i. i < 8) missing.now }
    ensures parity { stripe.new.parity ≡ 3 }
    ensures ndata { stripe.new.ndata ≡ 5 }
{
    for i in missing {
        stripe.column_mut(*i).fill(0xa5);
    }
    stripe.solve(missing);
}

/// Whether the columns of two stripes are the same.
fn are_same(stripe: &Stripe, other: &Stripe) -> bool
    requires parity { (stripe.now.parity ≡ 3) × (other.now.parity ≡ 3) }
    requires ndata { (stripe.now.ndata ≡ 5) × (other.now.ndata ≡ 5) }
{
    for i in 0..8 {
        if stripe.column(i) != other.column(i) {
            return false;
        }
    }
    true
}

/// Whether a stripe is the example.
fn is_example(alloc: Global, stripe: &Stripe) -> bool
    requires parity { stripe.now.parity ≡ 3 }
    requires ndata { stripe.now.ndata ≡ 5 }
{
    match example(alloc) {
        Ok(whole) => are_same(stripe, &whole),
        Err(_) => false,
    }
}

// Whether the missing columns come back after other bytes were written to them.
fn comes_back(alloc: Global, missing: &[u32]) -> bool
    requires few { length missing.now ≤ 3 }
    requires ascending { IsStrictlyIncreasing missing.now }
    requires in_range { All (λ i. i < 8) missing.now }
{
    match example(alloc) {
        Ok(mut stripe) => {
            solve_anew(&mut stripe, missing);
            is_example(alloc, &stripe)
        }
        Err(_) => false,
    }
}

/// Whether these two columns and any behind them come back.
fn three_come_back(alloc: Global, x: u32, y: u32) -> bool
    requires order { x < y }
    requires in_range { y < 8 }
{
    for z in y + 1..8 {
        if !comes_back(alloc, &[x, y, z]) {
            return false;
        }
    }
    true
}

/// Whether this column and up to two behind it come back.
fn up_to_three_come_back(alloc: Global, x: u32) -> bool
    requires { x < 8 }
{
    for y in x + 1..8 {
        if !comes_back(alloc, &[x, y]) || !three_come_back(alloc, x, y) {
            return false;
        }
    }
    comes_back(alloc, &[x])
}

#[test]
fn any_three_come_back(rt: HostRuntime) {
    for x in 0..8 {
        assert!(rt; up_to_three_come_back(rt.alloc(), x), "{x}");
    }
}

// Two data columns of 33 equal bytes, which is a vector of 32 and one byte more.
fn of_equal_bytes(alloc: Global, bytes: [u8; 2]) -> Result<Stripe, AllocError>
    ensures parity { IfOk result (λ stripe. stripe.parity ≡ 3) }
{
    let mut stripe = Stripe::new(alloc, 3, 2, 33)?;
    stripe.column_mut(3).fill(bytes[0]);
    stripe.column_mut(4).fill(bytes[1]);
    stripe.encode();
    Ok(stripe)
}

/// Whether the three sums are of these bytes.
fn are_of(stripe: &Stripe, sums: &[u8; 3]) -> bool
    requires { stripe.now.parity ≡ 3 }
{
    for k in 0..3 {
        if stripe.column(k) != [sums[k as usize]; 33].as_slice() {
            return false;
        }
    }
    true
}

/// Whether the three sums of such columns have these bytes.
fn has_sums(alloc: Global, bytes: [u8; 2], sums: &[u8; 3]) -> bool {
    match of_equal_bytes(alloc, bytes) {
        Ok(stripe) => are_of(&stripe, sums),
        Err(_) => false,
    }
}

#[test]
fn equal_bytes_have_equal_sums(rt: HostRuntime) {
    assert!(rt; has_sums(rt.alloc(), [0x01, 0x02], &[0x03, 0x00, 0x06]));
    assert!(rt; has_sums(rt.alloc(), [0x80, 0x00], &[0x80, 0x1d, 0x3a]));
}

fn number_bytes(bytes: &mut [u8], seed: usize) {
    for j in 0..bytes.len() {
        bytes[j] = ((j % 251 + 37 * (seed % 251)) % 256) as u8;
    }
}

// Eight data columns of a vector of 64 bytes, and 36 bytes more.
fn wide(alloc: Global, parity: u32) -> Result<Stripe, AllocError>
    requires some { 1 ≤ parity }
    requires most { parity ≤ 3 }
    ensures parity { IfOk result (λ stripe. stripe.parity ≡ parity) }
    ensures ndata { IfOk result (λ stripe. stripe.ndata ≡ 8) }
{
    let mut stripe = Stripe::new(alloc, parity, 8, 100)?;
    for i in 0..8 {
        number_bytes(stripe.column_mut(parity + i), i as usize);
    }
    stripe.encode();
    Ok(stripe)
}

// The sum as it is defined, byte by byte.
fn plain_sum(stripe: &Stripe, parity: u32, k: u32, j: usize) -> u8
    requires parity { stripe.now.parity ≡ parity }
    requires most { parity ≤ 3 }
    requires ndata { stripe.now.ndata ≡ 8 }
{
    let mut sum = 0;
    for i in parity..parity + 8 {
        let byte = stripe.column(i).get(j).copied().unwrap_or(0);
        sum = mul(pow2(k), sum) ^ byte;
    }
    sum
}

fn sum_is_plain(stripe: &Stripe, parity: u32, k: u32) -> bool
    requires parity { stripe.now.parity ≡ parity }
    requires most { parity ≤ 3 }
    requires ndata { stripe.now.ndata ≡ 8 }
    requires kind { k < parity }
{
    for (j, byte) in stripe.column(k).iter().enumerate() {
        if *byte != plain_sum(stripe, parity, k, j) {
            return false;
        }
    }
    true
}

fn sums_are_plain(stripe: &Stripe, parity: u32) -> bool
    requires parity { stripe.now.parity ≡ parity }
    requires most { parity ≤ 3 }
    requires ndata { stripe.now.ndata ≡ 8 }
{
    for k in 0..parity {
        if !sum_is_plain(stripe, parity, k) {
            return false;
        }
    }
    true
}

/// Whether a stripe of so many parity columns has those sums.
fn has_plain_sums(alloc: Global, parity: u32) -> bool
    requires some { 1 ≤ parity }
    requires most { parity ≤ 3 }
{
    match wide(alloc, parity) {
        Ok(stripe) => sums_are_plain(&stripe, parity),
        Err(_) => false,
    }
}

#[test]
fn vectors_have_the_sums_of_single_bytes(rt: HostRuntime) {
    for parity in 1..4 {
        assert!(rt; has_plain_sums(rt.alloc(), parity), "{parity}");
    }
}

/// Whether two columns of ten are as they were made.
fn are_made(alloc: Global, stripe: &Stripe, x: u32, y: u32) -> bool
    requires numbers { (stripe.now.parity ≡ 2) × (stripe.now.ndata ≡ 8) }
    requires in_range { (x < 10) × (y < 10) }
{
    match wide(alloc, 2) {
        Ok(whole) => stripe.column(x) == whole.column(x) && stripe.column(y) == whole.column(y),
        Err(_) => false,
    }
}

/// Writes other bytes to two columns of ten and solves them.
fn solve_two_anew(stripe: &mut Stripe, x: u32, y: u32)
    requires numbers { (stripe.old.parity ≡ 2) × (stripe.old.ndata ≡ 8) }
    requires order { x < y }
    requires in_range { y < 10 }
    ensures { (stripe.new.parity ≡ 2) × (stripe.new.ndata ≡ 8) }
{
    stripe.column_mut(x).fill(0xa5);
    stripe.column_mut(y).fill(0xa5);
    stripe.solve(&[x, y]);
}

// Whether two missing columns of ten come back.
fn two_come_back(alloc: Global, x: u32, y: u32) -> bool
    requires order { x < y }
    requires in_range { y < 10 }
{
    match wide(alloc, 2) {
        Ok(mut stripe) => {
            solve_two_anew(&mut stripe, x, y);
            are_made(alloc, &stripe, x, y)
        }
        Err(_) => false,
    }
}

#[test]
fn two_of_ten_come_back(rt: HostRuntime) {
    for x in 0..10 {
        for y in x + 1..10 {
            assert!(rt; two_come_back(rt.alloc(), x, y), "{x} {y}");
        }
    }
}
