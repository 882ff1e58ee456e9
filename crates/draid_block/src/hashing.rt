//! The bytes that data columns hold, and their digest.
ghost use Rattle.std.specs.Prelude.{◌≡◌, ◌≤◌, ◌<◌, ◌+◌, ℕ, All, Contains, IfOk, length};
ghost use Rattle.std.specs.List.Sorted.{IsStrictlyIncreasing};
ghost use Rattle.sha2.specs.Sha256.{sha256};
ghost use Rattle.draid_spec.specs.Geometry.{IsGeometry};
ghost use Rattle.draid_parity.specs.Columns.{column_at};
ghost use Rattle.draid_block.specs.Blocks.{bytes_of, column_len, cut_of, stripe_of};
ghost use Rattle.draid_block.specs.Search.{HasRead, HasRestored, IsCandidate, IsFront};
ghost use Rattle.draid_block.specs.Solving.{IsFetched, read_of};

use crate::front::Front;
use crate::shape::part_bytes;
use crate::solve::Fetched;
use draid_names::LONGEST_BLOCK;
use draid_parity::Stripe;
use draid_spec::Geometry;
use std::alloc::{AllocError, Global};

/// The first data column of a set, counted from the first data column; as many as there are where it
/// has none.
fn first_restored(geometry: &Geometry, set: &[u32]) -> u32
    requires ascending { IsStrictlyIncreasing set.now }
    requires in_range { All (λ i. i < geometry.now.spec.parity + geometry.now.spec.ndata) set.now }
    ensures bound { result ≤ geometry.now.spec.ndata }
    ensures before { (i : ℕ) → i < result → Contains set.now (geometry.now.spec.parity + i) → ⊥ }
{
    for i in set {
        if *i >= geometry.spec.parity {
            return *i - geometry.spec.parity;
        }
    }
    geometry.spec.ndata
}

/// Brings the hasher of the columns that were read to the first column that the set restores: on
/// from where it stands, or anew where it is past it.
fn bring_front(
    geometry: &Geometry,
    fetched: &Fetched,
    stripe: &Stripe,
    front: &mut Front,
    set: &[u32],
)
    requires geometry { IsGeometry geometry.now }
    requires fetched { IsFetched (cut_of geometry.now) fetched.now }
    requires set { IsCandidate (cut_of geometry.now) fetched.now set.now }
    requires stripe { HasRestored (cut_of geometry.now) fetched.now set.now stripe.now }
    requires front { HasRead (cut_of geometry.now) fetched.now front.old }
    ensures read { HasRead (cut_of geometry.now) fetched.now front.new }
    ensures stripe { IsFront (cut_of geometry.now) fetched.now.pointer.len stripe.now.columns
        front.new }
{
    let first = first_restored(geometry, set);
    if front.count > first {
        *front = Front::new(fetched.pointer.len);
    }
    front.take_before(geometry, fetched.pointer.len, stripe, first);
}

/// The digest of the block with these columns, of which those of a set were restored.
pub fn set_digest(
    geometry: &Geometry,
    fetched: &Fetched,
    stripe: &Stripe,
    front: &mut Front,
    set: &[u32],
) -> Result<[u8; 32], AllocError>
    requires geometry { IsGeometry geometry.now }
    requires fetched { IsFetched (cut_of geometry.now) fetched.now }
    requires set { IsCandidate (cut_of geometry.now) fetched.now set.now }
    requires stripe { HasRestored (cut_of geometry.now) fetched.now set.now stripe.now }
    requires front { HasRead (cut_of geometry.now) fetched.now front.old }
    ensures digest { IfOk result (λ d. d ≡ sha256
        (bytes_of (cut_of geometry.now) fetched.now.pointer.len stripe.now.columns)) }
    ensures front { HasRead (cut_of geometry.now) fetched.now front.new }
{
    bring_front(geometry, fetched, stripe, front, set);
    let mut whole = front.clone()?;
    whole.take_before(geometry, fetched.pointer.len, stripe, geometry.spec.ndata);
    Ok(whole.digest())
}

/// The block of `len` bytes with these columns.
pub fn stripe_bytes(
    alloc: Global,
    geometry: &Geometry,
    len: u32,
    stripe: &Stripe,
) -> Result<Vec<u8>, AllocError>
    requires geometry { IsGeometry geometry.now }
    requires short { len ≤ LONGEST_BLOCK }
    requires shape { stripe.now ≡ stripe_of (cut_of geometry.now) len stripe.now.columns }
    ensures { IfOk result (λ v. v.items ≡ bytes_of (cut_of geometry.now) len stripe.now.columns) }
{
    let mut bytes = Vec::with_capacity(alloc, len as usize)?;
    let mut left = len as usize;
    for i in 0..geometry.spec.ndata {
        let column = stripe.column(geometry.spec.parity + i);
        let end = part_bytes(geometry, len, i).min(left);
        bytes.extend_from_slice(&column[..end])?;
        left -= end;
    }
    Ok(bytes)
}

/// A column that was read, nothing where it is absent.
fn read_column(columns: &[Option<Vec<u8>>], i: u32) -> &[u8]
    requires { i < length columns.now }
    ensures { result.now ≡ column_at (read_of columns.now) i }
{
    match &columns[i as usize] {
        Some(column) => column,
        None => &[],
    }
}

/// The digest of the block of `len` bytes with the columns that were read, where none is absent.
pub fn read_digest(geometry: &Geometry, len: u32, columns: &[Option<Vec<u8>>]) -> [u8; 32]
    requires geometry { IsGeometry geometry.now }
    requires short { len ≤ LONGEST_BLOCK }
    requires count { length columns.now ≡ geometry.now.spec.parity + geometry.now.spec.ndata }
    requires long { (i : ℕ) → i < length columns.now → length (column_at (read_of columns.now) i)
        ≡ column_len (cut_of geometry.now) len }
    ensures { result ≡ sha256 (bytes_of (cut_of geometry.now) len (read_of columns.now)) }
{
    let mut front = Front::new(len);
    for i in 0..geometry.spec.ndata {
        front.take(
            geometry,
            len,
            read_column(columns, geometry.spec.parity + i),
        );
    }
    front.digest()
}

/// The block of `len` bytes with the columns that were read, where none is absent.
pub fn read_bytes(
    alloc: Global,
    geometry: &Geometry,
    len: u32,
    columns: &[Option<Vec<u8>>],
) -> Result<Vec<u8>, AllocError>
    requires geometry { IsGeometry geometry.now }
    requires short { len ≤ LONGEST_BLOCK }
    requires count { length columns.now ≡ geometry.now.spec.parity + geometry.now.spec.ndata }
    requires long { (i : ℕ) → i < length columns.now → length (column_at (read_of columns.now) i)
        ≡ column_len (cut_of geometry.now) len }
    ensures { IfOk result (λ v. v.items ≡ bytes_of (cut_of geometry.now) len (read_of columns.now)) }
{
    let mut bytes = Vec::with_capacity(alloc, len as usize)?;
    let mut left = len as usize;
    for i in 0..geometry.spec.ndata {
        let end = part_bytes(geometry, len, i).min(left);
        bytes.extend_from_slice(&read_column(columns, geometry.spec.parity + i)[..end])?;
        left -= end;
    }
    Ok(bytes)
}
