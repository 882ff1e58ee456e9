//! The search for the columns of a block that are missing or wrong.
ghost use Rattle.std.specs.Prelude.{◌≡◌, ◌≢◌, ◌≤◌, ◌<◌, ◌+◌, ◌^◌, [], ◌∷◌, ℕ, All, Some};
ghost use Rattle.std.specs.Prelude.{IfOk, OnOk, length, slice_get};
ghost use Rattle.std.specs.declared.vec.Vec.{Vec};
ghost use Rattle.std.specs.declared.alloc.Global.{Global};
ghost use Rattle.draid_spec.specs.Geometry.{IsGeometry};
ghost use Rattle.draid_parity.specs.Columns.{column_at};
ghost use Rattle.draid_block.specs.Blocks.{cut_of};
ghost use Rattle.draid_block.specs.Order.{covering, covers};
ghost use Rattle.draid_block.specs.Solving.{FailsOf, IsFetched, SolvesBlock, absent_columns, sets_of};
ghost use Rattle.draid_block.specs.Search.{HoldsAll, IsBegun, IsCandidate, IsReady, IsSearch, NoneYet};
ghost use Rattle.draid_block.specs.Search.{TriesRead, TriesSet, TriesSets, cut_in, first_sets, sets_on};

use crate::front::Front;
use crate::hashing::{read_bytes, read_digest, set_digest, stripe_bytes};
use crate::shape::column_bytes;
use crate::solve::{Fetched, SolveFault};
use draid_parity::Stripe;
use draid_spec::Geometry;
use std::alloc::{AllocError, Global};

/// The columns that are absent, in order.
pub fn absent_of(alloc: Global, columns: &[Option<Vec<u8>>]) -> Result<Vec<u32>, AllocError>
    requires { length columns.now ≤ 1000 }
    ensures { IfOk result (λ v. v.items ≡ absent_columns columns.now) }
{
    let mut absent = Vec::new(alloc);
    for (i, column) in columns.iter().enumerate() {
        if column.is_none() {
            absent.push(i as u32)?;
        }
    }
    Ok(absent)
}

/// Whether a set of columns has all that are absent.
fn has_all(set: &[u32], absent: &[u32]) -> bool
    ensures { result ≡ covers absent.now set.now }
{
    for i in absent {
        if !set.contains(i) {
            return false;
        }
    }
    true
}

/// Writes what was read of column `i` to the stripe, if anything was.
fn put_column(stripe: &mut Stripe, columns: &[Option<Vec<u8>>], i: u32)
    requires there { i < length columns.now }
    requires in_range { i < stripe.old.parity + stripe.old.ndata }
    requires count { length stripe.old.columns ≡ stripe.old.parity + stripe.old.ndata }
    requires long { (c : Vec ℕ Global) → slice_get columns.now i ≡ Some (Some c)
        → length c.items ≡ stripe.old.len }
    ensures shape { stripe.new ≡ record stripe.old { columns = stripe.new.columns } }
    ensures count { length stripe.new.columns ≡ length stripe.old.columns }
    ensures held { (c : Vec ℕ Global) → slice_get columns.now i ≡ Some (Some c)
        → column_at stripe.new.columns i ≡ c.items }
    ensures others { (k : ℕ) → k ≢ i → column_at stripe.new.columns k
        ≡ column_at stripe.old.columns k }
{
    if let Some(column) = &columns[i as usize] {
        stripe.column_mut(i).copy_from_slice(column);
    }
}

/// A stripe that has the columns that were read.
fn held_stripe(alloc: Global, geometry: &Geometry, fetched: &Fetched) -> Result<Stripe, AllocError>
    requires geometry { IsGeometry geometry.now }
    requires fetched { IsFetched (cut_of geometry.now) fetched.now }
    ensures { IfOk result (λ stripe. HoldsAll (cut_of geometry.now) fetched.now stripe) }
{
    let mut stripe = Stripe::new(
        alloc,
        geometry.spec.parity,
        geometry.spec.ndata,
        column_bytes(geometry, fetched.pointer.len),
    )?;
    for i in 0..geometry.spec.parity + geometry.spec.ndata {
        put_column(&mut stripe, &fetched.columns, i);
    }
    Ok(stripe)
}

/// A block that was read, whose missing columns are searched.
#[derive(Clone, Copy)]
pub struct Search<'a> {
    geometry: &'a Geometry,
    fetched: &'a Fetched,
    /// The columns that are absent, in order.
    absent: &'a [u32],
}

/// The stripe in which sets are tried, the hasher of its first columns, and how many were tried.
#[derive(Drop)]
pub struct Attempts {
    stripe: Stripe,
    front: Front,
    tried: u64,
}

/// Tries one set of missing columns.
fn try_set(
    alloc: Global,
    search: &Search,
    attempts: &mut Attempts,
    set: &[u32],
) -> Result<Option<Vec<u8>>, AllocError>
    requires search { IsSearch search.now }
    requires ready { IsReady (cut_in search.now) search.now.fetched.now attempts.old }
    requires set { IsCandidate (cut_in search.now) search.now.fetched.now set.now }
    ensures tries { TriesSet (cut_in search.now) search.now.fetched.now set.now attempts.new result }
    ensures tried { attempts.new.tried ≡ attempts.old.tried }
{
    let Search {
        geometry,
        fetched,
        ..
    } = *search;
    attempts.stripe.solve(set);
    let stripe = &attempts.stripe;
    if set_digest(geometry, fetched, stripe, &mut attempts.front, set)? == fetched.pointer.digest {
        let bytes = stripe_bytes(alloc, geometry, fetched.pointer.len, stripe)?;
        return Ok(Some(bytes));
    }
    for i in set {
        put_column(&mut attempts.stripe, &fetched.columns, *i);
    }
    Ok(None)
}

/// Tries a set if it has all columns that are absent.
fn try_candidate(
    alloc: Global,
    search: &Search,
    attempts: &mut Attempts,
    set: &[u32],
) -> Result<Option<Vec<u8>>, AllocError>
    requires search { IsSearch search.now }
    requires ready { IsReady (cut_in search.now) search.now.fetched.now attempts.old }
    requires set { IsBegun (cut_in search.now) set.now 0
        (search.now.geometry.now.spec.parity + search.now.geometry.now.spec.ndata) }
    requires room { attempts.old.tried
        + length (covering search.now.absent.now (set.now ∷ [])) < 2 ^ 64 }
    ensures { TriesSets (cut_in search.now) search.now.fetched.now
        (covering search.now.absent.now (set.now ∷ []))
        attempts.new attempts.old.tried attempts.new.tried result }
{
    if !has_all(set, search.absent) {
        return Ok(None);
    }
    attempts.tried += 1;
    try_set(alloc, search, attempts, set)
}

/// Tries the sets that begin so, and have `size` more columns from `first` on.
fn try_sets(
    alloc: Global,
    search: &Search,
    attempts: &mut Attempts,
    begun: &mut Vec<u32>,
    size: u32,
    first: u32,
) -> Result<Option<Vec<u8>>, AllocError>
    requires search { IsSearch search.now }
    requires ready { IsReady (cut_in search.now) search.now.fetched.now attempts.old }
    requires begun { IsBegun (cut_in search.now) begun.old.items size first }
    requires room { attempts.old.tried
        + length (sets_on (cut_in search.now) search.now.absent.now begun.old.items size first)
        < 2 ^ 64 }
    ensures tries { TriesSets (cut_in search.now) search.now.fetched.now
        (sets_on (cut_in search.now) search.now.absent.now begun.old.items size first)
        attempts.new attempts.old.tried attempts.new.tried result }
    ensures begun { OnOk result (begun.new.items ≡ begun.old.items) }
{
    if size == 0 {
        return try_candidate(alloc, search, attempts, begun);
    }
    if first == search.geometry.spec.parity + search.geometry.spec.ndata {
        return Ok(None);
    }
    begun.push(first)?;
    let found = try_sets(alloc, search, attempts, begun, size - 1, first + 1)?;
    begun.pop();
    match found {
        Some(bytes) => Ok(Some(bytes)),
        None => try_sets(alloc, search, attempts, begun, size, first + 1),
    }
}

/// Tries the columns as they were read, where none is absent.
fn try_read(alloc: Global, search: &Search) -> Result<Option<Vec<u8>>, AllocError>
    requires search { IsSearch search.now }
    ensures { TriesRead (cut_in search.now) search.now.fetched.now result }
{
    let Search {
        geometry,
        fetched,
        absent,
    } = *search;
    if !absent.is_empty() {
        return Ok(None);
    }
    let len = fetched.pointer.len;
    if read_digest(geometry, len, &fetched.columns) == fetched.pointer.digest {
        return Ok(Some(read_bytes(alloc, geometry, len, &fetched.columns)?));
    }
    Ok(None)
}

/// The stripe before sets with members are tried.
fn begin(alloc: Global, search: &Search) -> Result<Attempts, AllocError>
    requires search { IsSearch search.now }
    requires failed { All (FailsOf (cut_in search.now) search.now.fetched.now)
        (first_sets (cut_in search.now) search.now.fetched.now) }
    ensures { IfOk result (NoneYet (cut_in search.now) search.now.fetched.now
        (first_sets (cut_in search.now) search.now.fetched.now)) }
{
    let stripe = held_stripe(alloc, search.geometry, search.fetched)?;
    Ok(Attempts {
        stripe,
        front: Front::new(search.fetched.pointer.len),
        tried: if search.absent.is_empty() { 1 } else { 0 },
    })
}

/// Tries the sets with members, by size, and those of one size in lexicographic order.
fn try_all(
    alloc: Global,
    search: &Search,
    attempts: &mut Attempts,
) -> Result<Option<Vec<u8>>, AllocError>
    requires search { IsSearch search.now }
    requires none { NoneYet (cut_in search.now) search.now.fetched.now
        (first_sets (cut_in search.now) search.now.fetched.now) attempts.old }
    ensures { TriesSets (cut_in search.now) search.now.fetched.now
        (sets_of (cut_in search.now) search.now.fetched.now)
        attempts.new 0 attempts.new.tried result }
{
    let mut begun = Vec::with_capacity(alloc, search.geometry.spec.parity as usize)?;
    for size in 1..search.geometry.spec.parity + 1 {
        match try_sets(alloc, search, attempts, &mut begun, size, 0)? {
            Some(bytes) => return Ok(Some(bytes)),
            None => {}
        }
    }
    Ok(None)
}

/// Solves a block, of which these columns are absent.
pub fn solve_absent(
    alloc: Global,
    geometry: &Geometry,
    fetched: &Fetched,
    absent: &[u32],
) -> Result<Vec<u8>, SolveFault>
    requires geometry { IsGeometry geometry.now }
    requires fetched { IsFetched (cut_of geometry.now) fetched.now }
    requires absent { absent.now ≡ absent_columns fetched.now.columns.items }
    requires few { length absent.now ≤ 1000 }
    ensures { SolvesBlock (cut_of geometry.now) fetched.now result }
{
    let search = Search {
        geometry,
        fetched,
        absent,
    };
    if let Some(bytes) = try_read(alloc, &search)? {
        return Ok(bytes);
    }
    let mut attempts = begin(alloc, &search)?;
    match try_all(alloc, &search, &mut attempts)? {
        Some(bytes) => Ok(bytes),
        None => Err(SolveFault::Unreadable {
            absent: absent.len() as u32,
            tried: attempts.tried,
        }),
    }
}
