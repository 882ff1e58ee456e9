//! What a pool has of its own is dealt out to lanes, each by its list of numbers, and put together again.
ghost use Rattle.std.specs.Prelude.{◌≡◌, ◌≤◌, ◌+◌, ◌-◌, ◌^◌, ℕ, IfOk, length, max, min, nat_eq, sum_by};
ghost use Rattle.std.specs.HashMap.{IsUnique, get, hash_map_len, spare};
ghost use Rattle.draid_holds.specs.Passes.{shares};
ghost use Rattle.draid_tables.specs.Owns.{AllWithin, AreDealtOut, HaveTableRoom, IsDealtOut, TakesAll, TakesOwn, most_objects, size_of_span};
ghost use Rattle.draid_tables.specs.Tables.{HoldsWithin};

use crate::tables::{deal_objects, take_objects};
use draid_names::{NoMemory, most_held};
use draid_pool::Own;
use draid_turn::Span;
use std::alloc::Global;

/// What one lane has of its own in the beginning.
fn deal_own(alloc: Global, own: &Own, numbers: &[Span]) -> Result<Own, NoMemory>
    ensures { IfOk result (λ dealt. IsDealtOut own.now numbers.now dealt) }
{
    let objects = deal_objects(alloc, &own.objects, numbers, 0)?;
    Ok(Own {
        objects,
        seq: own.seq,
        floor: own.floor,
    })
}

/// For each list of numbers what a lane has of its own in the beginning.
pub fn deal_owns(alloc: Global, own: &Own, numbers: &[Vec<Span>]) -> Result<Vec<Own>, NoMemory>
    ensures { IfOk result (λ owns. AreDealtOut own.now numbers.now owns.items) }
{
    let mut owns = Vec::with_capacity(alloc, numbers.len())?;
    for i in 0..numbers.len() {
        owns.push_reserved(deal_own(alloc, own, &numbers[i])?);
    }
    Ok(owns)
}

/// How many numbers a span has, at most 2^64 - 1.
fn capped_size(span: &Span) -> u64
    ensures { result ≡ min (size_of_span span.now) (2 ^ 64 - 1) }
{
    if span.last < span.first {
        return 0;
    }
    (span.last - span.first).saturating_add(1)
}

/// A count and how many numbers these spans have, at most 2^64 - 1.
fn add_sizes(mut count: u64, numbers: &[Span]) -> u64
    ensures { result ≡ min (count + sum_by size_of_span numbers.now) (2 ^ 64 - 1) }
{
    for span in numbers {
        count = count.saturating_add(capped_size(span));
    }
    count
}

/// How many objects lanes may have in the end: no more than numbers, and no more than so many metaslabs hold blocks.
pub fn room_of(numbers: &[Vec<Span>], metaslabs: usize) -> usize
    requires few { metaslabs ≤ 64 }
    ensures { result ≡ most_objects numbers.now metaslabs }
{
    let mut count = 0;
    for list in numbers {
        count = add_sizes(count, list);
    }
    count.min((metaslabs * most_held(2)) as u64) as usize
}

/// Puts back what a lane has of its own.
fn take_own(own: &mut Own, numbers: &[Span], dealt: &Own)
    requires within { HoldsWithin numbers.now (get nat_eq dealt.now.objects) }
    requires room { IsUnique nat_eq dealt.now.objects → hash_map_len dealt.now.objects ≤ spare own.old.objects }
    ensures takes { TakesOwn numbers.now dealt.now own.old own.new }
    ensures room { spare own.old.objects ≤ spare own.new.objects + hash_map_len dealt.now.objects }
    ensures unique { IsUnique nat_eq dealt.now.objects }
{
    take_objects(&mut own.objects, numbers, &dealt.objects);
    own.seq = own.seq.max(dealt.seq);
    own.floor = own.floor.max(dealt.floor);
}

/// Puts back what each lane has of its own. It takes no memory.
pub fn take_each(own: &mut Own, numbers: &[Vec<Span>], owns: &[Own])
    requires within { AllWithin numbers.now owns.now }
    requires apart { (n : ℕ) → shares n numbers.now ≤ 1 }
    requires room { HaveTableRoom (spare own.old.objects) owns.now }
    ensures { TakesAll numbers.now owns.now own.old own.new }
{
    for i in 0..numbers.len() {
        take_own(own, &numbers[i], &owns[i]);
    }
}
