//! What a pool has of its objects is dealt out to lanes by their numbers, and put together again.
ghost use Rattle.std.specs.Prelude.{◌≡◌, ◌≤◌, ◌+◌, IfOk, nat_eq};
ghost use Rattle.std.specs.HashMap.{IsUnique, get, hash_map_len, spare};
ghost use Rattle.std.specs.List.{list_any};
ghost use Rattle.draid_turn.specs.Numbers.{in_span};
ghost use Rattle.draid_tables.specs.Tables.{HoldsWithin, IsDealt, TakesBack};

use draid_names::{NoMemory, Pointer};
use draid_turn::Span;
use std::alloc::Global;
use std::collections::HashMap;

/// Whether a number is in a span.
fn is_in(span: &Span, number: u64) -> bool
    ensures { result ≡ in_span number span.now }
{
    span.first <= number && number <= span.last
}

/// Whether a number is in one of the spans.
fn is_held(numbers: &[Span], number: u64) -> bool
    ensures { result ≡ list_any (in_span number) numbers.now }
{
    numbers.iter().any(|span| is_in(span, number))
}

/// What a table has of the objects whose numbers are held, with room for so many more.
pub fn deal_objects(
    alloc: Global,
    objects: &HashMap<u64, Pointer>,
    numbers: &[Span],
    room: usize,
) -> Result<HashMap<u64, Pointer>, NoMemory>
    ensures dealt { IfOk result (λ dealt. IsDealt numbers.now (get nat_eq objects.now) (get nat_eq dealt)) }
    ensures room { IfOk result (λ dealt. room ≤ spare dealt) }
{
    let mut dealt = HashMap::new(alloc);
    for (object, pointer) in objects.iter() {
        if is_held(numbers, *object) {
            dealt.insert(*object, *pointer)?;
        }
    }
    dealt.reserve(room)?;
    Ok(dealt)
}

/// Puts what was dealt out into a table again, in place of what it has of the objects whose numbers are held. It takes no memory.
pub fn take_objects(
    objects: &mut HashMap<u64, Pointer>,
    numbers: &[Span],
    dealt: &HashMap<u64, Pointer>,
)
    requires within { HoldsWithin numbers.now (get nat_eq dealt.now) }
    requires room { IsUnique nat_eq dealt.now → hash_map_len dealt.now ≤ spare objects.old }
    ensures takes { TakesBack numbers.now (get nat_eq dealt.now) (get nat_eq objects.old) (get nat_eq objects.new) }
    ensures room { spare objects.old ≤ spare objects.new + hash_map_len dealt.now }
    ensures unique { IsUnique nat_eq dealt.now }
{
    objects.retain(|object, _| !is_held(numbers, *object));
    for (object, pointer) in dealt.iter() {
        let Ok(_) = objects.insert(*object, *pointer) else {
            unreachable!()
        };
    }
}
