ghost use Rattle.std.specs.Prelude.{◌≡◌, ◌+◌, ◌<◌, ◌≤◌, None, Ok, Some, nat_eq, true};
ghost use Rattle.std.specs.HashMap.{get, spare};
ghost use Rattle.draid_names.specs.declared.numbers.TheConstants.{NUMBERS, OBJECTS};
ghost use Rattle.draid_names.specs.declared.pointer.Pointer.{Pointer};
ghost use Rattle.draid_pool.specs.Drifts.{groups_number};
ghost use Rattle.draid_pool.specs.Threads.{AllStay, IsWholeBy};
ghost use Rattle.draid_store.specs.Putting.{Takes};
ghost use Rattle.draid_store.specs.Storing.{ComesBack, StoreRefusedBy, StoreSays, StoreSetsTable, StoresNew};

use crate::beginning::begin_write;
use crate::fault::StoreFault;
use crate::finishing::end_write;
use crate::putting::put_all;
use draid_area::Area;
use draid_block::Encoded;
use draid_names::Pointer;
use draid_pool::{Metaslabs, Own};
use draid_rack::Rack;

/// Writes a block of an object in a metaslab. The pointer that the object had comes back: its block is to be freed.
/// Nothing where the metaslab hasn't come to the group before the floor, so that it is to be tried again.
pub fn store_block<R: Rack, A: Area, M: Metaslabs<R, A>>(
    metaslabs: &mut M,
    own: &mut Own,
    metaslab: u32,
    columns: u32,
    object: u64,
    block: &Encoded,
) -> Option<Result<Option<Pointer>, StoreFault>>
    requires fits { M.fits metaslabs.old }
    requires own { M.owns metaslabs.old object ≡ true }
    requires object { object < OBJECTS }
    requires last { own.old.seq + 1 < NUMBERS }
    requires takes { Takes (M.last metaslabs.old) metaslab columns block.now }
    requires room { 0 < spare own.old.objects }
    requires whole { IsWholeBy R.Rack (M.owns metaslabs.old) (M.last metaslabs.old) (λ o. get nat_eq own.old.objects o) own.old.seq own.old.floor }
    ensures fits { M.fits metaslabs.new }
    ensures locks { M.locks metaslabs.new ≡ M.locks metaslabs.old }
    ensures owns { M.owns metaslabs.new ≡ M.owns metaslabs.old }
    ensures stay { AllStay (M.owns metaslabs.old) (M.last metaslabs.old) (M.last metaslabs.new) }
    ensures whole { IsWholeBy R.Rack (M.owns metaslabs.old) (M.last metaslabs.new) (λ o. get nat_eq own.new.objects o) own.new.seq own.new.floor }
    ensures sets { StoreSetsTable object block.now.bytes (λ o. get nat_eq own.old.objects o) (λ o. get nat_eq own.new.objects o) result }
    ensures earlier { (p : Pointer) → result ≡ Some (Ok (Some p)) → ComesBack R.Rack (M.owns metaslabs.old) (M.last metaslabs.new) (λ o. get nat_eq own.new.objects o) object p }
    // Where a block was stored the object has a new pointer, and the one that comes back was its own.
    ensures new { StoresNew (M.last metaslabs.old) object own.old.seq (λ o. get nat_eq own.old.objects o) (λ o. get nat_eq own.new.objects o) result }
    ensures later { own.old.seq ≤ own.new.seq }
    ensures says { StoreSays R.Rack A.Area M.went M.shared (M.owns metaslabs.old) (M.owns metaslabs.new) (M.last metaslabs.old) (M.last metaslabs.new) metaslabs.old metaslabs.new metaslab columns object
        (λ o. get nat_eq own.old.objects o) (λ o. get nat_eq own.new.objects o) own.old.seq own.old.floor own.new.seq own.new.floor block.now result }
    ensures refused { StoreRefusedBy R.Rack A.Area M.shared (M.owns metaslabs.old) (M.last metaslabs.old) metaslab block.now result }
    // Who alone closes groups never has to try again.
    ensures served { M.owns metaslabs.old groups_number ≡ true → result ≡ None → ⊥ }
{
    let ticket = match begin_write(metaslabs, own, metaslab, columns, object, block) {
        Some(Ok(ticket)) => ticket,
        Some(Err(why)) => return Some(Err(StoreFault::Refused(why))),
        None => return None,
    };
    let birth = ticket.pointer.birth;
    let ticket = put_all(metaslabs, metaslab, columns, ticket, block);
    let result = end_write(metaslabs, metaslab, columns, ticket, block);
    own.seq += 1;
    own.floor = birth;
    match result {
        Ok(pointer) => {
            let Ok(earlier) = own.objects.insert(object, pointer) else {
                unreachable!()
            };
            Some(Ok(earlier))
        }
        Err(missed) => Some(Err(StoreFault::Missed(missed))),
    }
}
