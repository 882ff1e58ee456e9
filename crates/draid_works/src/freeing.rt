//! An object of a lane is freed, as soon as its metaslab has come to the group.
ghost use Rattle.std.specs.Prelude.{◌≡◌, ℕ, Some, nat_eq, true};
ghost use Rattle.std.specs.HashMap.{get};
ghost use Rattle.draid_session.specs.State.{State};
ghost use Rattle.draid_pool.specs.Threads.{AllStay, CarriesBy, IsWholeBy, Knows};
ghost use Rattle.draid_store.specs.Answers.{FreeDoes};
ghost use Rattle.draid_store.specs.Freeing.{HasLoose};
ghost use Rattle.draid_store.specs.Pointers.{TriesTake};
ghost use Rattle.draid_works.specs.Waiting.{LooksBut};

use draid_area::Area;
use draid_pool::{Metaslabs, Own};
use draid_rack::Rack;
use draid_store::{FreeFault, free_object};
use std::sync::Wait;
use std::thread;

/// Frees an object of a thread's own, and tries again until it is done. No metaslab is held while it waits.
pub fn free_through<R: Rack, A: Area, M: Metaslabs<R, A>, W: Wait>(
    rt: &W,
    metaslabs: &mut M,
    own: &mut Own,
    object: u64,
) -> Result<(), FreeFault>
    requires fits { M.fits metaslabs.old }
    requires own { M.owns metaslabs.old object ≡ true }
    requires whole { IsWholeBy R.Rack (M.owns metaslabs.old) (M.last metaslabs.old) (λ o. get nat_eq own.old.objects o) own.old.seq own.old.floor }
    ensures fits { M.fits metaslabs.new }
    ensures locks { M.locks metaslabs.new ≡ M.locks metaslabs.old }
    ensures owns { M.owns metaslabs.new ≡ M.owns metaslabs.old }
    ensures stay { AllStay (M.owns metaslabs.old) (M.last metaslabs.old) (M.last metaslabs.new) }
    ensures whole { IsWholeBy R.Rack (M.owns metaslabs.old) (M.last metaslabs.new) (λ o. get nat_eq own.new.objects o) own.new.seq own.new.floor }
    ensures takes { TriesTake object (λ o. get nat_eq own.old.objects o) (λ o. get nat_eq own.new.objects o) (Some result) }
    ensures step { (x : State) → HasLoose x.store object → Knows R.Rack A.Area (M.owns metaslabs.old) (M.last metaslabs.old) (λ o. get nat_eq own.old.objects o) own.old.seq own.old.floor x
        → CarriesBy R.Rack A.Area M.went M.shared (M.owns metaslabs.old) (M.last metaslabs.new) (λ o. get nat_eq own.new.objects o) own.new.seq own.new.floor metaslabs.old metaslabs.new x (LooksBut (FreeDoes x object result)) }
{
    for _ in rt.forever() {
        if let Some(result) = free_object(metaslabs, own, object) {
            return result;
        }
        thread::yield_now();
    }
    unreachable!()
}
