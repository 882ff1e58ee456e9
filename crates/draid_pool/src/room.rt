ghost use Rattle.std.specs.Prelude.{◌≡◌, ◌≤◌, ◌<◌, ◌↔◌, ℕ, IfOk, IsTrue, OnOk, Option, Some, false, length};
ghost use Rattle.draid_names.specs.declared.pointer.Pointer.{Pointer};
ghost use Rattle.draid_session.specs.State.{State};
ghost use Rattle.draid_shard.specs.Fits.{Valid};
ghost use Rattle.draid_pool.specs.Threads.{AllStay, KeepsWhole, Knows, LeadsBy, all_of};
ghost use Rattle.draid_pool.specs.Looking.{AddsSeen, AreSame, CountsOne, HasMany, LooksDo, RoomsAre, SeenIs};

use crate::metaslabs::Metaslabs;
use draid_area::Area;
use draid_names::{NoMemory, Room};
use draid_rack::Rack;
use draid_shard::{Shard, Shut};
use draid_turn::Act;
use std::alloc::Global;

/// What a metaslab has for a new block.
#[derive(Clone, Copy)]
pub struct Seen {
    pub room: Room,
    /// Why it takes none.
    pub shut: Option<Shut>,
}

/// What a shard has for a block of so many stripes.
fn seen_in<R: Rack, A: Area>(shard: &Shard<R, A>, need: u64) -> Seen
    requires { Valid R.Rack shard.now }
    ensures { SeenIs need shard.now result }
{
    Seen {
        room: shard.room(need),
        shut: shard.shut(),
    }
}

/// A look at what a metaslab has for a block of so many stripes.
#[derive(Drop)]
pub struct LookOp {
    pub need: u64,
    pub out: Option<Seen>,
}

impl<R: Rack, A: Area> Act<Shard<R, A>> for LookOp {
    ghost use Rattle.std.specs.Prelude.{None, MatchOption};
    ghost use Rattle.draid_shard.specs.Fits.{Valid};
    ghost use Rattle.draid_pool.specs.Looking.{SeesShard};

    ghost needs = { λ _ s. Valid R.Rack s };

    ghost relates = { λ o s o' s'. MatchOption o'.out ⊥ (λ seen. SeesShard o.need s seen s') };

    ghost concerns = { λ _. None };

    fn concerned(&self) -> Option<u64> {
        None
    }

    fn act(&mut self, shard: &mut Shard<R, A>) {
        self.out = Some(seen_in(shard, self.need));
    }
}

/// The rooms of metaslabs, and how many of them take no block.
#[derive(Drop)]
pub struct SeenRooms {
    pub rooms: Vec<Room>,
    pub disabled: u32,
    pub full: u32,
    pub worn: u32,
}

impl SeenRooms {
    /// Notes what was seen of another metaslab.
    fn add(&mut self, seen: Seen) -> Result<(), NoMemory>
        requires disabled { self.old.disabled < 64 }
        requires full { self.old.full < 64 }
        requires worn { self.old.worn < 64 }
        ensures { OnOk result (AddsSeen self.old seen self.new) }
    {
        self.rooms.push(seen.room)?;
        self.disabled = one_more(self.disabled, seen.shut, Shut::Disabled);
        self.full = one_more(self.full, seen.shut, Shut::Full);
        self.worn = one_more(self.worn, seen.shut, Shut::Worn);
        Ok(())
    }
}

/// A count, and one more where this is the reason.
fn one_more(count: u32, shut: Option<Shut>, why: Shut) -> u32
    requires { count < 64 }
    ensures { CountsOne shut why count result }
{
    if shut == Some(why) {
        return count + 1;
    }
    count
}

/// Looks at each of so many metaslabs, in a hold each, for the room that they have for a block of so many stripes.
pub fn look_for_room<R: Rack, A: Area, M: Metaslabs<R, A>>(
    alloc: Global,
    metaslabs: &mut M,
    count: u32,
    need: u64,
) -> Result<SeenRooms, NoMemory>
    requires fits { M.fits metaslabs.old }
    requires few { count ≤ 64 }
    requires many { HasMany R.Rack count (M.last metaslabs.old) }
    ensures fits { M.fits metaslabs.new }
    ensures locks { M.locks metaslabs.new ≡ M.locks metaslabs.old }
    ensures owns { M.owns metaslabs.new ≡ M.owns metaslabs.old }
    ensures stay { AllStay (M.owns metaslabs.old) (M.last metaslabs.old) (M.last metaslabs.new) }
    ensures whole { KeepsWhole R.Rack (M.owns metaslabs.old) (all_of (M.owns metaslabs.old)) (M.last metaslabs.old) (M.last metaslabs.new) }
    ensures many { IfOk result (λ rooms. length rooms.rooms.items ≡ count) }
    ensures step { (table : ℕ → Option Pointer) (seq floor : ℕ) (x : State) → Knows R.Rack A.Area (M.owns metaslabs.old) (M.last metaslabs.old) table seq floor x
        → LeadsBy R.Rack A.Area M.went M.shared metaslabs.old metaslabs.new x (LooksDo x need count result) (Knows R.Rack A.Area (M.owns metaslabs.old) (M.last metaslabs.new) table seq floor) }
    // Where nobody comes between, all is as it was seen.
    ensures still { M.shared ≡ false → AreSame (M.last metaslabs.old) (M.last metaslabs.new) }
    ensures rooms { M.shared ≡ false → IfOk result (λ rooms. RoomsAre need (M.last metaslabs.new) rooms.rooms.items) }
{
    let mut rooms = SeenRooms {
        rooms: Vec::new(alloc),
        disabled: 0,
        full: 0,
        worn: 0,
    };
    for metaslab in 0..count {
        let op = metaslabs.hold(metaslab, LookOp { need, out: None });
        let Some(seen) = op.out else { unreachable!() };
        rooms.add(seen)?;
    }
    Ok(rooms)
}
