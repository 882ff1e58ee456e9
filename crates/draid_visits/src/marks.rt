//! The passes that a pool's metaslabs have, and which metaslabs a scrub visits.
ghost use Rattle.std.specs.Prelude.{◌≡◌, ◌≤◌, ◌<◌, ◌↔◌, ℕ, IfNone, IfSome, length, slice_index_or, true, false};
ghost use Rattle.draid_names.specs.declared.pass_kind.PassKind.TheVariants.{Heal, Rebuild};
ghost use Rattle.draid_session.specs.Passes as passes;
ghost use Rattle.draid_pool.specs.Whole.{IsWhole};
ghost use Rattle.draid_visits.specs.Rebuilding.{HasPass, IsLowestPass};
ghost use Rattle.draid_visits.specs.Visiting.{AreAll, IsOnly};

use draid_area::Area;
use draid_names::PassKind;
use draid_pool::Pool;
use draid_rack::Rack;
use draid_shard::Shard;

/// The lowest metaslab with a pass of a kind, and the pass's number.
pub fn pass_in<R: Rack, A: Area>(pool: &Pool<R, A>, kind: PassKind) -> Option<(u32, u64)>
    requires whole { IsWhole R.Rack A.Area pool.now }
    ensures found { IfSome result (λ it. IsLowestPass kind it.0 it.1 pool.now) }
    ensures none { IfNone result (AreAll pool.now (IsOnly (passes.other_kind kind))) }
{
    for metaslab in 0..pool.metaslabs.shards.len() {
        if let Some(number) = number_of(&pool.metaslabs.shards[metaslab], kind) {
            return Some((metaslab as u32, number));
        }
    }
    None
}

/// The number of a metaslab's pass of a kind.
pub(crate) fn number_of<R: Rack, A: Area>(shard: &Shard<R, A>, kind: PassKind) -> Option<u64>
    ensures found { IfSome result (λ number. HasPass kind number shard.now) }
    ensures none { IfNone result (IsOnly (passes.other_kind kind) shard.now) }
{
    match kind {
        PassKind::Rebuild => rebuild_of(shard),
        PassKind::Heal => scrub_of(shard),
    }
}

/// The number of its rebuild.
fn rebuild_of<R: Rack, A: Area>(shard: &Shard<R, A>) -> Option<u64>
    ensures found { IfSome result (λ number. HasPass Rebuild number shard.now) }
    ensures none { IfNone result (IsOnly Heal shard.now) }
{
    match &shard.pass {
        Some(pass) => match pass.kind {
            PassKind::Rebuild => Some(pass.number),
            PassKind::Heal => None,
        },
        None => None,
    }
}

/// The number of its scrub.
fn scrub_of<R: Rack, A: Area>(shard: &Shard<R, A>) -> Option<u64>
    ensures found { IfSome result (λ number. HasPass Heal number shard.now) }
    ensures none { IfNone result (IsOnly Rebuild shard.now) }
{
    match &shard.pass {
        Some(pass) => match pass.kind {
            PassKind::Rebuild => None,
            PassKind::Heal => Some(pass.number),
        },
        None => None,
    }
}

/// Marks a metaslab and all behind it.
pub(crate) fn marks_from(first: u32) -> [bool; 64]
    ensures long { length result ≡ 64 }
    ensures marks { (k : ℕ) → k < 64 → (slice_index_or result k false ≡ true) ↔ (first ≤ k) }
{
    let mut marks = [false; 64];
    for metaslab in first as usize..64 {
        marks[metaslab] = true;
    }
    marks
}
