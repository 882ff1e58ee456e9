ghost use Rattle.std.specs.Prelude.{◌≡◌, ◌+◌, ◌<◌, min, max, IfSome, IfNone};
ghost use Rattle.draid_machine.specs.Names as names;
ghost use Rattle.draid_machine.specs.Step as step;
ghost use Rattle.draid_passes.specs.Left.{AreShort, IsFirstLeft, NothingLeft, left_of, lower_of};
ghost use Rattle.draid_world.specs.World.{held_in, pass_of};

use draid_machine::{Held, Key, Stage};
use draid_names::{NUMBERS, PassKind};
use draid_world::WorldPass;
use std::collections::BTreeMap;

/// Whether a pass is a scrub.
pub fn is_heal(kind: PassKind) -> bool
    ensures { result ≡ names.is_heal kind }
{
    kind == PassKind::Heal
}

/// Whether it is no ticket any more.
pub fn is_block(stage: Stage) -> bool
    ensures { result ≡ names.is_block stage }
{
    match stage {
        Stage::Writing { .. } => false,
        Stage::Live | Stage::Freed { .. } => true,
    }
}

/// Whether a pass lends the stripes of a block or a ticket.
pub fn is_lent(pass: &WorldPass, held: Held) -> bool
    ensures { result ≡ step.is_lent (pass_of pass.now) held }
{
    !is_heal(pass.kind) || (is_block(held.stage) && held.birth <= pass.max)
}

/// The first stripe of a block or a ticket that is left to lend.
fn first_left(pass: &WorldPass, held: Held) -> Option<u64>
    requires short { held.first + held.stripes < NUMBERS }
    ensures { result ≡ left_of (pass_of pass.now) held }
{
    let from = held.first.max(pass.next);
    (is_lent(pass, held) && from < held.first + u64::from(held.stripes)).then_some(from)
}

/// The lower of two stripes, where both are there.
fn lower(one: Option<u64>, other: Option<u64>) -> Option<u64>
    ensures { result ≡ lower_of one other }
{
    match (one, other) {
        (Some(a), Some(b)) => Some(a.min(b)),
        (None, found) | (found, None) => found,
    }
}

/// The first stripe that a pass has left to lend.
pub fn next_stripe(held: &BTreeMap<Key, Held>, pass: &WorldPass) -> Option<u64>
    requires short { AreShort (held_in held.now.entries) }
    ensures some { IfSome result (λ x. IsFirstLeft (held_in held.now.entries) (pass_of pass.now) x) }
    ensures none { IfNone result (NothingLeft (held_in held.now.entries) (pass_of pass.now)) }
{
    let mut first = None;
    for (_, block) in held {
        first = lower(first, first_left(pass, *block));
    }
    first
}
