//! Looks at metaslabs for their passes, each in a hold of its own.
ghost use Rattle.std.specs.Prelude.{◌≡◌, ◌≤◌, ◌<◌, ℕ, IfSome, length, slice_index_or, false, true};
ghost use Rattle.draid_shard.specs.Fits.{Valid};
ghost use Rattle.draid_pool.specs.Rounds.{EachIs};
ghost use Rattle.draid_pool.specs.Threads.{AllStay, KeepsWhole, all_of};
ghost use Rattle.draid_visits.specs.Looks.{FindsMarks, FindsPass};

use crate::holding::{PassOp, RebuiltOp};
use draid_area::Area;
use draid_names::PassKind;
use draid_pool::Metaslabs;
use draid_rack::Rack;

/// The lowest of so many metaslabs with a pass of a kind, and the pass's number.
pub fn find_pass<R: Rack, A: Area, M: Metaslabs<R, A>>(
    metaslabs: &mut M,
    count: u32,
    kind: PassKind,
) -> Option<(u32, u64)>
    requires fits { M.fits metaslabs.old }
    requires valid { EachIs count (Valid R.Rack) (M.last metaslabs.old) }
    ensures fits { M.fits metaslabs.new }
    ensures locks { M.locks metaslabs.new ≡ M.locks metaslabs.old }
    ensures owns { M.owns metaslabs.new ≡ M.owns metaslabs.old }
    ensures valid { EachIs count (Valid R.Rack) (M.last metaslabs.new) }
    ensures stay { AllStay (M.owns metaslabs.old) (M.last metaslabs.old) (M.last metaslabs.new) }
    ensures whole { KeepsWhole R.Rack (M.owns metaslabs.old) (all_of (M.owns metaslabs.old)) (M.last metaslabs.old) (M.last metaslabs.new) }
    ensures finds { FindsPass R.Rack A.Area M.last M.went M.shared (M.owns metaslabs.old) count kind metaslabs.old result metaslabs.new }
{
    for metaslab in 0..count {
        let op = metaslabs.hold(metaslab, PassOp { kind, out: None });
        if let Some(number) = op.out {
            return Some((metaslab, number));
        }
    }
    None
}

/// Marks those of so many metaslabs that a rebuild visits, if there is one.
pub fn find_marks<R: Rack, A: Area, M: Metaslabs<R, A>>(
    metaslabs: &mut M,
    count: u32,
) -> Option<[bool; 64]>
    requires fits { M.fits metaslabs.old }
    requires few { count ≤ 64 }
    requires valid { EachIs count (Valid R.Rack) (M.last metaslabs.old) }
    ensures fits { M.fits metaslabs.new }
    ensures locks { M.locks metaslabs.new ≡ M.locks metaslabs.old }
    ensures owns { M.owns metaslabs.new ≡ M.owns metaslabs.old }
    ensures valid { EachIs count (Valid R.Rack) (M.last metaslabs.new) }
    ensures stay { AllStay (M.owns metaslabs.old) (M.last metaslabs.old) (M.last metaslabs.new) }
    ensures whole { KeepsWhole R.Rack (M.owns metaslabs.old) (all_of (M.owns metaslabs.old)) (M.last metaslabs.old) (M.last metaslabs.new) }
    ensures long { IfSome result (λ marks. length marks ≡ 64) }
    ensures some { IfSome result (λ marks. (m : ℕ) × (m < count) × (slice_index_or marks m false ≡ true)) }
    ensures finds { FindsMarks R.Rack A.Area M.last M.went M.shared (M.owns metaslabs.old) count metaslabs.old result metaslabs.new }
{
    let mut marks = [false; 64];
    let mut some = false;
    for metaslab in 0..count {
        let op = metaslabs.hold(metaslab, RebuiltOp { out: false });
        if op.out {
            marks[metaslab as usize] = true;
            some = true;
        }
    }
    if some { Some(marks) } else { None }
}
