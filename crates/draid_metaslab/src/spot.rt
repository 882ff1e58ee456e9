ghost use Rattle.std.specs.Prelude.{◌≡◌, ◌+◌, ◌-◌, ◌*◌, ◌/◌, ◌%◌, ◌<◌, ◌≤◌, ◌^◌, ℕ, max, min, IfOk, IfErr, if◌then◌else◌, nat_le};
ghost use Rattle.draid_metaslab.specs.Spots.{IsLargest, IsLowest, IsSpot};
ghost use Rattle.draid_ranges.specs.Runs.{AreApart, has_in};

use draid_ranges::Run;

/// The lowest place of `len` stripes in one group of the free runs, else the greatest length that has
/// a place.
pub(crate) fn lowest_spot(runs: &[Run], height: u64, len: u64) -> Result<u64, u64>
    requires apart { AreApart runs.now }
    requires height { (0 < height) × (height ≤ 2 ^ 12) }
    requires some { 0 < len }
    ensures found { IfOk result (IsLowest (has_in runs.now) height len) }
    ensures none { IfErr result (IsLargest (has_in runs.now) height) }
    ensures short { IfErr result (λ largest. largest < len) }
{
    let mut largest: u64 = 0;
    for run in runs {
        let most = most_of(*run, height);
        if most >= len {
            return Ok(place_in(*run, height, len));
        }
        largest = largest.max(most);
    }
    Err(largest)
}

/// The greatest number of stripes of the run in one group.
fn most_of(run: Run, height: u64) -> u64
    requires height { 0 < height }
    ensures short { run.len ≤ height - run.first % height → result ≡ run.len }
    ensures long { height - run.first % height < run.len → result ≡ max (height - run.first % height) (min (run.len - (height - run.first % height)) height) }
{
    let head = height - run.first % height;
    if run.len <= head {
        return run.len;
    }
    head.max((run.len - head).min(height))
}

/// Where so many stripes of the run have a place: at its first, or at the next group's.
fn place_in(run: Run, height: u64, len: u64) -> u64
    requires height { (0 < height) × (height ≤ 2 ^ 12) }
    requires below { run.first ≤ 2 ^ 48 }
    ensures first { len ≤ height - run.first % height → result ≡ run.first }
    ensures next { height - run.first % height < len → result ≡ run.first + (height - run.first % height) }
{
    let head = height - run.first % height;
    if len <= head {
        run.first
    } else {
        run.first + head
    }
}
