ghost use Rattle.std.specs.Prelude.{◌<◌, ◌^◌, ℕ, All};
ghost use Rattle.draid_gen.specs.Workload.{IsReadAs, lines_of};

use draid_script::{
    lane_lines_are_exact, lane_lines_are_read_again, lines_are_exact, lines_are_read_again,
};

/// Law: the grammar of scripts reads each line of a workload as what it says.
pub fn lines_are_read()
    ensures { (number : ℕ) → number < 2 ^ 64 → All IsReadAs (lines_of number) }
{
    lines_are_exact();
    lines_are_read_again();
    lane_lines_are_exact();
    lane_lines_are_read_again();
}
