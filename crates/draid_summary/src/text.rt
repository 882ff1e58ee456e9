ghost use Rattle.std.specs.Prelude.{◌≡◌, IfOk, List, ℕ, string_bytes};
ghost use Rattle.draid_lines.specs.Lines.{lines_of};
ghost use Rattle.draid_summary.specs.Summary.{Counts, summary_of};

use crate::lines::first_line;
use crate::tally::Tally;
use sha2::Digest;
use std::alloc::{AllocError, Global};

/// Counts the lines of what was printed.
#[tactic(auto, using(crate::proofs::Tallying::tallied_none, crate::proofs::Tallying::tallied_more, crate::proofs::Tallying::tallied_all))]
fn tally_of(printed: &[u8]) -> Tally
    ensures { Counts (lines_of printed.now) result }
{
    let mut tally = Tally::new();
    let mut rest = printed;
    'lines: while !rest.is_empty() {
        let (line, behind) = first_line(rest);
        tally.add(line);
        rest = behind;
    }
    tally
}

/// The summary of what a session printed for the workload of a number, its end included.
pub fn summary(alloc: Global, number: u64, printed: &[u8]) -> Result<String, AllocError>
    ensures { IfOk result (λ line. string_bytes line ≡ summary_of number printed.now) }
{
    let tally = tally_of(printed);
    let lines = tally.lines;
    let errors = tally.errors;
    let sums = hex::encode(alloc, tally.sums.finalize().as_slice())?;
    format!(in alloc; "workload {number} lines={lines} errors={errors} sums={sums}\n")
}
