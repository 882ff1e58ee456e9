ghost use Rattle.std.specs.Prelude.{◌≡◌, ◌+◌, ◌*◌, ◌%◌, ◌<◌, ◌∷◌, [], OnOk, length, string_bytes};
ghost use Rattle.draid_script.specs.Line.{Command};
ghost use Rattle.draid_gen.specs.Workload.{AddsLines, create, fill, fills, free, frees, moves, of_child, opening, read, reads, restart, section_end, spare, sum, sums};

use std::alloc::AllocError;
use std::fmt::Write;

/// The pool, and the section of four lanes.
pub fn add_opening(script: &mut String, number: u64) -> Result<(), AllocError>
    ensures { OnOk result (AddsLines (string_bytes script.old) (opening number) (string_bytes script.new)) }
{
    add_create(script, number)?;
    script.push_str("lanes 4\n")?;
    Ok(())
}

fn add_create(script: &mut String, number: u64) -> Result<(), AllocError>
    ensures { OnOk result (AddsLines (string_bytes script.old) (create number ∷ []) (string_bytes script.new)) }
{
    writeln!(script, "create draid2:4d:11c:1s 11 seed={number}")
}

/// What each lane writes.
#[tactic(auto, using(crate::proofs::Lines::adds_each, crate::proofs::Lines::adds_none))]
pub fn add_fills(script: &mut String, number: u64, words: &[u64; 21]) -> Result<(), AllocError>
    ensures { OnOk result (AddsLines (string_bytes script.old) (fills number words.now) (string_bytes script.new)) }
{
    for lane in 0..4 {
        add_fill(script, number, lane, words[lane as usize])?;
    }
    Ok(())
}

fn add_fill(script: &mut String, number: u64, lane: u64, word: u64) -> Result<(), AllocError>
    requires { lane < 4 }
    ensures { OnOk result (AddsLines (string_bytes script.old) (fill number lane word ∷ []) (string_bytes script.new)) }
{
    let first = 100 * lane;
    let len = 4096 * (1 + word % 8);
    writeln!(script, "{lane} fill {first} 100 {len} {number}")
}

/// The end of the section, and a sync.
pub fn add_section_end(script: &mut String) -> Result<(), AllocError>
    ensures { OnOk result (AddsLines (string_bytes script.old) section_end (string_bytes script.new)) }
{
    script.push_str("end\nsync\n")
}

/// The objects that are freed.
#[tactic(auto, using(crate::proofs::Lines::adds_each, crate::proofs::Lines::adds_none))]
pub fn add_frees(script: &mut String, words: &[u64; 21]) -> Result<(), AllocError>
    ensures { OnOk result (AddsLines (string_bytes script.old) (frees words.now) (string_bytes script.new)) }
{
    for word in 0..16 {
        add_free(script, words[4 + word])?;
    }
    Ok(())
}

fn add_free(script: &mut String, word: u64) -> Result<(), AllocError>
    ensures { OnOk result (AddsLines (string_bytes script.old) (free word ∷ []) (string_bytes script.new)) }
{
    let object = word % 400;
    writeln!(script, "free {object}")
}

/// The child's disk is lost, its columns move to the spare, and to a new disk.
pub fn add_moves(script: &mut String, child: u64) -> Result<(), AllocError>
    ensures { OnOk result (AddsLines (string_bytes script.old) (moves child) (string_bytes script.new)) }
{
    add_of_child(script, "offline", child)?;
    add_spare(script, child)?;
    script.push_str("rebuild\nscrub\n")?;
    add_of_child(script, "replace", child)?;
    add_of_child(script, "rebalance", child)?;
    Ok(())
}

fn add_of_child(script: &mut String, word: &str, child: u64) -> Result<(), AllocError>
    ensures { OnOk result ((command : Command) → AddsLines (string_bytes script.old) (of_child word.now child command ∷ []) (string_bytes script.new)) }
{
    writeln!(script, "{word} {child}")
}

fn add_spare(script: &mut String, child: u64) -> Result<(), AllocError>
    ensures { OnOk result (AddsLines (string_bytes script.old) (spare child ∷ []) (string_bytes script.new)) }
{
    writeln!(script, "spare {child} 0")
}

/// The digests of all objects, a hundred at a time.
#[tactic(auto, using(crate::proofs::Lines::adds_each, crate::proofs::Lines::adds_none))]
pub fn add_sums(script: &mut String) -> Result<(), AllocError>
    ensures { OnOk result (AddsLines (string_bytes script.old) sums (string_bytes script.new)) }
{
    for hundreds in 0..4 {
        add_sum(script, 100 * hundreds)?;
    }
    Ok(())
}

fn add_sum(script: &mut String, first: u64) -> Result<(), AllocError>
    ensures { OnOk result (AddsLines (string_bytes script.old) (sum first ∷ []) (string_bytes script.new)) }
{
    writeln!(script, "sum {first} 100")
}

/// Every tenth object.
#[tactic(auto, using(crate::proofs::Lines::adds_each, crate::proofs::Lines::adds_none))]
pub fn add_reads(script: &mut String) -> Result<(), AllocError>
    ensures { OnOk result (AddsLines (string_bytes script.old) reads (string_bytes script.new)) }
{
    for tens in 0..40 {
        add_read(script, 10 * tens)?;
    }
    Ok(())
}

fn add_read(script: &mut String, object: u64) -> Result<(), AllocError>
    ensures { OnOk result (AddsLines (string_bytes script.old) (read object ∷ []) (string_bytes script.new)) }
{
    writeln!(script, "read {object}")
}

/// The pool is made safe, closed by a crash and opened again.
pub fn add_restart(script: &mut String) -> Result<(), AllocError>
    ensures { OnOk result (AddsLines (string_bytes script.old) restart (string_bytes script.new)) }
{
    script.push_str("sync\ncrash\nimport\n")
}
