ghost use Rattle.std.specs.Prelude.{◌≡◌, IfOk, string_bytes};
ghost use Rattle.draid_gen.specs.Workload.{script_of};

use crate::parts::{
    add_fills, add_frees, add_moves, add_opening, add_reads, add_restart, add_section_end, add_sums,
};
use crate::words::drawn;
use draid_names::NoMemory;
use std::alloc::{AllocError, Global};

/// The script of the workload of a number.
pub fn workload(alloc: Global, number: u64) -> Result<Vec<u8>, NoMemory>
    ensures { IfOk result (λ script. script.items ≡ script_of number) }
{
    let script = text(alloc, number)?;
    Ok(script.into_bytes())
}

fn text(alloc: Global, number: u64) -> Result<String, AllocError>
    ensures { IfOk result (λ script. string_bytes script ≡ script_of number) }
{
    let words = drawn(number);
    let mut script = String::new(alloc);
    add_opening(&mut script, number)?;
    add_fills(&mut script, number, &words)?;
    add_section_end(&mut script)?;
    add_frees(&mut script, &words)?;
    add_moves(&mut script, words[20] % 11)?;
    add_sums(&mut script)?;
    add_reads(&mut script)?;
    add_restart(&mut script)?;
    add_sums(&mut script)?;
    Ok(script)
}
