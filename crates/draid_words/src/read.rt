ghost use Rattle.std.specs.Prelude.{◌≡◌, IfOk, None, Some, map, option_map, string_bytes};
ghost use Rattle.draid_words.specs.Mode.{asked, asked_by, asked_in};

use crate::command::command;
use crate::{Mode, WordsFault};
use clap::error::ErrorKind;
use draid_script::decimal;
use std::alloc::Global;

/// What the words behind the program's name ask for.
pub fn read_words(alloc: Global, words: &[String]) -> Result<Mode, WordsFault>
    ensures mode { IfOk result (λ mode. asked (map string_bytes words.now) ≡ Some (asked_in mode)) }
    ensures usage { result ≡ Err WordsFault.Usage → asked (map string_bytes words.now) ≡ None }
{
    let command = command(alloc)?;
    match command.try_get_matches_from(words) {
        Ok(found) => mode_by(
            alloc,
            found.get_str("mode"),
            found.get_str("number"),
            found.get_str("dir"),
        ),
        Err(error) => Err(fault_by(error.kind())),
    }
}

fn fault_by(kind: ErrorKind) -> WordsFault
    ensures { result ≡ WordsFault.Usage → kind ≡ ErrorKind.OutOfMemory → ⊥ }
{
    match kind {
        ErrorKind::OutOfMemory => WordsFault::NoMemory,
        _ => WordsFault::Usage,
    }
}

/// What MODE, NUMBER and DIR ask for.
fn mode_by(
    alloc: Global,
    mode: Option<&str>,
    number: Option<&str>,
    dir: Option<&str>,
) -> Result<Mode, WordsFault>
    ensures mode { IfOk result (λ found. asked_by (option_map (λ text. text.now) mode.entry) (option_map (λ text. text.now) number.entry) (option_map (λ text. text.now) dir.entry) ≡ Some (asked_in found)) }
    ensures usage { result ≡ Err WordsFault.Usage → asked_by (option_map (λ text. text.now) mode.entry) (option_map (λ text. text.now) number.entry) (option_map (λ text. text.now) dir.entry) ≡ None }
{
    match (mode, number, dir) {
        (Some("session"), None, None) => Ok(Mode::Session { dir: None }),
        (Some("session"), None, Some(dir)) => {
            let dir = String::from_str(alloc, dir)?;
            Ok(Mode::Session { dir: Some(dir) })
        }
        (Some("workload"), Some(number), None) => match decimal(number.as_bytes()) {
            Some(number) => Ok(Mode::Workload { number }),
            None => Err(WordsFault::Usage),
        },
        _ => Err(WordsFault::Usage),
    }
}
