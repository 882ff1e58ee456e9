//! `dzpool`: runs a script of pool commands from standard input, and prints the replies.

#![tactic(auto)]

mod lanes;
mod sessions;

ghost use Rattle.std.specs.Prelude.{◌≤◌, length};
ghost use Rattle.draid_agent.specs.Policy.{Names};
ghost use Rattle.draid_choose.specs.Rooms.{Picks, most_rooms};

use crate::sessions::run_program;
use draid_agent::{Policy, first_free};
use draid_choose::{Chooser, first_fit};
use draid_files::{Input, Output};
use draid_names::Room;
use draid_words::WordsFault;
use std::io::ErrorKind;
use std::process::ExitCode;
use std::{env, io};

/// The words behind the program's name.
fn words(rt: &HostRuntime) -> io::Result<Vec<String>> {
    Ok(env::args(rt)?.skip(1).collect(rt.alloc())?)
}

/// The same, or why they can't be read: memory was wanting, or one of them isn't text.
fn words_or_fault(rt: &HostRuntime) -> Result<Vec<String>, WordsFault> {
    match words(rt) {
        Ok(words) => Ok(words),
        Err(error) => match error.kind() {
            ErrorKind::OutOfMemory => Err(WordsFault::NoMemory),
            _ => Err(WordsFault::Usage),
        },
    }
}

fn main(rt: HostRuntime) -> ExitCode {
    let mut source = Input::new(rt.stdin());
    let mut sink = Output::new(rt.stdout());
    let chooser = Chooser::new(
        |rooms: &[Room]| -> Option<u32>
            requires { length rooms.now ≤ most_rooms }
            ensures { Picks rooms.now result }
        { first_fit(rooms) },
    );
    let policy = Policy::new(
        |slot: u32, logged: u64, free: &[u32]| -> Option<u32>
            ensures { Names free.now result }
        { first_free(slot, logged, free) },
    );
    let words = words_or_fault(&rt);
    run_program(&rt, &rt, words, &mut source, &mut sink, &chooser, &policy)
}
