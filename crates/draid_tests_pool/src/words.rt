use draid_tests_session::words_of;
use draid_words::{Mode, WordsFault, read_words};
use std::alloc::Global;

/// What a line asks for.
#[derive(Clone, Copy)]
enum Asked {
    SessionIn(&'static str),
    Workload(u64),
    /// It is refused.
    Nothing,
}

/// Whether words ask for this.
fn ask_for(alloc: Global, words: &[String], asked: Asked) -> bool {
    match (read_words(alloc, words), asked) {
        (Ok(Mode::Session { dir: Some(dir) }), Asked::SessionIn(wanted)) => dir.as_str() == wanted,
        (Ok(Mode::Workload { number }), Asked::Workload(wanted)) => number == wanted,
        (Err(WordsFault::Usage), Asked::Nothing) => true,
        _ => false,
    }
}

/// Whether those of a line do.
fn asks_for(alloc: Global, line: &str, asked: Asked) -> bool {
    match words_of(alloc, line) {
        Ok(words) => ask_for(alloc, &words, asked),
        Err(_) => false,
    }
}

static LINES: [(&str, Asked); 22] = [
    ("session --dir pool", Asked::SessionIn("pool")),
    ("session --dir=pool", Asked::SessionIn("pool")),
    ("--dir pool session", Asked::SessionIn("pool")),
    ("--dir=pool session", Asked::SessionIn("pool")),
    ("workload 18446744073709551615", Asked::Workload(u64::MAX)),
    // Refused.
    ("", Asked::Nothing),
    ("frob", Asked::Nothing),
    ("workload", Asked::Nothing),
    ("workload 1 2", Asked::Nothing),
    ("workload x", Asked::Nothing),
    ("workload 01", Asked::Nothing),
    ("workload +1", Asked::Nothing),
    ("workload 18446744073709551616", Asked::Nothing),
    ("workload 1 --dir pool", Asked::Nothing),
    ("session 1", Asked::Nothing),
    ("session session", Asked::Nothing),
    ("session --dir", Asked::Nothing),
    ("session --dir a --dir b", Asked::Nothing),
    ("session --verbose", Asked::Nothing),
    ("session -h", Asked::Nothing),
    ("--help", Asked::Nothing),
    ("--version", Asked::Nothing),
];

#[test]
fn words_are_read(rt: HostRuntime) {
    for (line, asked) in LINES.iter() {
        assert!(rt; asks_for(rt.alloc(), line, *asked), "{line}");
    }
}
