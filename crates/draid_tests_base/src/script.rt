use draid_script::{ParseFault, parse_lane, parse_line};
use std::alloc::{AllocError, Global};
use std::fmt::Debug;

/// What was read, as a text.
fn said<T: Debug + Drop>(alloc: Global, read: Result<T, ParseFault>) -> Result<String, AllocError> {
    match read {
        Ok(line) => format!(in alloc; "{line:?}"),
        Err(fault) => format!(in alloc; "{fault}"),
    }
}

/// Whether that text is this.
fn is_said<T: Debug + Drop>(alloc: Global, read: Result<T, ParseFault>, want: &str) -> bool {
    match said(alloc, read) {
        Ok(said) => said.as_str() == want,
        Err(_) => false,
    }
}

/// Lines outside a section, and what is read of them, or why they are refused.
static LINES: [(&str, &str); 56] = [
    ("", "Nothing"),
    ("#create", "Nothing"),
    (
        "create draid:2s 14 seed=7 height=16",
        "Create { spec: [100, 114, 97, 105, 100, 58, 50, 115], children: 14, keys: PoolKeys { sector: 4096, height: 16, metaslabs: 4, slices: 16, seed: 7, version: 1 } }",
    ),
    ("import", "Import"),
    ("write 7 6A6b", "Write { object: 7, bytes: [106, 107] }"),
    (
        "fill 1 5 1024 18446744073709551615",
        "Fill { first: 1, count: 5, len: 1024, seed: 18446744073709551615 }",
    ),
    ("sum 4294967295 1", "Sum { first: 4294967295, count: 1 }"),
    ("damage 3 67108863", "Damage { leaf: 3, sector: 67108863 }"),
    ("spare 3 0", "Spare { slot: 3, spare: 0 }"),
    ("replace 3", "Replace { slot: 3, sectors: None }"),
    ("replace 3 100", "Replace { slot: 3, sectors: Some(100) }"),
    ("detach 3", "Detach { arm: Leaf { leaf: 3 } }"),
    (
        "detach draid2-0-10",
        "Detach { arm: Spare { parity: 2, spare: 10 } }",
    ),
    ("rebuild", "Rebuild { limit: None }"),
    ("scrub 1", "Scrub { limit: Some(1) }"),
    ("status json", "Status { format: Json }"),
    ("lanes 16", "Lanes { count: 16 }"),
    (
        "create s 3 version=2",
        "Create { spec: [115], children: 3, keys: PoolKeys { sector: 4096, height: 8, metaslabs: 4, slices: 16, seed: 1, version: 2 } }",
    ),
    ("upgrade", "Upgrade"),
    ("agent 1", "Agent { least: 1 }"),
    ("agent 4294967295", "Agent { least: 4294967295 }"),
    ("agent log", "AgentLog"),
    ("checkpoint", "Checkpoint"),
    ("rewind", "Rewind"),
    ("discard", "Discard"),
    // Refused.
    ("frob", "unknown command at byte 0"),
    (" read 7", "unknown command at byte 0"),
    ("read", "wrong number of words at byte 4"),
    ("read  7", "wrong number of words at byte 7"),
    ("read x", "no number, no setting or no name at byte 5"),
    ("read 07", "no number, no setting or no name at byte 5"),
    ("read +7", "no number, no setting or no name at byte 5"),
    ("read 4294967296", "number out of range at byte 5"),
    ("write 7 6g", "no hex at byte 9"),
    ("write 7 abc", "no hex at byte 11"),
    ("write 7 ", "no hex at byte 8"),
    ("fill 4294967295 2 1 1", "number out of range at byte 16"),
    ("fill 1 65537 x 1", "number out of range at byte 7"),
    (
        "create s 3 height",
        "no number, no setting or no name at byte 11",
    ),
    (
        "create s 3 seed=1 seed=2",
        "no number, no setting or no name at byte 18",
    ),
    (
        "create s 3 slices=4294967296",
        "number out of range at byte 11",
    ),
    (
        "detach draid4-0-0",
        "no number, no setting or no name at byte 7",
    ),
    (
        "detach draid2-0-01",
        "no number, no setting or no name at byte 7",
    ),
    ("status xml", "no number, no setting or no name at byte 7"),
    ("lanes 17", "number out of range at byte 6"),
    (
        "create s 3 version=4294967296",
        "number out of range at byte 11",
    ),
    (
        "create s 3 version=1 version=1",
        "no number, no setting or no name at byte 21",
    ),
    ("upgrade 2", "wrong number of words at byte 9"),
    ("agent", "wrong number of words at byte 5"),
    ("agent 0", "number out of range at byte 6"),
    ("agent 4294967296", "number out of range at byte 6"),
    ("agent logs", "no number, no setting or no name at byte 6"),
    ("agent 1 log", "wrong number of words at byte 11"),
    ("rewind 1", "wrong number of words at byte 8"),
    ("end", "not allowed here at byte 0"),
    ("end x", "not allowed here at byte 0"),
];

#[test]
fn reads_lines(rt: HostRuntime) {
    for (text, want) in LINES.iter() {
        let read = parse_line(rt.alloc(), text.as_bytes());
        assert!(rt; is_said(rt.alloc(), read, want), "{text}");
    }
}

/// A `write` of so many bytes.
fn writing(alloc: Global, bytes: u32) -> Result<String, AllocError> {
    let mut text = String::from_str(alloc, "write 7 ")?;
    for _ in 0..bytes {
        text.push_str("0f")?;
    }
    Ok(text)
}

/// Whether a `write` of more bytes than a block has is refused.
fn refuses_long_write(alloc: Global) -> bool {
    match writing(alloc, 131_073) {
        Ok(text) => is_said(
            alloc,
            parse_line(alloc, text.as_bytes()),
            "number out of range at byte 8",
        ),
        Err(_) => false,
    }
}

#[test]
fn refuses_too_many_bytes(rt: HostRuntime) {
    assert!(rt; refuses_long_write(rt.alloc()));
}

/// Lines of a section of four lanes, and what is read of them.
static SECTION_LINES: [(&str, &str); 17] = [
    ("", "Nothing"),
    ("# a", "Nothing"),
    ("end", "End"),
    ("3 read 1", "Lane { lane: 3, line: Read { object: 1 } }"),
    ("x read 1", "no number, no setting or no name at byte 0"),
    ("end x", "no number, no setting or no name at byte 0"),
    ("9 read 1", "number out of range at byte 0"),
    ("0", "wrong number of words at byte 1"),
    ("0 ", "unknown command at byte 2"),
    ("0 frob", "unknown command at byte 2"),
    ("0 crash", "not allowed here at byte 2"),
    ("0 upgrade", "not allowed here at byte 2"),
    ("0 agent log", "not allowed here at byte 2"),
    ("0 checkpoint 1", "not allowed here at byte 2"),
    ("0 end", "not allowed here at byte 2"),
    ("0 read", "wrong number of words at byte 6"),
    ("0 read x", "no number, no setting or no name at byte 7"),
];

#[test]
fn reads_lines_of_sections(rt: HostRuntime) {
    for (text, want) in SECTION_LINES.iter() {
        let read = parse_lane(rt.alloc(), text.as_bytes(), 4);
        assert!(rt; is_said(rt.alloc(), read, want), "{text}");
    }
}
