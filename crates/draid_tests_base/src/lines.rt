use draid_lines::{Lines, MemorySink, MemorySource, ReadFault, Sink};
use std::alloc::{AllocError, Global};

/// The bytes of a source.
#[derive(Clone, Copy)]
enum Text {
    Short(&'static str),
    /// A line of 300,000 bytes and a longer one.
    Long,
    /// One empty line more than an input may have.
    Many,
}

fn bytes_of(alloc: Global, text: Text) -> Result<Vec<u8>, AllocError> {
    let mut long = match text {
        Text::Short(short) => return Vec::from_slice(alloc, short.as_bytes()),
        Text::Many => return vec![in alloc; b'\n'; 1_048_577],
        Text::Long => vec![in alloc; b'#'; 600_002]?,
    };
    long[300_000] = b'\n';
    Ok(long)
}

/// What is told of a next line.
#[derive(Clone, Copy)]
enum Next {
    Line(&'static str),
    /// A line of so many bytes.
    Bytes(usize),
    End,
    Fault(ReadFault),
}

/// Whether it is this, so many times.
fn are_next(
    alloc: Global,
    lines: &mut Lines,
    source: &mut MemorySource,
    next: Next,
    times: u32,
) -> bool {
    for _ in 0..times {
        let is_next = match (lines.next(alloc, source), next) {
            (Ok(Some(line)), Next::Line(text)) => line.as_slice() == text.as_bytes(),
            (Ok(Some(line)), Next::Bytes(len)) => line.len() == len,
            (Ok(None), Next::End) => true,
            (Err(fault), Next::Fault(wanted)) => fault == wanted,
            _ => false,
        };
        if !is_next {
            return false;
        }
    }
    true
}

/// Whether that is told of the lines of a source.
fn are_lines(alloc: Global, source: &mut MemorySource, told: &[(Next, u32)]) -> bool {
    let mut lines = Lines::new(alloc);
    for (next, times) in told {
        if !are_next(alloc, &mut lines, source, *next, *times) {
            return false;
        }
    }
    true
}

/// Whether it is of those of a text, where the calls of its source with these numbers fail.
fn tells(alloc: Global, text: Text, failing: &[u64], told: &[(Next, u32)]) -> bool {
    match (bytes_of(alloc, text), Vec::from_slice(alloc, failing)) {
        (Ok(bytes), Ok(failing)) => {
            let mut source = MemorySource::new(bytes, failing);
            are_lines(alloc, &mut source, told)
        }
        _ => false,
    }
}

/// A text, the calls that fail, and what is told of its lines. The end stays behind them, and so does a fault.
static ROWS: [(Text, &[u64], &[(Next, u32)]); 6] = [
    (Text::Short(""), &[], &[(Next::End, 4)]),
    (
        Text::Short("ab\n\ncd"),
        &[],
        &[
            (Next::Line("ab"), 1),
            (Next::Line(""), 1),
            (Next::Line("cd"), 1),
            (Next::End, 4),
        ],
    ),
    (
        Text::Short("ab\ncd\n"),
        &[],
        &[(Next::Line("ab"), 1), (Next::Line("cd"), 1), (Next::End, 4)],
    ),
    (
        Text::Long,
        &[],
        &[
            (Next::Bytes(300_000), 1),
            (Next::Fault(ReadFault::TooLong { line: 2 }), 2),
        ],
    ),
    (
        Text::Many,
        &[],
        &[
            (Next::Bytes(0), 1_048_576),
            (Next::Fault(ReadFault::TooLong { line: 1_048_577 }), 2),
        ],
    ),
    (
        Text::Short("ab\ncd"),
        &[1],
        &[
            (Next::Line("ab"), 1),
            (Next::Fault(ReadFault::SourceFault), 2),
        ],
    ),
];

#[test]
fn gives_each_line_and_its_end_or_fault(rt: HostRuntime) {
    for row in 0..ROWS.len() {
        let (text, failing, told) = ROWS[row];
        assert!(rt; tells(rt.alloc(), text, failing, told), "{row}");
    }
}

/// Whether the second of three calls of a sink fails, and it holds the bytes of the others.
fn holds_two(sink: &mut MemorySink) -> bool {
    sink.put(b"ab").is_ok()
        && sink.put(b"cd").is_err()
        && sink.put(b"ef").is_ok()
        && sink.held() == b"abef".as_slice()
}

/// Whether it is so of a sink whose second call fails.
fn refuses_second_call(alloc: Global) -> bool {
    match Vec::from_slice(alloc, &[1]) {
        Ok(failing) => holds_two(&mut MemorySink::new(alloc, failing)),
        Err(_) => false,
    }
}

#[test]
fn a_sink_fails_at_the_listed_calls(rt: HostRuntime) {
    assert!(rt; refuses_second_call(rt.alloc()));
}
