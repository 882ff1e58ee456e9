use draid_files::{Input, Output};
use draid_lines::{Sink, Source};
use std::alloc::Global;
use std::io::{self, Read, Write};

/// A reader and writer that moves two bytes a call at most, and fails at its third call.
#[derive(Drop)]
struct Broken {
    calls: u8,
}

impl Broken {
    fn count(&mut self, len: usize) -> io::Result<usize> {
        self.calls = self.calls.saturating_add(1);
        if self.calls == 3 {
            return Err(io::Error::from(io::ErrorKind::Other));
        }
        Ok(len.min(2))
    }
}

impl Read for Broken {
    fn read(&mut self, into: &mut [u8]) -> io::Result<usize> {
        let count = self.count(into.len())?.min(into.len());
        into[..count].fill(b'z');
        Ok(count)
    }
}

impl Write for Broken {
    fn write(&mut self, bytes: &[u8]) -> io::Result<usize> {
        let count = self.count(bytes.len())?;
        Ok(count.min(bytes.len()))
    }

    fn flush(&mut self) -> io::Result<()> {
        Ok(())
    }
}

/// Whether a reader gives its bytes, three a call at most, and then none.
fn gives_bytes() -> bool {
    let mut input = Input::new(&b"sync\n"[..]);
    let mut front = [0; 3];
    let mut back = [0; 3];
    input.take(&mut front) == Ok(3)
        && input.take(&mut back) == Ok(2)
        && front == *b"syn"
        && back == *b"c\n\0"
        && input.take(&mut front) == Ok(0)
        && input.take(&mut front) == Ok(0)
}

/// Whether the third of four calls fails where that of the reader does.
fn reading_fails() -> bool {
    let mut input = Input::new(Broken { calls: 0 });
    let mut bytes = [0; 3];
    input.take(&mut bytes).is_ok()
        && input.take(&mut bytes).is_ok()
        && input.take(&mut bytes).is_err()
        && input.take(&mut bytes).is_ok()
}

/// Whether a writer takes all bytes.
fn takes_bytes(alloc: Global) -> bool {
    let mut bytes = Vec::new(alloc);
    let mut output = Output::new(&mut bytes);
    let wrote = output.put(b"sync ").is_ok() && output.put(b"group=2\n").is_ok();
    wrote && bytes.as_slice() == b"sync group=2\n".as_slice()
}

/// Whether the second of three writes, of two, four and one byte, fails where the third call of the writer does.
fn writing_fails() -> bool {
    let mut output = Output::new(Broken { calls: 0 });
    output.put(b"ab").is_ok() && output.put(b"cdef").is_err() && output.put(b"g").is_ok()
}

#[test]
fn readers_and_writers_move_all_bytes_and_tell_faults(rt: HostRuntime) {
    assert!(rt; gives_bytes() && reading_fails());
    assert!(rt; takes_bytes(rt.alloc()) && writing_fails());
}
