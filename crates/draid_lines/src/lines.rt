ghost use Rattle.std.specs.Prelude.{◌≡◌, ◌≢◌, ◌+◌, ◌<◌, ◌≤◌, ◌⊎◌, ℕ, Some, None, Ok, Err, [], All, Contains, IfOk, IfSome, MatchResult, OnErr, OnOk, length, drop, position, vec_len};
ghost use Rattle.std.specs.List.{position_or_len};
ghost use Rattle.std.specs.Io.KnownBytes.{IsAtEnd, prepend_known};
ghost use Rattle.draid_names.specs.Faults.{Rose};
ghost use Rattle.draid_lines.specs.Lines.{Answers, Cuts, Finds, Takes, WhereKnown, IsTooLong, is_end, longest_after, most_lines};
ghost use Rattle.draid_lines.specs.declared.lines.ReadFault.TheVariants.{SourceFault, TooLong};

use crate::Source;
use draid_names::{Failed, LONGEST_LINE};
use std::alloc::{AllocError, Global};
use std::marker::Model;

/// How many bytes a source is asked for at a time.
const CHUNK: usize = 8_192;

/// The most lines of an input.
const MOST_LINES: u64 = 1_048_576;

/// Why no line was given.
#[derive(Clone, Copy, PartialEq, Eq)]
pub enum ReadFault {
    /// The source failed.
    SourceFault,
    /// This line has more than 300,000 bytes, or is more than the 1,048,576 lines of an input.
    TooLong { line: u64 },
    /// Want of memory.
    NoMemory,
}

/// The lines of a source, one after another.
#[derive(Drop)]
pub struct Lines {
    held: Vec<u8>,
    start: usize,
    given: u64,
    fault: Option<ReadFault>,
}

impl Model for Lines {
    ghost use Rattle.std.specs.Prelude.{◌≤◌, drop, vec_len};
    ghost use Rattle.draid_lines.specs.Lines.{Rest, most_lines};

    ghost Value = { Rest };

    ghost view = { λ l. record { held = drop l.start l.held.items; given = l.given; fault = l.fault } };

    ghost invariant = { λ l. (l.start ≤ vec_len l.held) × (l.given ≤ most_lines) };
}

impl Lines {
    /// Holds nothing yet.
    pub fn new(alloc: Global) -> Lines
        ensures { result ≡ record { held = []; given = 0; fault = None } }
    {
        Lines {
            held: Vec::new(alloc),
            start: 0,
            given: 0,
            fault: None,
        }
    }

    /// The next line without its end, which is the byte 0a, or `None` at the end of the input. The source is asked
    /// only where no whole line is held, and not again once one is: what is held behind a line came with one call.
    pub fn next<S: Source>(
        &mut self,
        alloc: Global,
        source: &mut S,
    ) -> Result<Option<Vec<u8>>, ReadFault>
        // Where the source tells: the line given, and behind it what is still to come, was to come.
        ensures answer { self.old.fault ≡ None → WhereKnown
            (prepend_known self.old.held (S.left source.old))
            (prepend_known self.new.held (S.left source.new))
            (λ old new. Answers self.old.given old new result) }

        // Whether or not it tells.
        ensures line { IfOk result (λ next. IfSome next (λ line.
            (length line.items ≤ LONGEST_LINE) × All (λ byte. byte ≢ 10) line.items
            × (self.new.given ≡ self.old.given + 1) × (self.new.given ≤ most_lines))) }
        ensures end { result ≡ Ok None → (self.old.held ≡ []) × (self.new.held ≡ [])
            × (self.new.given ≡ self.old.given) × IsAtEnd (S.left source.new) }
        ensures count { OnErr result (self.new.given ≡ self.old.given) }
        ensures too_long { (line : ℕ) → self.old.fault ≡ None → result ≡ Err (TooLong line)
            → (line ≡ self.old.given + 1) × IsTooLong self.old.given self.new.held }
        ensures waits { Contains self.old.held 10 → source.new ≡ source.old }
        ensures ahead { length self.old.held < 8_192 → OnOk result (length self.new.held < 8_192) }

        // A refusal stays.
        ensures again { IfSome self.old.fault (λ fault.
            (result ≡ Err fault) × (self.new ≡ self.old) × (source.new ≡ source.old)) }
        ensures fault { MatchResult result (λ _. self.new.fault ≡ None) (λ fault. self.new.fault ≡ Some fault) }
        ensures later { S.faults source.old ≤ S.faults source.new }
        ensures cause { result ≡ Err SourceFault →
            (self.old.fault ≡ Some SourceFault) ⊎ Rose (S.faults source.old) (S.faults source.new) }
    {
        if let Some(fault) = self.fault {
            return Err(fault);
        }
        let next = next_line(alloc, &mut self.held, &mut self.start, self.given, source);
        match &next {
            Ok(Some(_)) => self.given += 1,
            Ok(None) => {}
            Err(fault) => self.fault = Some(*fault),
        }
        next
    }
}

/// Gives the next line of what is held from `start` on and of the source, after `given` lines.
fn next_line<S: Source>(
    alloc: Global,
    held: &mut Vec<u8>,
    start: &mut usize,
    given: u64,
    source: &mut S,
) -> Result<Option<Vec<u8>>, ReadFault>
    requires start { start.old ≤ vec_len held.old }
    requires given { given ≤ most_lines }
    ensures start { start.new ≤ vec_len held.new }
    ensures answer { WhereKnown
        (prepend_known (drop start.old held.old.items) (S.left source.old))
        (prepend_known (drop start.new held.new.items) (S.left source.new))
        (λ old new. Answers given old new result) }
    ensures line { IfOk result (λ next. IfSome next (λ line.
        (length line.items ≤ LONGEST_LINE) × All (λ byte. byte ≢ 10) line.items × (given < most_lines))) }
    ensures end { result ≡ Ok None → (drop start.old held.old.items ≡ [])
        × (drop start.new held.new.items ≡ []) × IsAtEnd (S.left source.new) }
    ensures too_long { (line : ℕ) → result ≡ Err (TooLong line)
        → (line ≡ given + 1) × IsTooLong given (drop start.new held.new.items) }
    ensures waits { Contains (drop start.old held.old.items) 10 → source.new ≡ source.old }
    ensures ahead { vec_len held.old < start.old + 8_192 → OnOk result (vec_len held.new < start.new + 8_192) }
    ensures later { S.faults source.old ≤ S.faults source.new }
    ensures cause { result ≡ Err SourceFault → Rose (S.faults source.old) (S.faults source.new) }
{
    let len = find_end(held, start, longest(given), source)?;
    let (_, rest) = held.split_at(*start);
    match line_of(alloc, rest, len, given) {
        Ok(Some(line)) => {
            *start = held.len().min(*start + len + 1);
            Ok(Some(line))
        }
        Ok(None) => Ok(None),
        Err(fault) => Err(fault),
    }
}

/// Finds how many bytes the next line has, and takes bytes where no whole line is held.
#[tactic(auto, using(crate::proofs::Ends::position_none, crate::proofs::Ends::position_some, crate::proofs::Ends::holds_no_end))]
fn find_end<S: Source>(
    held: &mut Vec<u8>,
    start: &mut usize,
    longest: usize,
    source: &mut S,
) -> Result<usize, ReadFault>
    requires { start.old ≤ vec_len held.old }
    ensures start { start.new ≤ vec_len held.new }
    ensures takes { Takes (drop start.old held.old.items) (drop start.new held.new.items)
        (S.left source.old) (S.left source.new) }
    ensures found { IfOk result (λ len. Finds longest (drop start.new held.new.items) (S.left source.new) len) }
    ensures waits { Contains (drop start.old held.old.items) 10 → source.new ≡ source.old }
    ensures ahead { vec_len held.old < start.old + 8_192 → IfOk result (λ len. vec_len held.new ≤ start.new + len + 8_192) }
    ensures later { S.faults source.old ≤ S.faults source.new }
    ensures cause { result ≡ Err SourceFault → Rose (S.faults source.old) (S.faults source.new) }
    ensures read { (line : ℕ) → result ≡ Err (TooLong line) → ⊥ }
{
    if let Some(len) = end_behind(held, *start) {
        return Ok(len);
    }
    drop_front(held, *start);
    *start = 0;
    fill(held, longest, source)
}

/// The line at the front of what is held, which ends behind `len` bytes, unless there is none or it is too long.
fn line_of(alloc: Global, held: &[u8], len: usize, given: u64) -> Result<Option<Vec<u8>>, ReadFault>
    requires len { len ≡ position_or_len is_end held.now }
    requires given { given ≤ most_lines }
    ensures { Cuts given held.now result }
{
    if len > LONGEST_LINE || given == MOST_LINES && !held.is_empty() {
        return Err(ReadFault::TooLong { line: given + 1 });
    }
    if held.is_empty() {
        return Ok(None);
    }
    Ok(Some(Vec::from_slice(alloc, &held[..len])?))
}

/// Drops the first `count` bytes.
fn drop_front(held: &mut Vec<u8>, count: usize)
    requires { count ≤ vec_len held.old }
    ensures { held.new.items ≡ drop count held.old.items }
{
    let rest = held.len() - count;
    held.as_mut_slice().copy_within(count.., 0);
    held.truncate(rest);
}

/// How many bytes are taken for a line at most, so that it is known whether it is too long: behind the last line
/// that may be given one byte is enough.
fn longest(given: u64) -> usize
    ensures { result ≡ longest_after given }
{
    if given == MOST_LINES { 0 } else { LONGEST_LINE }
}

/// Takes bytes until a line's end is held, or more than `longest` bytes, or the source ends. Answers how many bytes
/// stand before the first end.
fn fill<S: Source>(held: &mut Vec<u8>, longest: usize, source: &mut S) -> Result<usize, ReadFault>
    requires { position_or_len is_end held.old.items ≡ length held.old.items }
    ensures takes { Takes held.old.items held.new.items (S.left source.old) (S.left source.new) }
    ensures found { IfOk result (λ len. Finds longest held.new.items (S.left source.new) len) }
    ensures ahead { IfOk result (λ len. vec_len held.new ≤ len + 8_192) }
    ensures later { S.faults source.old ≤ S.faults source.new }
    ensures cause { result ≡ Err SourceFault → Rose (S.faults source.old) (S.faults source.new) }
    ensures read { (line : ℕ) → result ≡ Err (TooLong line) → ⊥ }
{
    while held.len() <= longest {
        let searched = held.len();
        if take_more(held, source)? == 0 {
            return Ok(searched);
        }
        if let Some(len) = end_behind(held, searched) {
            return Ok(searched + len);
        }
    }
    Ok(held.len())
}

/// How many bytes stand between `from` and the first end of a line.
fn end_behind(bytes: &[u8], from: usize) -> Option<usize>
    requires { from ≤ length bytes.now }
    ensures { result ≡ position is_end (drop from bytes.now) }
{
    let (_, rest) = bytes.split_at(from);
    rest.iter().position(|byte| *byte == b'\n')
}

/// Takes bytes from the source, and answers how many; 0 at its end.
fn take_more<S: Source>(held: &mut Vec<u8>, source: &mut S) -> Result<usize, ReadFault>
    ensures takes { Takes held.old.items held.new.items (S.left source.old) (S.left source.new) }
    ensures count { IfOk result (λ taken. length held.new.items ≡ length held.old.items + taken) }
    ensures few { IfOk result (λ taken. taken ≤ 8_192) }
    ensures end { result ≡ Ok 0 → IsAtEnd (S.left source.new) }
    ensures later { S.faults source.old ≤ S.faults source.new }
    ensures cause { result ≡ Err SourceFault → Rose (S.faults source.old) (S.faults source.new) }
    ensures read { (line : ℕ) → result ≡ Err (TooLong line) → ⊥ }
{
    held.reserve(CHUNK)?;
    let mut chunk = [0; CHUNK];
    match source.take(&mut chunk) {
        Ok(taken) => {
            held.extend_from_slice(&chunk[..taken]).unwrap();
            Ok(taken)
        }
        Err(Failed) => Err(ReadFault::SourceFault),
    }
}

impl From<AllocError> for ReadFault {
    ghost use Rattle.draid_lines.specs.declared.lines.ReadFault.TheVariants.{NoMemory};

    ghost from_gives = { λ _ fault. fault ≡ NoMemory };

    fn from(_error: AllocError) -> ReadFault {
        ReadFault::NoMemory
    }
}
