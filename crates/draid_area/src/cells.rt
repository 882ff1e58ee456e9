ghost use Rattle.std.specs.Prelude.{◌≡◌, ◌+◌, ◌-◌, ◌^◌, ◌&&◌, min, nat_lt, ◌<◌, ◌≤◌, ◌++◌, ℕ, true, false, if◌then◌else◌, OnOk, OnErr, length, replicate, slice_index_or, slice_range, take, vec_capacity, vec_len};
ghost use Rattle.std.specs.List.{splice};
ghost use Rattle.draid_area.specs.Cells.{AreInside, LeavesByte, byte_at, covers, is_torn, length_by, torn_by};
ghost use Rattle.draid_area.specs.Area.{within};
ghost use Rattle.draid_names.specs.Clocks.{tick};
ghost use Rattle.draid_faults.specs.Crash.{left_by};

use draid_faults::{CrashRule, leave};
use std::alloc::AllocError;

/// Some consecutive offsets.
#[derive(Clone, Copy)]
pub(crate) struct Span {
    pub start: u64,
    pub len: u64,
}

/// The clock one change later.
pub(crate) fn later(clock: u64) -> u64
    ensures { result ≡ tick clock }
{
    if clock < u64::MAX { clock + 1 } else { clock }
}

/// A count of failures after one more.
pub(crate) fn risen(count: u64) -> u64
    ensures { result ≡ min (count + 1) (2 ^ 64 - 1) }
{
    count.saturating_add(1)
}

/// Makes a list at least `len` long.
fn grow<T: Copy>(cells: &mut Vec<T>, len: usize, value: T) -> Result<(), AllocError>
    ensures ok { OnOk result (cells.new.items
        ≡ cells.old.items ++ replicate (len - length cells.old.items) value) }
    ensures err { OnErr result (cells.new.items ≡ cells.old.items) }
{
    let more = len.saturating_sub(cells.len());
    cells.reserve(more)?;
    for _ in 0..more {
        cells.push(value).unwrap();
    }
    Ok(())
}

/// Makes room for what is kept of each of `len` offsets. Where nothing is, that stands for `value`.
fn reach<T: Copy>(cells: &mut Vec<T>, len: usize, value: T) -> Result<(), AllocError>
    ensures same { (i : ℕ) → slice_index_or cells.new.items i value ≡ slice_index_or cells.old.items i value }
    ensures long { OnOk result (len ≤ length cells.new.items) }
    ensures kept { length cells.old.items ≤ length cells.new.items }
{
    grow(cells, len, value)
}

/// Makes room for one more span, and for the clocks and the marks of `len` offsets.
pub(crate) fn make_room(
    spans: &mut Vec<Span>,
    since: &mut Vec<u64>,
    torn: &mut Vec<bool>,
    len: usize,
) -> Result<(), AllocError>
    ensures spans { spans.new.items ≡ spans.old.items }
    ensures room { OnOk result (vec_len spans.new < vec_capacity spans.new) }
    ensures clocks { (i : ℕ) → slice_index_or since.new.items i 0 ≡ slice_index_or since.old.items i 0 }
    ensures clocks_long { OnOk result (len ≤ length since.new.items) }
    ensures clocks_kept { length since.old.items ≤ length since.new.items }
    ensures marks { (i : ℕ) → is_torn torn.new.items i ≡ is_torn torn.old.items i }
    ensures marks_long { OnOk result (len ≤ length torn.new.items) }
    ensures marks_kept { length torn.old.items ≤ length torn.new.items }
{
    spans.reserve(1)?;
    reach(since, len, 0)?;
    reach(torn, len, false)
}

/// Makes both lists at least `len` long, with zeros. Where memory runs out, there are no more bytes.
pub(crate) fn lengthen(
    flushed: &mut Vec<u8>,
    bytes: &mut Vec<u8>,
    len: usize,
) -> Result<(), AllocError>
    ensures flushed { OnOk result (flushed.new.items
        ≡ flushed.old.items ++ replicate (len - length flushed.old.items) 0) }
    ensures bytes { OnOk result (bytes.new.items ≡ bytes.old.items ++ replicate (len - length bytes.old.items) 0) }
    ensures err { OnErr result (bytes.new.items ≡ bytes.old.items) }
    ensures same { (i : ℕ) → byte_at flushed.new.items i ≡ byte_at flushed.old.items i }
    ensures kept { length flushed.old.items ≤ length flushed.new.items }
{
    grow(flushed, len, 0)?;
    grow(bytes, len, 0)
}

/// Sets what is kept of each of `len` offsets.
pub(crate) fn mark<T: Copy>(cells: &mut Vec<T>, start: usize, len: usize, value: T)
    requires { start + len ≤ length cells.old.items }
    ensures here { (i : ℕ) (d : T) → slice_index_or cells.new.items i d
        ≡ (if within start len i then value else slice_index_or cells.old.items i d) }
    ensures long { length cells.new.items ≡ length cells.old.items }
{
    for i in start..start + len {
        cells[i] = value;
    }
}

/// Takes all marks of failed writes away.
pub(crate) fn calm(torn: &mut Vec<bool>)
    ensures none { (i : ℕ) → is_torn torn.new.items i ≡ false }
    ensures long { length torn.new.items ≡ length torn.old.items }
{
    let len = torn.len();
    mark(torn, 0, len, false);
}

/// How many of `n` bytes from `start` on there are.
pub(crate) fn standing(bytes: &[u8], start: usize, n: usize) -> usize
    requires { start ≤ length bytes.now }
    ensures { result ≡ length (slice_range bytes.now start (start + n)) }
{
    n.min(bytes.len() - start)
}

pub(crate) fn overwrite(cells: &mut Vec<u8>, start: usize, bytes: &[u8])
    requires { start + length bytes.now ≤ length cells.old.items }
    ensures { cells.new.items ≡ splice cells.old.items start (start + length bytes.now) bytes.now }
{
    cells[start..start + bytes.len()].copy_from_slice(bytes);
}

/// How long an area is after a crash, which was `firm` long at the last flush and is `len` long.
pub(crate) fn length_left(rule: CrashRule, firm: usize, len: usize) -> usize
    ensures { result ≡ length_by rule firm len }
{
    match rule {
        CrashRule::Old => firm,
        _ => len,
    }
}

/// Makes both lists no longer than `len`, and the bytes those that are kept.
pub(crate) fn cut(bytes: &mut Vec<u8>, kept: &mut Vec<u8>, len: usize)
    requires bytes { len ≤ length bytes.old.items }
    requires kept { len ≤ length kept.old.items }
    ensures bytes { bytes.new.items ≡ take len kept.old.items }
    ensures kept { kept.new.items ≡ take len kept.old.items }
{
    bytes.truncate(len);
    kept.truncate(len);
    bytes.copy_from_slice(kept);
}

/// Keeps the bytes of these spans as flushed.
pub(crate) fn keep_spans(flushed: &mut Vec<u8>, bytes: &[u8], spans: &[Span])
    requires long { length bytes.now ≤ length flushed.old.items }
    requires inside { AreInside (length bytes.now) spans.now }
    requires same { (i : ℕ) → covers spans.now i ≡ false → byte_at flushed.old.items i ≡ byte_at bytes.now i }
    ensures long { length flushed.new.items ≡ length flushed.old.items }
    ensures same { (i : ℕ) → byte_at flushed.new.items i ≡ byte_at bytes.now i }
{
    for k in 0..spans.len() {
        let span = spans[k];
        let start = span.start as usize;
        overwrite(flushed, start, &bytes[start..start + span.len as usize]);
    }
}

/// Makes the bytes from `start` on what a crash leaves of what was written there.
fn leave_range(flushed: &mut Vec<u8>, start: usize, written: &[u8], rule: CrashRule)
    requires { start + length written.now ≤ length flushed.old.items }
    ensures { flushed.new.items ≡ splice flushed.old.items start (start + length written.now)
        (left_by rule (slice_range flushed.old.items start (start + length written.now)) written.now) }
{
    leave(rule, &mut flushed[start..start + written.len()], written);
}

/// Makes the bytes of a span what a crash leaves of them.
fn leave_span(flushed: &mut Vec<u8>, bytes: &[u8], span: Span, rule: CrashRule)
    requires long { length bytes.now ≤ length flushed.old.items }
    requires inside { span.start + span.len ≤ length bytes.now }
    ensures long { length flushed.new.items ≡ length flushed.old.items }
    ensures here { (i : ℕ) → within span.start span.len i ≡ true
        → LeavesByte rule (byte_at flushed.old.items i) (byte_at bytes.now i) (byte_at flushed.new.items i) }
    ensures same { (i : ℕ) → within span.start span.len i ≡ false
        → byte_at flushed.new.items i ≡ byte_at flushed.old.items i }
{
    let start = span.start as usize;
    let end = start + span.len as usize;
    leave_range(flushed, start, &bytes[start..end], rule);
}

/// Makes the bytes of these spans what a crash leaves of them.
pub(crate) fn leave_spans(flushed: &mut Vec<u8>, bytes: &[u8], spans: &[Span], rule: CrashRule)
    requires long { length bytes.now ≤ length flushed.old.items }
    requires inside { AreInside (length bytes.now) spans.now }
    ensures long { length flushed.new.items ≡ length flushed.old.items }
    ensures left { (i : ℕ) → covers spans.now i ≡ true
        → LeavesByte rule (byte_at flushed.old.items i) (byte_at bytes.now i) (byte_at flushed.new.items i) }
    ensures same { (i : ℕ) → covers spans.now i ≡ false
        → byte_at flushed.new.items i ≡ byte_at flushed.old.items i }
{
    for k in 0..spans.len() {
        leave_span(flushed, bytes, spans[k], rule);
    }
}

/// Makes each byte that a failed write left its complement.
fn complement_torn(flushed: &mut Vec<u8>, bytes: &[u8], torn: &[bool])
    requires long { length bytes.now ≤ length flushed.old.items }
    requires marks { length bytes.now ≤ length torn.now }
    ensures long { length flushed.new.items ≡ length flushed.old.items }
    ensures bytes { (k : ℕ) → byte_at flushed.new.items k
        ≡ (if nat_lt k (length bytes.now) && is_torn torn.now k then 255 - byte_at bytes.now k
        else byte_at flushed.old.items k) }
{
    for i in 0..bytes.len() {
        if torn[i] {
            flushed[i] = 255 - bytes[i];
        }
    }
}

/// Makes each byte that a failed write left what a crash leaves of it.
pub(crate) fn leave_torn(flushed: &mut Vec<u8>, bytes: &[u8], torn: &[bool], rule: CrashRule)
    requires long { length bytes.now ≤ length flushed.old.items }
    requires marks { length bytes.now ≤ length torn.now }
    ensures long { length flushed.new.items ≡ length flushed.old.items }
    ensures bytes { (k : ℕ) → byte_at flushed.new.items k
        ≡ (if nat_lt k (length bytes.now) && is_torn torn.now k
        then torn_by rule (byte_at bytes.now k) (byte_at flushed.old.items k) else byte_at flushed.old.items k) }
{
    match rule {
        CrashRule::Torn => complement_torn(flushed, bytes, torn),
        _ => {}
    }
}
