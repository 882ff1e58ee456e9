ghost use Rattle.std.specs.Prelude.{◌≡◌, ◌+◌, sum};
ghost use Rattle.draid_summary.specs.Summary as spec;

use draid_script::decimal;

/// The number that a word `errors=N` tells.
fn error_count(word: &[u8]) -> Option<u64>
    ensures { result ≡ spec.error_count word.now }
{
    match word.strip_prefix(b"errors=") {
        Some(number) => decimal(number),
        None => None,
    }
}

/// So many errors and those that a line tells, or the greatest number.
pub(crate) fn with_errors(before: u64, line: &[u8]) -> u64
    ensures { result ≡ spec.capped (before + sum (spec.error_counts line.now)) }
{
    line.split(|byte: &u8| *byte == b' ')
        .filter_map(|word: &[u8]| error_count(word))
        .fold(
            before,
            |errors: u64, count: u64| errors.saturating_add(count),
        )
}
