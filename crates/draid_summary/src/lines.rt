ghost use Rattle.std.specs.Prelude.{◌≡◌, ◌∷◌, ◌<◌, length, position};
ghost use Rattle.draid_lines.specs.Lines.{is_end, lines_of};

/// Where the first end of a line is in a text.
fn line_end(text: &[u8]) -> Option<usize>
    ensures { result ≡ position is_end text.now }
{
    text.iter().position(|byte| *byte == b'\n')
}

/// The first line of a text, without its end, and what stands behind that.
#[tactic(auto, using(crate::proofs::Tallying::line_ended, crate::proofs::Tallying::line_unended))]
pub(crate) fn first_line(text: &[u8]) -> (&[u8], &[u8])
    requires { 0 < length text.now }
    ensures lines { lines_of text.now ≡ result.0.now ∷ lines_of result.1.now }
    ensures shorter { length result.1.now < length text.now }
{
    match line_end(text) {
        Some(len) => {
            let (line, rest) = text.split_at(len);
            let (_, behind) = rest.split_at(1);
            (line, behind)
        }
        None => text.split_at(text.len()),
    }
}
