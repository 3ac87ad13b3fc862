// The text that the command program prints of a run: its first line, and the lines of its layout.
#![tactic(auto)]

ghost use Rattle.std.specs.Prelude.{◌≡◌, ◌++◌, ◌*◌, ◌≤◌, length, drop};
ghost use Rattle.report.specs.Text.{shown_count, rendered_by};

use answers::Numbered;
use model::Outcome;

mod line;
mod text;

// How many of the entries follow the first line: all where a layout is held, and none otherwise.
fn shown_count<E: Numbered>(answer: Result<Outcome, E>, pieces: usize) -> usize
    ensures value { result ≡ shown_count answer pieces }
    ensures few { result ≤ pieces }
{
    match answer {
        Ok(Outcome::Shortest { .. } | Outcome::Stopped { held: Some(_), .. }) => pieces,
        _ => 0,
    }
}

// The text of an answer, whose layout of so many pieces is read from the numbers, at the front of dst. Every later byte
// stays as it is. A run has at most 12 pieces, so that 512 bytes are enough for every text.
pub fn render<E: Numbered>(
    answer: Result<Outcome, E>,
    numbers: &[u8],
    pieces: usize,
    dst: &mut [u8],
) -> usize
    requires pieces_bound { pieces ≤ 12 }
    requires pieces_in_bounds { pieces * 8 ≤ length numbers.now }
    requires in_bounds { 512 ≤ length dst.old }
    ensures value { result ≡ length (rendered_by E.code answer numbers.now pieces) }
    ensures dst_after { dst.new ≡ rendered_by E.code answer numbers.now pieces
        ++ drop (length (rendered_by E.code answer numbers.now pieces)) dst.old }
    ensures upper_bound { result ≤ 512 }
{
    let mut text = text::Text::new();
    line::first(&mut text, answer);
    for i in 0..shown_count(answer, pieces) {
        line::entry(&mut text, numbers, i);
    }
    let len = text.len();
    dst[..len].copy_from_slice(text.as_slice());
    len
}
