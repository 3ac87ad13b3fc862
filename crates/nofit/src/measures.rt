// How far the pieces of a job reach, and how large a table of no-fit patterns it needs.
ghost use Rattle.std.specs.Prelude.{◌+◌, ◌*◌, ◌/◌, ◌≤◌, ◌<◌, pos, ◌+ℤ◌, ◌-ℤ◌, ◌≤ℤ◌};
ghost use Rattle.model.specs.Format.{content};
ghost use Rattle.job.specs.View.{Viewed, rotations_of, gap_of};
ghost use Rattle.shapes.specs.Boxes.{BoxesOf};
ghost use Rattle.candidates.specs.Placements.{Bounded};
ghost use Rattle.nofit.specs.Patterns.{Reaching, MeasuresOf};
ghost use Rattle.nofit.specs.Measures.{Around, NoLarger, Spaced};

use crate::places::Nofit;
use job::View;
use polygons::extents::{Extents, join};
use shapes::boxes::{Boxes, box_at};

// The lowest rotation of a mask. (Only the speed turns on which one it is.)
fn lowest_turn(mask: usize) -> usize
    ensures { result < 4 }
{
    words::bits::lowest_bit(mask as u64) % 4
}

// The box around all kinds at all rotations that they may have.
fn common_box(view: View, boxes: Boxes) -> Extents
    requires { Bounded view }
    ensures { Around (rotations_of view) boxes.of (view.kinds * 4) result }
{
    let mut e = box_at(&boxes, 0, lowest_turn(view.kind[0].rotations));
    for i in 0..view.kinds * 4 {
        if words::bits::test_bit(view.kind[i / 4].rotations as u64, (i % 4) as u64) {
            e = join(e, boxes.of[i]);
        }
    }
    e
}

// The largest gap of a kind.
fn largest_gap(view: View) -> usize
    requires { Bounded view }
    ensures { (result ≤ 63) × NoLarger (gap_of view) view.kinds result }
{
    let mut largest = 0;
    for t in 0..view.kinds {
        largest = largest.max(view.kind[t].gap);
    }
    largest
}

// How far apart two pieces have to stand that each lie from low to high, with the gap between them.
fn span_of(low: i16, high: i16, gap: usize) -> usize
    requires { gap ≤ 63 }
    ensures { (((high -ℤ low) +ℤ pos gap) ≤ℤ pos result) × (result ≤ 66000) }
{
    let x = (high as i64) - (low as i64) + (gap as i64);
    x.max(0) as usize
}

// So many columns of a board are a span apart, at least one and at most all of them.
fn columns_over(span: usize, step: usize, columns: usize) -> usize
    requires { (span ≤ 66000) × ((1 ≤ step) × ((step ≤ 1000) × (1 ≤ columns))) }
    ensures { Spaced span step columns result }
{
    span.div_ceil(step).clamp(1, columns)
}

// How many columns apart two pieces have to stand so that none of the job's pieces, at any rotations that they may
// have, are in conflict.
pub fn reach_of(job: &[u8], view: View, boxes: Boxes) -> usize
    requires { Viewed job.now view × BoxesOf job.now boxes }
    ensures { Reaching (content job.now) result × ((1 ≤ result) × (result ≤ view.columns)) }
{
    let all = common_box(view, boxes);
    let span = span_of(all.min_x, all.max_x, largest_gap(view));
    columns_over(span, view.step, view.columns)
}

// So many words have the parities of all numbers of a board, which begin one column before it.
fn parity_words(rows: usize, columns: usize) -> usize
    requires { (1 ≤ columns) × (columns * rows ≤ 1024) }
    ensures { (rows * 4 + (columns * rows + 15) / 16 * 64 ≤ result * 64) × (result ≤ 200) }
{
    (rows * 4).div_ceil(64) + (columns * rows).div_ceil(16)
}

// So many words has a string: the columns of both sides and the placed piece's own, a word before them and one behind
// them.
fn string_words(rows: usize, reach: usize) -> usize
    requires { ((1 ≤ reach) × (1 ≤ rows)) × (reach * rows ≤ 1024) }
    ensures { ((reach * 2 + 1) * rows * 4 + 128 ≤ result * 64) × (result ≤ 200) }
{
    ((reach * 2 + 1) * rows * 4).div_ceil(64) + 2
}

// So many strings are held: all of them, or as many as there is room for.
fn strings_held(kinds: usize, size: usize, room: usize) -> usize
    requires { (kinds ≤ 8) × (1 ≤ size) }
    ensures { (result ≤ kinds * (kinds + 1) * 4) × (result * size ≤ room) }
{
    (kinds * (kinds + 1) * 4).min(room / size)
}

// The measures of the table for this job, whose strings take at most so many words.
pub fn nofit_of(job: &[u8], view: View, boxes: Boxes, room: usize) -> Nofit
    requires { Viewed job.now view × BoxesOf job.now boxes }
    ensures { MeasuresOf job.now result × (result.held * result.size ≤ room) }
{
    let rows = view.rows;
    let reach = reach_of(job, view, boxes);
    let first = parity_words(rows, view.columns);
    let size = string_words(rows, reach);
    Nofit {
        kinds: view.kinds,
        rows,
        reach,
        first,
        size,
        held: strings_held(view.kinds, size, room),
    }
}
