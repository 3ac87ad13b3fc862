// The triangles, "in the order they are cut off". A place in the answer is counted in numbers.
ghost use Rattle.std.proofs.Math.Option.{some};
ghost use Rattle.std.specs.Prelude.{◌≡◌, ◌+◌, ◌*◌, ◌-◌, ◌≤◌, ◌<◌, length};
ghost use Rattle.model.specs.Services.{vertex_numbers};
ghost use Rattle.outlines.specs.Outline.{triangle_at, triangles};
ghost use Rattle.outlines.specs.Service.{triangle_numbers, triangles_numbers, triangles_of};
ghost use Rattle.outlines.specs.Numbered.{place_at};
ghost use Rattle.cutting.specs.Choice.{coordinate_number};
ghost use Rattle.writing.specs.Numbers.{with_numbers_at};

use crate::{ears, rest};
use records::corners::Corner;
use records::parts::next;
use simplicity::corners::previous;

// A coordinate as a number: a negative one is written as 65,536 plus it.
fn coordinate_number(z: i8) -> usize
    ensures { (result ≡ coordinate_number z) × (result < 65536) }
{
    usize::from(i16::from(z).cast_unsigned())
}

// x and y of a corner.
fn put_corner(corner: Corner, answer: &mut [u8], at: usize)
    requires { (at + 2) * 2 ≤ length answer.old }
    ensures { answer.new ≡ with_numbers_at at (vertex_numbers corner) answer.old }
{
    writing::put(answer, at, coordinate_number(corner.x));
    writing::put(answer, at + 1, coordinate_number(corner.y));
}

// The triangle of corner i, "starting at the corner cut off and going on to its successor"; "third corner is the
// predecessor of the one cut off".
fn put_triangle(corners: &[Corner], i: usize, answer: &mut [u8], at: usize)
    requires { ((2 ≤ length corners.now) × (i < length corners.now)) × ((at + 6) * 2 ≤ length answer.old) }
    ensures { answer.new ≡ with_numbers_at at (triangle_numbers (triangle_at (place_at corners.now i))) answer.old }
{
    let n = corners.len();
    put_corner(corners[i], answer, at);
    put_corner(corners[next(i, n)], answer, at + 2);
    put_corner(corners[previous(i, n)], answer, at + 4);
}

// Cuts the corners that remain and tells how many triangles there were: one corner goes, and "the rest, which has one
// corner fewer, is cut likewise until two corners remain".
pub fn cut_off(corners: &[Corner], answer: &mut [u8], at: usize) -> usize
    requires in_bounds { ((2 ≤ length corners.now) × (length corners.now ≤ 8)) × ((at + (length corners.now - 2) * 6) * 2 ≤ length answer.old) }
    requires cut_to_the_end { triangles corners.now ≡ some (triangles_of corners.now) }
    ensures value { (result ≡ length (triangles_of corners.now)) × (result ≤ length corners.now - 2) }
    ensures answer_after { answer.new ≡ with_numbers_at at (triangles_numbers (triangles_of corners.now)) answer.old }
{
    let n = corners.len();
    if n == 2 {
        return 0;
    }
    if let Some(flat) = ears::first_in_line(corners) {
        let left = rest::without(corners, flat);
        return cut_off(&left[..n - 1], answer, at);
    }
    // No corner is in line, so one is an ear: these corners are cut.
    let ear = ears::first_ear(corners).unwrap();
    put_triangle(corners, ear, answer, at);
    let left = rest::without(corners, ear);
    1 + cut_off(&left[..n - 1], answer, at + 6)
}
