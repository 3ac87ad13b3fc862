// Refusal 14 of document 02's "7/13 Pieces drawn as one outline": is an outline simple, anticlockwise, and of numbers
// that are allowed?
#![tactic(auto)]

pub mod area;
pub mod corners;
pub mod edges;

ghost use Rattle.std.specs.Prelude.{◌||◌, ◌≡◌};
ghost use Rattle.outlines.specs.Outline.{count_unfit, odd_byte, cause14};

use records::corners::corners_in;
use records::parts;

// The number of corners is out of range, or an odd byte is left over.
fn miscounted(outline: &[u8]) -> bool
    ensures { result ≡ (count_unfit outline.now || odd_byte outline.now) }
{
    let n = outline.len() / 2;
    !(3..=8).contains(&n) | (outline.len() % 2 != 0)
}

// Cause 14. The corners are counted before they are copied, since there is room for eight.
pub fn unfit(outline: &[u8]) -> bool
    ensures { result ≡ cause14 outline.now }
{
    if miscounted(outline) {
        return true;
    }
    let all = corners_in(outline);
    let corners = &all[..outline.len() / 2];
    !parts::in_range(corners) | (area::doubled_area(corners) <= 0) | edges::edges_meet(corners)
}
