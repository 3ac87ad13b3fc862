// Which placements of a kind are candidates, and where they end.
ghost use Rattle.std.specs.Prelude.{◌≡◌, ◌+◌, ◌*◌, ◌≤◌, ◌<◌, pos, ◌+ℤ◌};
ghost use Rattle.model.specs.Candidate.{natural};
ghost use Rattle.candidates.specs.Placements.{Bounded, within, fits_at, placeable, offered, extent_at};

use crate::conflicts::{Placed, placed_of};
use job::View;
use polygons::extents::Extents;
use shapes::boxes::{Boxes, box_at};

// Whether what lies from low to high stays, moved by this much, between the margin and the limit less the margin. (By
// `as`: a size has no `From` into a signed number.)
fn stays_within(low: i16, high: i16, by: usize, margin: usize, limit: usize) -> bool
    requires { (by ≤ 1000) × ((margin ≤ 63) × (limit ≤ 1000)) }
    ensures { result ≡ within low high by margin limit }
{
    ((margin as i64) <= (low as i64) + (by as i64))
        & ((high as i64) + (by as i64) <= (limit as i64) - (margin as i64))
}

// Whether a box stays on the board, clear of the margin, if it is moved to a place.
fn stays_on_board(view: &View, e: Extents, place: Placed) -> bool
    requires { Bounded view.now × ((place.column < view.now.columns) × (place.row < view.now.rows)) }
    ensures { result ≡ fits_at view.now e place.column place.row }
{
    stays_within(
        e.min_x,
        e.max_x,
        place.column * view.step,
        view.margin,
        view.length,
    ) & stays_within(
        e.min_y,
        e.max_y,
        place.row * view.step,
        view.margin,
        view.width,
    )
}

// Whether a kind may stand at a place.
pub fn is_placement(view: &View, boxes: &Boxes, kind: usize, place: Placed) -> bool
    requires { Bounded view.now × (kind < view.now.kinds) }
    ensures { result ≡ placeable view.now boxes.now kind place.column place.row place.rotation }
{
    if (place.column >= view.columns) | (place.row >= view.rows) {
        return false;
    }
    if (place.rotation >= 4)
        | !words::bits::test_bit(view.kind[kind].rotations as u64, place.rotation as u64)
    {
        return false;
    }
    stays_on_board(view, box_at(boxes, kind, place.rotation), place)
}

// Whether a kind has a candidate of this number.
pub fn is_candidate(view: &View, boxes: &Boxes, kind: usize, number: usize) -> bool
    requires { Bounded view.now × (kind < view.now.kinds) }
    ensures { result ≡ offered view.now boxes.now kind number }
{
    is_placement(view, boxes, kind, placed_of(view.rows, number))
}

// The x of what ends at `high`, moved by this much; 0 where that lies before the board.
pub fn end_of(high: i16, by: usize) -> usize
    requires { by ≤ 1000 }
    ensures { result ≡ natural (high +ℤ pos by) }
{
    let x = (high as i64) + (by as i64);
    x.max(0) as usize
}

// The largest x of a kind at a place.
pub fn extent(view: &View, boxes: &Boxes, kind: usize, place: Placed) -> usize
    requires { (Bounded view.now × (kind < view.now.kinds)) × ((place.column < view.now.columns) × (place.rotation < 4)) }
    ensures { result ≡ extent_at view.now boxes.now kind place.column place.rotation }
{
    let e = box_at(boxes, kind, place.rotation);
    end_of(e.max_x, place.column * view.step)
}
