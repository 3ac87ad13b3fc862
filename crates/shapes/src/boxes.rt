// The least and the largest x and y of each kind at each rotation, computed once for a call.
ghost use Rattle.std.specs.Prelude.{◌≡◌, ◌<◌};
ghost use Rattle.model.specs.Lists.{concat};
ghost use Rattle.job.specs.View.{Viewed};
ghost use Rattle.polygons.specs.Boxes.{extents_of};
ghost use Rattle.geometry.specs.Pieces.{Standing, parts_in};
ghost use Rattle.shapes.specs.Turned.{TurnedOf};
ghost use Rattle.shapes.specs.Boxes.{box_at, BoxesOf};

use crate::pieces::{piece_of, turned_to};
use geometry::pieces::{Piece, part_box};
use job::View;
use polygons::extents::{Extents, join, point};

// The box of kind t turned k quarter turns stands at t × 4 + k: one list, since the no-fit patterns and the plan go over
// all boxes by that index.
#[derive(Clone, Copy)]
pub struct Boxes {
    pub of: [Extents; 32],
}

// The box of kind t, turned k quarter turns. Nothing else chooses one box; a loop may go over all. (By reference: it is
// asked many thousand times for a call, and all boxes are 256 bytes.)
pub fn box_at(boxes: &Boxes, t: usize, k: usize) -> Extents
    requires { (t < 8) × (k < 4) }
    ensures { result ≡ box_at boxes.now t k }
{
    boxes.of[t * 4 + k]
}

// The box of all parts of a piece, as it stands in the table.
fn piece_box(table: &[i16], p: Piece) -> Extents
    requires { Standing table.now p }
    ensures { result ≡ extents_of (concat (parts_in table.now p)) }
{
    let mut e = part_box(table, p, 0);
    for i in 1..p.count {
        e = join(e, part_box(table, p, i));
    }
    e
}

// The boxes of all kinds.
pub fn boxes_of(job: &[u8], view: View, turned: &[i16]) -> Boxes
    requires { Viewed job.now view × TurnedOf job.now turned.now }
    ensures { BoxesOf job.now result }
{
    let mut of = [point(0, 0); 32];
    for t in 0..view.kinds {
        let p = piece_of(job, &view, t);
        for k in 0..4 {
            of[t * 4 + k] = piece_box(turned, turned_to(p, k));
        }
    }
    Boxes { of }
}
