// The edges of a part, and the tests whether the normal of one of them separates it from another part.
ghost use Rattle.std.specs.Prelude.{◌≡◌, ◌+◌, ◌*◌, ◌<◌, ◌-ℤ◌, length};
ghost use Rattle.model.specs.Content.{vertex};
ghost use Rattle.model.specs.Geometry.{following, normals};
ghost use Rattle.model.specs.Lists.{any};
ghost use Rattle.convexity.specs.Parts.{SoundPart};
ghost use Rattle.polygons.specs.Flat.{part_of};
ghost use Rattle.directions.specs.Directions.{separates_moved};

use crate::along::{Direction, along};
use polygons::vertices::{Vector, vertex};

// The outward normal of the edge between two vertices.
fn outward_normal(from: Vector, to: Vector) -> Direction
    ensures { (result.a ≡ to.y -ℤ from.y) × (result.b ≡ from.x -ℤ to.x) }
{
    Direction {
        a: (to.y as i32) - (from.y as i32),
        b: (from.x as i32) - (to.x as i32),
    }
}

// The vertex after vertex k: the first one after the last.
pub fn next_vertex(p: &[i16], k: usize) -> usize
    requires { 2 * k + 1 < length p.now }
    ensures { (result ≡ following (part_of p.now) k) × (2 * result + 1 < length p.now) }
{
    if 2 * k + 3 < p.len() { k + 1 } else { 0 }
}

// Whether the outward normal of an edge of p separates p from q, moved by (dx, dy). The first one that does ends the
// test. Both are sound: no vertex of p lies further along the normal than the edge's own, so that only those of q are
// asked, and the first that does not lie beyond it ends the test of that normal.
// (The parts are slices, since a struct with small numbers, as distances has it, would ask for more.)
pub fn edges_separate(p: &[i16], q: &[i16], dx: i16, dy: i16) -> bool
    requires { SoundPart (part_of p.now) × SoundPart (part_of q.now) }
    ensures { result ≡ any (separates_moved (part_of p.now) (part_of q.now) (vertex dx dy)) (normals (part_of p.now)) }
{
    let offset = Vector { x: dx, y: dy };
    'directions: for k in 0..p.len() / 2 {
        let from = vertex(p, k);
        let to = vertex(p, next_vertex(p, k));
        let normal = outward_normal(from, to);
        let limit = along(normal, from) - along(normal, offset);
        for i in 0..q.len() / 2 {
            if along(normal, vertex(q, i)) < limit {
                continue 'directions;
            }
        }
        return true;
    }
    false
}
