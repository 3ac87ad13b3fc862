// The bounding box of a part.
ghost use Rattle.std.specs.Prelude.{◌≡◌, ◌+◌, ◌*◌, ◌<◌, length};
ghost use Rattle.model.specs.Geometry.{vertex_at};
ghost use Rattle.polygons.specs.Flat.{part_of};
ghost use Rattle.polygons.specs.Boxes.{box, box_of, extents_of, joined};

use crate::vertices::vertex;

// The least and the largest x and y.
#[derive(Clone, Copy)]
pub struct Extents {
    pub min_x: i16,
    pub max_x: i16,
    pub min_y: i16,
    pub max_y: i16,
}

// The box of one vertex.
pub fn point(x: i16, y: i16) -> Extents
    ensures { result ≡ box x x y y }
{
    Extents {
        min_x: x,
        max_x: x,
        min_y: y,
        max_y: y,
    }
}

// The box around two boxes.
pub fn join(e: Extents, f: Extents) -> Extents
    ensures { result ≡ joined e f }
{
    Extents {
        min_x: e.min_x.min(f.min_x),
        max_x: e.max_x.max(f.max_x),
        min_y: e.min_y.min(f.min_y),
        max_y: e.max_y.max(f.max_y),
    }
}

// The box of vertex k.
fn corner(p: &[i16], k: usize) -> Extents
    requires { 2 * k + 1 < length p.now }
    ensures { result ≡ box_of (vertex_at (part_of p.now) k) }
{
    let v = vertex(p, k);
    point(v.x, v.y)
}

// The box of a part; of no vertex, all 0.
pub fn bounds(p: &[i16]) -> Extents
    ensures { result ≡ extents_of (part_of p.now) }
{
    let n = p.len() / 2;
    if n == 0 {
        return point(0, 0);
    }
    let mut e = corner(p, 0);
    for k in 1..n {
        e = join(e, corner(p, k));
    }
    e
}
