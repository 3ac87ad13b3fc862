// The vertices of a flat part.
ghost use Rattle.std.specs.Prelude.{◌≡◌, ◌+◌, ◌*◌, ◌<◌, length};
ghost use Rattle.model.specs.Geometry.{vertex_at};
ghost use Rattle.polygons.specs.Flat.{part_of};

// Where a vertex lies, or the way from one to another.
#[derive(Clone, Copy)]
pub struct Vector {
    pub x: i16,
    pub y: i16,
}

// Vertex k.
pub fn vertex(p: &[i16], k: usize) -> Vector
    requires { 2 * k + 1 < length p.now }
    ensures { (result.x ≡ (vertex_at (part_of p.now) k).x) × (result.y ≡ (vertex_at (part_of p.now) k).y) }
{
    Vector {
        x: p[2 * k],
        y: p[2 * k + 1],
    }
}
