// How far a vertex or a move lies along a direction, and which vertex of a part lies furthest.
ghost use Rattle.std.specs.Prelude.{◌≤◌, length};
ghost use Rattle.model.specs.Content.{vertex};
ghost use Rattle.model.specs.Geometry;
ghost use Rattle.model.specs.Geometry.{direction};
ghost use Rattle.polygons.specs.Flat.{part_of};
ghost use Rattle.directions.specs.Directions.{Small, Furthest};

use integers::dot;
use polygons::vertices::{Vector, vertex};

// A direction: a along x, and b along y.
#[derive(Clone, Copy)]
pub struct Direction {
    pub a: i32,
    pub b: i32,
}

// How far v lies along d.
pub fn along(d: Direction, v: Vector) -> i64
    ensures { Small (Geometry.along (direction d.a d.b) (vertex v.x v.y)) 47 result }
{
    dot(d.a, d.b, v.x, v.y)
}

// A vertex of the part that lies furthest along d.
pub fn furthest(p: &[i16], d: Direction) -> usize
    requires { 2 ≤ length p.now }
    ensures { Furthest (part_of p.now) (direction d.a d.b) result }
{
    let mut best: usize = 0;
    let mut most = along(d, vertex(p, 0));
    for k in 1..p.len() / 2 {
        let here = along(d, vertex(p, k));
        if most < here {
            best = k;
            most = here;
        }
    }
    best
}
