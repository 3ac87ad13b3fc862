// Distances of corners from edges, compared squared, in whole numbers.
ghost use Rattle.std.specs.Prelude.{map, ◌≡◌, ◌+◌, ◌*◌, ◌<◌, pos, ◌+ℤ◌, ◌-ℤ◌, ◌*ℤ◌, length};
ghost use Rattle.model.specs.Content.{vertex, origin};
ghost use Rattle.model.specs.Geometry.{vertex_at, following, near_edge, corners_clear};
ghost use Rattle.polygons.specs.Flat.{part_of, shifted};
ghost use Rattle.directions.specs.Directions.{Small};
ghost use Rattle.distances.specs.Compact.{Short, corner_clear};

use crate::parts::{Corners, Move};
use directions::edges::next_vertex;
use integers::{cross, dot};
use polygons::vertices::{Vector, vertex};

// The square of a gap.
pub fn squared(gap: u16) -> i64
    ensures { result ≡ pos gap *ℤ pos gap }
{
    (gap as i64) * (gap as i64)
}

// How far w lies along v, times the length of v.
pub fn way_along(v: Vector, w: Vector) -> i64
    ensures { Small (v.x *ℤ w.x +ℤ v.y *ℤ w.y) 31 result }
{
    dot(v.x as i32, v.y as i32, w.x, w.y)
}

// How far w lies aside of v, to its left, times the length of v.
fn way_aside(v: Vector, w: Vector) -> i64
    ensures { Small (v.x *ℤ w.y -ℤ v.y *ℤ w.x) 31 result }
{
    cross(v.x, v.y, w.x, w.y)
}

// The way from one corner to another.
pub fn way_between(from: Vector, to: Vector) -> Vector
    requires { Short 4096 from.x from.y × Short 8192 to.x to.y }
    ensures { (result.x ≡ to.x -ℤ from.x) × (result.y ≡ to.y -ℤ from.y) }
{
    Vector {
        x: to.x - from.x,
        y: to.y - from.y,
    }
}

// Whether the corner is nearer than the gap to the edge from (0, 0) to `edge`. Before the edge its start counts,
// beyond it its end, and beside it the line.
fn near_edge(edge: Vector, corner: Vector, gap: u16) -> bool
    ensures { result ≡ near_edge gap origin (vertex edge.x edge.y) (vertex corner.x corner.y) }
{
    let square = squared(gap);
    let along = way_along(edge, corner);
    let from_start = way_along(corner, corner);
    if along <= 0 {
        return from_start < square;
    }
    let length = way_along(edge, edge);
    if length <= along {
        // The squared distance from the end.
        return from_start - along - along + length < square;
    }
    let aside = way_aside(edge, corner);
    aside * aside < square * length
}

// Whether the corner is nearer than the gap to the edge of q from vertex k to the next one.
fn edge_near(corner: Vector, q: Corners, k: usize, gap: u16) -> bool
    requires { (k < length (part_of q.numbers.now)) × Short 8192 corner.x corner.y }
    ensures { result ≡
        near_edge gap (vertex_at (part_of q.entry.numbers.now) k)
        (vertex_at (part_of q.entry.numbers.now) (following (part_of q.entry.numbers.now) k))
        (vertex corner.x corner.y) }
{
    let start = vertex(q.numbers, k);
    let end = vertex(q.numbers, next_vertex(q.numbers, k));
    near_edge(way_between(start, end), way_between(start, corner), gap)
}

// Whether the corner is nearer than the gap to no edge of q. The first edge that it is too near ends the test.
fn corner_clear(corner: Vector, q: Corners, gap: u16) -> bool
    requires { Short 8192 corner.x corner.y }
    ensures { result ≡ corner_clear gap (part_of q.entry.numbers.now) (vertex corner.x corner.y) }
{
    (0..q.count()).all(|k| !edge_near(corner, q, k, gap))
}

// The same of corner i of p, moved.
fn moved_clear(p: Corners, i: usize, by: Move, q: Corners, gap: u16) -> bool
    requires { i < length (part_of p.numbers.now) }
    ensures { result ≡
        corner_clear gap (part_of q.entry.numbers.now)
        (shifted by.dx by.dy (vertex_at (part_of p.entry.numbers.now) i)) }
{
    corner_clear(by.moved(vertex(p.numbers, i)), q, gap)
}

// Whether no corner of p, moved, is nearer than the gap to an edge of q. The first corner that is ends the test.
pub fn corners_clear(p: Corners, by: Move, q: Corners, gap: u16) -> bool
    ensures { result ≡
        corners_clear gap (map (shifted by.dx by.dy) (part_of p.entry.numbers.now)) (part_of q.entry.numbers.now) }
{
    (0..p.count()).all(|i| moved_clear(p, i, by, q, gap))
}
