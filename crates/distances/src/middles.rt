// A first look at two parts, along the line through their middles: it tells of most pairs with a gap that they are far
// enough apart, or that they are not.
ghost use Rattle.std.specs.Prelude.{map, ◌≡◌};
ghost use Rattle.model.specs.Geometry.{separated};
ghost use Rattle.polygons.specs.Flat.{part_of, shifted};
ghost use Rattle.distances.specs.Compact.{Short};
ghost use Rattle.distances.specs.Middles.{told_by, Tells};

use crate::corners::{squared, way_along, way_between};
use crate::parts::{Move, Part};
use directions::along::{Direction, furthest};
use polygons::vertices::{Vector, vertex};

// The first vertex and the one half way round, added: twice a point about in the middle of the part. (Only the speed
// turns on which one it is.)
fn twice_middle(p: Part) -> Vector
    ensures { Short 8192 result.x result.y }
{
    let first = vertex(p.numbers, 0);
    let half = vertex(p.numbers, p.numbers.len() / 4);
    Vector {
        x: first.x + half.x,
        y: first.y + half.y,
    }
}

// The way from the middle of p to that of q, moved; twice as long.
fn between(p: Part, q: Part, by: Move) -> Vector
    ensures { Short 24576 result.x result.y }
{
    let from = twice_middle(p);
    let to = twice_middle(q);
    Vector {
        x: to.x + 2 * by.dx - from.x,
        y: to.y + 2 * by.dy - from.y,
    }
}

// What `way`, that between the two corners that come next to each other along the line, tells of two parts: that they
// are not separated if it is shorter than the gap, that they are if it goes the gap or more along the line, and
// otherwise nothing.
fn told(line: Vector, way: Vector, gap: u16) -> Option<bool>
    ensures { result ≡ told_by gap line.x line.y way.x way.y }
{
    let square = squared(gap);
    if way_along(way, way) < square {
        return Some(false);
    }
    let width = way_along(line, way);
    if width <= 0 {
        return None;
    }
    if square * way_along(line, line) <= width * width {
        Some(true)
    } else {
        None
    }
}

// Whether p and q, moved, are separated at the gap, if the line through their middles tells it. At gap 0 no distance is
// asked for.
pub fn look(p: Part, q: Part, by: Move, gap: u16) -> Option<bool>
    ensures { Tells result
        (separated gap (part_of p.entry.numbers.now) (map (shifted by.dx by.dy) (part_of q.entry.numbers.now))) }
{
    if gap == 0 {
        return None;
    }
    let line = between(p, q, by);
    let ahead = Direction {
        a: line.x as i32,
        b: line.y as i32,
    };
    let back = Direction {
        a: 0 - (line.x as i32),
        b: 0 - (line.y as i32),
    };
    let i = furthest(p.numbers, ahead);
    let j = furthest(q.numbers, back);
    told(
        line,
        way_between(vertex(p.numbers, i), by.moved(vertex(q.numbers, j))),
        gap,
    )
}
