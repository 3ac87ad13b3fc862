// The test of a pair of parts: whether they are separated at a gap.
ghost use Rattle.std.specs.Prelude.{map, ◌≡◌, ◌+◌, ◌<◌};
ghost use Rattle.model.specs.Geometry;
ghost use Rattle.geometry.specs.Apart.{clear_of, boxes_apart, both_clear, Beside};
ghost use Rattle.distances.specs.Compact.{Compact, Short};
ghost use Rattle.convexity.specs.Parts.{SoundPart};
ghost use Rattle.polygons.specs.Flat.{part_of, shifted};

use directions::edges::edges_separate;
use distances::corners::corners_clear;
use distances::middles::look;
use distances::parts::{Move, Part};
use polygons::extents::Extents;

// Whether what ends at `high` and is moved by `from` clears, by the gap, what begins at `low` and is moved by `to`.
fn clear_of(high: i16, from: i16, low: i16, to: i16, gap: u16) -> bool
    ensures { result ≡ clear_of gap high from low to }
{
    (high as i64) + (from as i64) + (gap as i64) <= (low as i64) + (to as i64)
}

// Whether these boxes are the gap apart along an axis, the second moved by (dx, dy), however far: a Move would ask more.
pub fn boxes_apart(e: Extents, f: Extents, dx: i16, dy: i16, gap: u16) -> bool
    ensures { result ≡ boxes_apart gap e f dx dy }
{
    clear_of(e.max_x, 0, f.min_x, dx, gap)
        | clear_of(e.max_y, 0, f.min_y, dy, gap)
        | clear_of(f.max_x, dx, e.min_x, 0, gap)
        | clear_of(f.max_y, dy, e.min_y, 0, gap)
}

// Whether no corner of p or of q, moved, is nearer than the gap to an edge of the other one. At gap 0 nothing is asked.
fn both_clear(p: Part, q: Part, by: Move, gap: u16) -> bool
    ensures { result ≡
        both_clear gap (part_of p.entry.numbers.now) (map (shifted by.dx by.dy) (part_of q.entry.numbers.now)) }
{
    gap == 0
        || (corners_clear(q.corners(), by, p.corners(), gap)
            && corners_clear(p.corners(), by.back(), q.corners(), gap))
}

// Whether p and q, moved, are separated at this gap, if that is told without asking the edges of q; where it is not, no
// normal of p separates them. The line through their middles is asked first, and then the edges of p.
fn beside(p: Part, q: Part, by: Move, gap: u16) -> Option<bool>
    ensures { Beside gap (part_of p.entry.numbers.now) (part_of q.entry.numbers.now) by.dx by.dy result }
{
    if let Some(apart) = look(p, q, by, gap) {
        return Some(apart);
    }
    if !edges_separate(p.numbers, q.numbers, by.dx, by.dy) {
        return None;
    }
    Some(both_clear(p, q, by, gap))
}

// Whether p and q, moved by (dx, dy), are separated at this gap: a normal of p or one of q separates them, tried in
// this order, and no corner of the one is too near an edge of the other. Both are sound, and their numbers small, so
// that what is squared fits 64 bits: as those of a job's parts and of the ways on its board are. (The facts stand here
// as clauses, as docs/CONTRACTS.md quotes them; the functions above take them as a Part and a Move.)
pub fn separated(p: &[i16], q: &[i16], dx: i16, dy: i16, gap: u16) -> bool
    requires sound_part { SoundPart (part_of p.now) × SoundPart (part_of q.now) }
    requires short { Short 4096 dx dy × (Compact (part_of p.now) × Compact (part_of q.now)) }
    ensures { result ≡ Geometry.separated gap (part_of p.now) (map (shifted dx dy) (part_of q.now)) }
{
    let first = Part { numbers: p };
    let second = Part { numbers: q };
    let by = Move { dx, dy };
    if let Some(apart) = beside(first, second, by, gap) {
        return apart;
    }
    beside(second, first, by.back(), gap).unwrap_or(false)
}
