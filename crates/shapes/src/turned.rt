// Every part at each of the four quarter turns, its vertices and its box, computed once for a call.
// Bytes and table go by index and not as slices: each call would cut both by the same sums, and the definitions name
// the place in the table.
ghost use Rattle.std.specs.Prelude.{map, ◌≡◌, ◌+◌, ◌*◌, ◌≤◌, ◌<◌, length, take, drop};
ghost use Rattle.model.specs.Content.{kind_count};
ghost use Rattle.model.specs.Format.{content, vertices};
ghost use Rattle.model.specs.Geometry.{rotated};
ghost use Rattle.job.specs.View.{Viewed};
ghost use Rattle.polygons.specs.Boxes.{extents_of};
ghost use Rattle.polygons.specs.Flat.{part_of};
ghost use Rattle.shapes.specs.Turned.{vertex_in, with_part, with_box, with_slot, PartTurned, KindTurned, TurnedOf, with_vertex};

use crate::quarter_turns::put_rotated;
use frame::fields::byte;
use job::{Kind, View};
use polygons::extents::{Extents, bounds};

// The vertex whose bytes begin at `from`, turned k quarter turns, into the table at `to`.
fn turn_vertex(job: &[u8], from: usize, k: usize, turned: &mut [i16], to: usize)
    requires { (k < 4) × ((from + 2 ≤ length job.now) × (to + 2 ≤ length turned.old)) }
    ensures { turned.new ≡ with_vertex turned.old to (rotated k (vertex_in job.now from)) }
{
    let x = integers::signed_byte(job, from);
    let y = integers::signed_byte(job, from + 1);
    put_rotated(turned, to, x, y, k);
}

// The n vertices whose bytes begin at `from`, turned k quarter turns, into the table from `to` on.
fn turn_vertices(job: &[u8], from: usize, n: usize, k: usize, turned: &mut [i16], to: usize)
    requires { ((k < 4) × (n ≤ 8)) × ((from + n * 2 ≤ length job.now) × (to + n * 2 ≤ length turned.old)) }
    ensures { turned.new ≡ with_part turned.old to (map (rotated k) (vertices n (drop from job.now))) }
{
    for m in 0..n {
        turn_vertex(job, from + m * 2, k, turned, to + m * 2);
    }
}

// The box of the n vertices in the slot that begins at `at`.
fn slot_bounds(turned: &[i16], at: usize, n: usize) -> Extents
    requires { (n ≤ 8) × ((at ≤ 4096) × (at + 4 + n * 2 ≤ length turned.now)) }
    ensures { result ≡ extents_of (part_of (take (n * 2) (drop (at + 4) turned.now))) }
{
    let from = at + 4;
    let to = from + n * 2;
    bounds(&turned[from..to])
}

// A box, into the table from `at` on.
fn put_box(turned: &mut [i16], at: usize, e: Extents)
    requires { (at ≤ 4096) × (at + 4 ≤ length turned.old) }
    ensures { turned.new ≡ with_box turned.old at e }
{
    turned[at..at + 4].copy_from_slice(&[e.min_x, e.max_x, e.min_y, e.max_y]);
}

// A part of n vertices whose bytes begin at `from`, turned k quarter turns, into the slot that begins at `at`:
// first its vertices, then, in front of them, their box.
fn turn_slot(job: &[u8], from: usize, n: usize, k: usize, turned: &mut [i16], at: usize)
    requires { ((k < 4) × (n ≤ 8)) × ((from + n * 2 ≤ length job.now) × ((at ≤ 4096) × (at + 4 + n * 2 ≤ length turned.old))) }
    ensures { turned.new ≡ with_slot turned.old at (map (rotated k) (vertices n (drop from job.now))) }
{
    turn_vertices(job, from, n, k, turned, at + 4);
    let e = slot_bounds(turned, at, n);
    put_box(turned, at, e);
}

// A part of n vertices whose bytes begin at `from`, at all four rotations, into slot q of each plane.
fn turn_part(job: &[u8], from: usize, n: usize, turned: &mut [i16], q: usize)
    requires { ((n ≤ 8) × (q < 48)) × ((from + n * 2 ≤ length job.now) × (length turned.old ≡ 4096)) }
    ensures { PartTurned (vertices n (drop from job.now)) q turned.old turned.new }
{
    for k in 0..4 {
        turn_slot(job, from, n, k, turned, k * 1024 + q * 20);
    }
}

// All parts of a kind.
fn turn_kind(job: &[u8], view: View, kind: usize, turned: &mut [i16])
    requires { (Viewed job.now view × (kind < kind_count (content job.now).kinds)) × (length turned.old ≡ 4096) }
    ensures { KindTurned job.now kind turned.old turned.new }
{
    let Kind { parts, part_at, .. } = view.kind[kind];
    for i in 0..parts {
        let at = part_at[i];
        turn_part(job, at + 1, byte(job, at), turned, kind * 6 + i);
    }
}

// All parts of all kinds.
pub fn turn_all(job: &[u8], view: View, turned: &mut [i16])
    requires { Viewed job.now view × (length turned.old ≡ 4096) }
    ensures { TurnedOf job.now turned.new }
{
    for kind in 0..view.kinds {
        turn_kind(job, view, kind, turned);
    }
}
