// Do two edges of an outline meet anywhere but at the corner that neighbours share? Edge i goes from corner i to the
// one after it.
ghost use Rattle.std.specs.Prelude.{◌≡◌, ◌≤◌, ◌<◌, ◌||◌, ◌&&◌, length};
ghost use Rattle.std.specs.Int.Signed.{lt_z};
ghost use Rattle.model.specs.Geometry.{cross};
ghost use Rattle.outlines.specs.Outline.{is_zero, less_than, same_side, meet, doubles_back, edges_meet};
ghost use Rattle.simplicity.specs.Corners.{neighbours, strikes_in, edge_meets_in};

use crate::corners::previous;
use records::corners::{Corner, difference, strictly_left, turn};
use records::parts::next;

// Corners u and t lie strictly on one side of the line through corners a and b.
fn same_side(a: Corner, b: Corner, u: Corner, t: Corner) -> bool
    ensures { result ≡ same_side a b u t }
{
    (strictly_left(a, b, u) & strictly_left(a, b, t))
        | (strictly_left(b, a, u) & strictly_left(b, a, t))
}

// The coordinate of one corner is less than those of two others.
fn less(p: i8, u: i8, t: i8) -> bool
    ensures { result ≡ (lt_z p u && lt_z p t) }
{
    (p < u) & (p < t)
}

// A line across the axis of these coordinates has the edge from a to b before it and the edge from u to t behind it, or
// the other way round.
fn apart(a: i8, b: i8, u: i8, t: i8) -> bool
    ensures { result ≡ (less_than a b u t || less_than u t a b) }
{
    (less(a, u, t) & less(b, u, t)) | (less(u, a, b) & less(t, a, b))
}

// The edges from a to b and from u to t have a point in common, ends included.
fn meets(a: Corner, b: Corner, u: Corner, t: Corner) -> bool
    ensures { result ≡ meet a b u t }
{
    !(same_side(a, b, u, t)
        | same_side(u, t, a, b)
        | apart(a.x, b.x, u.x, t.x)
        | apart(a.y, b.y, u.y, t.y))
}

// Corners p, c and s lie in one line.
pub fn in_line(p: Corner, c: Corner, s: Corner) -> bool
    ensures { result ≡ is_zero (cross p c s) }
{
    turn(p, c, s) == 0
}

// The edges from p to c and from c to s lie in one line, on one side of c, or one of them has no length.
fn doubles_back(p: Corner, c: Corner, s: Corner) -> bool
    ensures { result ≡ doubles_back p c s }
{
    let along = integers::dot(
        i32::from(difference(p.x, c.x)),
        i32::from(difference(p.y, c.y)),
        difference(s.x, c.x),
        difference(s.y, c.y),
    );
    in_line(p, c, s) & (0 <= along)
}

// Edges i and j of n have a corner in common.
fn share_corner(n: usize, i: usize, j: usize) -> bool
    requires { (i < n) × (j < n) }
    ensures { result ≡ neighbours n i j }
{
    (j == i) | (j == previous(i, n)) | (j == next(i, n))
}

// Edges i and j have no corner in common, and meet.
fn strikes(corners: &[Corner], i: usize, j: usize) -> bool
    requires { (i < length corners.now) × (j < length corners.now) }
    ensures { result ≡ strikes_in corners.now i j }
{
    let n = corners.len();
    !share_corner(n, i, j)
        & meets(
            corners[i],
            corners[next(i, n)],
            corners[j],
            corners[next(j, n)],
        )
}

// Edge i meets another edge elsewhere than in the corner they share.
fn edge_meets(corners: &[Corner], i: usize) -> bool
    requires { i < length corners.now }
    ensures { result ≡ edge_meets_in corners.now i }
{
    let n = corners.len();
    doubles_back(corners[previous(i, n)], corners[i], corners[next(i, n)])
        | (0..n).any(|j| strikes(corners, i, j))
}

// Some edge meets another one elsewhere than in the corner they share.
pub fn edges_meet(corners: &[Corner]) -> bool
    requires { 3 ≤ length corners.now }
    ensures { result ≡ edges_meet corners.now }
{
    (0..corners.len()).any(|i| edge_meets(corners, i))
}
