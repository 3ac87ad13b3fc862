// Which corner goes next: document 02, "A corner in line with its neighbours is dropped first, the lowest numbered if
// several. Otherwise the lowest-numbered left turn is cut off whose triangle, border included, holds no other remaining
// corner." The corners are those that remain.
ghost use Rattle.std.specs.Prelude.{[], IfSome, ◌≡◌, ◌≤◌, ◌<◌, length};
ghost use Rattle.outlines.specs.Outline.{holds, in_line, is_ear, first_where};
ghost use Rattle.cutting.specs.Choice.{is_spared, in_line_at, is_ear_at, found};

use records::corners::{Corner, strictly_left, turn};
use records::parts::next;
use simplicity::corners::previous;
use simplicity::edges;

// Corner i is in line with its neighbours.
fn is_in_line(corners: &[Corner], i: usize) -> bool
    requires { (2 ≤ length corners.now) × (i < length corners.now) }
    ensures { result ≡ in_line_at corners.now i }
{
    let n = corners.len();
    edges::in_line(corners[previous(i, n)], corners[i], corners[next(i, n)])
}

// The triangle of corners p, c and s, which turns left, holds corner v. Its border belongs to it.
fn holds(p: Corner, c: Corner, s: Corner, v: Corner) -> bool
    ensures { result ≡ holds p c s v }
{
    (0 <= turn(p, c, v)) & (0 <= turn(c, s, v)) & (0 <= turn(s, p, v))
}

// Corner k does not stand in the way of cutting off the triangle of corners p, c and s: it is one of them, or lies
// outside.
fn is_spared(corners: &[Corner], p: usize, c: usize, s: usize, k: usize) -> bool
    requires { ((p < length corners.now) × (c < length corners.now)) × ((s < length corners.now) × (k < length corners.now)) }
    ensures { result ≡ is_spared corners.now p c s k }
{
    (k == c) | (k == p) | (k == s) | !holds(corners[p], corners[c], corners[s], corners[k])
}

// The turn at corner i is left, and its triangle holds no other corner.
fn is_ear(corners: &[Corner], i: usize) -> bool
    requires { (3 ≤ length corners.now) × (i < length corners.now) }
    ensures { result ≡ is_ear_at corners.now i }
{
    let n = corners.len();
    let p = previous(i, n);
    let s = next(i, n);
    strictly_left(corners[p], corners[i], corners[s])
        & (0..n).all(|k| is_spared(corners, p, i, s, k))
}

// The lowest-numbered corner in line with its neighbours.
pub fn first_in_line(corners: &[Corner]) -> Option<usize>
    requires { 2 ≤ length corners.now }
    ensures value { first_where in_line [] corners.now ≡ found corners.now result }
    ensures within { IfSome result (λ i. i < length corners.now) }
{
    (0..corners.len()).find(|i| is_in_line(corners, *i))
}

// The lowest-numbered ear.
pub fn first_ear(corners: &[Corner]) -> Option<usize>
    requires { 3 ≤ length corners.now }
    ensures value { first_where is_ear [] corners.now ≡ found corners.now result }
    ensures within { IfSome result (λ i. i < length corners.now) }
{
    (0..corners.len()).find(|i| is_ear(corners, *i))
}
