// Soundness of a part: cause 7 of refusal.
ghost use Rattle.std.specs.Prelude.{◌||◌, ◌≡◌, ◌+◌, ◌*◌, ◌≤◌, ◌<◌, eqb, length};
ghost use Rattle.model.specs.Format.{vertex_in_range};
ghost use Rattle.model.specs.Geometry.{edge_sound, sound, strictly_left, vertex_at};
ghost use Rattle.model.specs.Lists.{all};
ghost use Rattle.records.specs.Parts.{next_of, unfit_from};

use crate::corners::{Corner, corners_in, strictly_left};

// The corner after corner i of n: the first one after the last.
pub fn next(i: usize, n: usize) -> usize
    requires { i < n }
    ensures { (result ≡ next_of n i) × (result < n) }
{
    if i + 1 == n { 0 } else { i + 1 }
}

// Corner k is not looked at for the edge from p to q: it is one of the two. Every other one is, neighbour of the edge
// or not.
fn spared(n: usize, p: usize, q: usize, k: usize) -> bool
    requires { ((n ≤ 8) × (k < n)) × (q < n) }
    ensures { result ≡ (eqb k p || eqb k q) }
{
    (k == p) | (k == q)
}

// Corner k is p or q, or lies strictly left of the edge from p to q.
fn corner_sound(corners: &[Corner], p: usize, q: usize, k: usize) -> bool
    requires { ((length corners.now ≤ 8) × (k < length corners.now)) × ((p < length corners.now) × (q < length corners.now)) }
    ensures { result ≡ (eqb k p || eqb k q || strictly_left (vertex_at corners.now p) (vertex_at corners.now q) (vertex_at corners.now k)) }
{
    spared(corners.len(), p, q, k) | strictly_left(corners[p], corners[q], corners[k])
}

// Every corner but its ends lies strictly left of the edge from corner i to the one after it, also those that are no
// neighbours of the edge.
fn edge_sound(corners: &[Corner], i: usize) -> bool
    requires { (length corners.now ≤ 8) × (i < length corners.now) }
    ensures { result ≡ edge_sound corners.now i }
{
    let n = corners.len();
    let q = next(i, n);
    (0..n).all(|k| corner_sound(corners, i, q, k))
}

// Every edge is sound.
fn sound(corners: &[Corner]) -> bool
    requires { length corners.now ≤ 8 }
    ensures { result ≡ sound corners.now }
{
    (0..corners.len()).all(|i| edge_sound(corners, i))
}

// No corner has a coordinate of -128.
pub fn in_range(corners: &[Corner]) -> bool
    ensures { result ≡ all vertex_in_range corners.now }
{
    corners.iter().all(|corner| corner.in_range())
}

// Cause 7 for one part of n corners, in a piece of the job that begins at the part's first byte: the number of corners,
// then x and y of each.
pub fn unfit(part: &[u8], n: usize) -> bool
    requires { (n ≤ 8) × (n * 2 + 1 ≤ length part.now) }
    ensures { result ≡ unfit_from part.now n }
{
    let all = corners_in(&part[1..n * 2 + 1]);
    let corners = &all[..n];
    !sound(corners) | !in_range(corners)
}
