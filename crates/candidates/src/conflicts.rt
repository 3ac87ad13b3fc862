// Conflict of two pieces, each on a dot and at a rotation.
ghost use Rattle.std.specs.Prelude.{◌≡◌, ◌*◌, ◌≤◌, ◌<◌, pos, ◌-ℤ◌};
ghost use Rattle.job.specs.Gaps.{same_cut};
ghost use Rattle.job.specs.View.{cut_of};
ghost use Rattle.shapes.specs.Pieces.{Turnable};
ghost use Rattle.candidates.specs.Placements.{Bounded};
ghost use Rattle.candidates.specs.Conflicts.{Near, placed_of, conflict_between, gap_between, view_gap};

use geometry::pieces::{Piece, pieces_conflict};
use job::View;
use shapes::pieces::turned_to;

// A dot and a rotation.
#[derive(Clone, Copy)]
pub struct Placed {
    pub column: usize,
    pub row: usize,
    pub rotation: usize,
}

// The place of a candidate number on a board of so many rows.
pub fn placed_of(rows: usize, number: usize) -> Placed
    requires { 1 ≤ rows }
    ensures { result ≡ placed_of rows number }
{
    Placed {
        column: number / 4 / rows,
        row: number / 4 % rows,
        rotation: number % 4,
    }
}

// How far it is from one coordinate to another.
fn way(from: usize, to: usize) -> i16
    requires { (from ≤ 1000) × (to ≤ 1000) }
    ensures { result ≡ pos to -ℤ pos from }
{
    (to as i16) - (from as i16)
}

// Whether the piece p at the place a is in conflict with the piece q at the place c.
// Only the way from the one dot to the other counts.
pub fn conflict_between(
    turned: &[i16],
    step: usize,
    p: Piece,
    a: Placed,
    q: Piece,
    c: Placed,
    gap: u16,
) -> bool
    requires { (Turnable turned.now p × Near step a) × (Turnable turned.now q × Near step c) }
    ensures { result ≡ conflict_between turned.now step p a q c gap }
{
    let dx = way(a.column * step, c.column * step);
    let dy = way(a.row * step, c.row * step);
    pieces_conflict(
        turned,
        turned_to(p, a.rotation),
        turned_to(q, c.rotation),
        dx,
        dy,
        gap,
    )
}

// Two kinds share a common cut: the best-ranked class of both is the same, and it is marked.
#[tactic(auto, unfolding(job::specs::Gaps::same_cut))]
pub fn share_cut(view: &View, kind: usize, other: usize) -> bool
    requires { (kind < 8) × (other < 8) }
    ensures { result ≡ same_cut (cut_of view.now kind) (cut_of view.now other) }
{
    match (view.kind[kind].cut, view.kind[other].cut) {
        (Some(first), Some(second)) => first == second,
        _ => false,
    }
}

// The gap of a pair of kinds, from the gaps of both: none where they share a common cut, and
// otherwise the larger of the two.
pub fn gap_between(g: usize, h: usize, shared: bool) -> u16
    requires { (g ≤ 63) × (h ≤ 63) }
    ensures { result ≡ gap_between g h shared }
{
    if shared {
        return 0;
    }
    g.max(h) as u16
}

// The gap of a pair of kinds.
pub fn pair_gap(view: &View, kind: usize, other: usize) -> u16
    requires { Bounded view.now × ((kind < view.now.kinds) × (other < view.now.kinds)) }
    ensures { result ≡ view_gap view.now kind other }
{
    gap_between(
        view.kind[kind].gap,
        view.kind[other].gap,
        share_cut(view, kind, other),
    )
}
