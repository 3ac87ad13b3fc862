// What the walk looks up in the plan of a run. (The job stands beside the plan: the fact that they belong together speaks
// of both, and the contracts are what may not change.)
ghost use Rattle.std.specs.Prelude.{true, ◌≡◌, ◌<◌};
ghost use Rattle.model.specs.Candidate.{is_candidate};
ghost use Rattle.model.specs.Content.{kind_at, kind_count, piece_count};
ghost use Rattle.model.specs.Format.{content};
ghost use Rattle.model.specs.Gap.{pair_gap};
ghost use Rattle.model.specs.Layout.{entry_of, entry_extent};
ghost use Rattle.model.specs.Search.{copies_left};
ghost use Rattle.shapes.specs.Pieces.{PieceOf};
ghost use Rattle.candidates.specs.Conflicts.{placed_of};
ghost use Rattle.stepping.specs.Levels.{pieces_from};
ghost use Rattle.stepping.specs.Slots.{SetPlace};
ghost use Rattle.plans.specs.Planned.{PlanOf, planned};

use crate::plan::Plan;
use candidates::conflicts::{Placed, gap_between, placed_of};
use candidates::placements;
use geometry::pieces::Piece;

// The piece of a kind. (A loop: an array's `map` goes through an iterator by value, on the walk's way.)
pub fn piece_in(job: &[u8], plan: &Plan, kind: usize) -> Piece
    requires { PlanOf job.now plan.now × (kind < kind_count (content job.now).kinds) }
    ensures { PieceOf job.now kind result }
{
    let planned = &plan.kind[kind];
    let count = usize::from(planned.parts);
    let mut sizes = [0; 6];
    for i in 0..count {
        sizes[i] = usize::from(planned.sizes[i]);
    }
    Piece {
        first: kind * 120,
        count,
        sizes,
    }
}

// The gap of a pair of kinds.
pub fn pair_gap(job: &[u8], plan: &Plan, t: usize, u: usize) -> u16
    requires { PlanOf job.now plan.now × (t < kind_count (content job.now).kinds) ×
        (u < kind_count (content job.now).kinds) }
    ensures { result ≡ pair_gap (content job.now).classes (kind_at (content job.now).kinds t) (kind_at (content
        job.now).kinds u) }
{
    let shared = words::bits::test_bit(plan.shared, (t * 8 + u) as u64);
    gap_between(
        usize::from(plan.kind[t].gap),
        usize::from(plan.kind[u].gap),
        shared,
    )
}

// Where candidate m of kind u ends, which stands at this place.
pub fn end_at(job: &[u8], plan: &Plan, u: usize, m: usize, place: Placed) -> usize
    requires { PlanOf job.now plan.now × (is_candidate (planned job.now plan.now) u m ≡ true) ×
        (place ≡ placed_of plan.now.rows m) }
    ensures { result ≡ entry_extent (planned job.now plan.now) (entry_of (planned job.now plan.now) u m) }
{
    placements::end_of(plan.kind[u].ends[place.rotation], place.column * plan.step)
}

// Where candidate m of kind u ends.
pub fn end_of(job: &[u8], plan: &Plan, u: usize, m: usize) -> usize
    requires { PlanOf job.now plan.now × (is_candidate (planned job.now plan.now) u m ≡ true) }
    ensures { result ≡ entry_extent (planned job.now plan.now) (entry_of (planned job.now plan.now) u m) }
{
    end_at(job, plan, u, m, placed_of(plan.rows, m))
}

// The copies of kind u left at a level.
pub fn copies_left(job: &[u8], plan: &Plan, level: usize, u: usize) -> u8
    requires { PlanOf job.now plan.now × (level < piece_count (content job.now).kinds) × (u < 8) }
    ensures { result ≡ copies_left u (pieces_from (content job.now).kinds level) }
{
    plan.copies[level][u]
}

// The word at which the set of level l and kind u begins.
pub fn set_start(job: &[u8], plan: &Plan, l: usize, u: usize) -> usize
    requires { PlanOf job.now plan.now × (l < piece_count (content job.now).kinds) ×
        (u < kind_count (content job.now).kinds) }
    ensures { SetPlace (planned job.now plan.now) l u result }
{
    (l * plan.types + u) * plan.words
}
