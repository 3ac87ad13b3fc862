// Where the search meets the geometry: which candidates stay once a piece is placed, by the corners of both.
ghost use Rattle.std.specs.Prelude.{true, ◌≡◌};
ghost use Rattle.model.specs.Candidate.{is_candidate};
ghost use Rattle.model.specs.Layout.{entry_of, conflict};
ghost use Rattle.candidates.specs.Conflicts.{placed_of};
ghost use Rattle.live_sets.specs.Known.{problem, Standing};
ghost use Rattle.live_sets.specs.Narrowing.{stays};

use crate::placing::{Fixed, Latest};
use candidates::conflicts::{Placed, conflict_between, placed_of};
use plans::lookup;

// Whether the latest piece is in conflict with candidate m of kind u, at the place.
fn in_conflict(fixed: &Fixed, latest: &Latest, u: usize, m: usize, place: Placed) -> bool
    requires known { Standing fixed.now latest.now }
    requires are_candidates { (is_candidate (problem fixed.now) latest.now.kind latest.now.number ≡ true) ×
        (is_candidate (problem fixed.now) u m ≡ true) }
    requires stands { place ≡ placed_of fixed.now.plan.rows m }
    ensures { result ≡ conflict (problem fixed.now) (entry_of (problem fixed.now) latest.now.kind latest.now.number)
        (entry_of (problem fixed.now) u m) }
{
    let first = lookup::piece_in(fixed.job, &fixed.plan, latest.kind);
    let second = lookup::piece_in(fixed.job, &fixed.plan, u);
    let gap = lookup::pair_gap(fixed.job, &fixed.plan, latest.kind, u);
    conflict_between(
        fixed.turned,
        fixed.plan.step,
        first,
        latest.place,
        second,
        place,
        gap,
    )
}

// Candidate m of kind u stays once the latest piece is placed. The cheap test comes first.
pub fn still_live(fixed: &Fixed, latest: &Latest, u: usize, m: usize) -> bool
    requires known { Standing fixed.now latest.now }
    requires are_candidates { (is_candidate (problem fixed.now) latest.now.kind latest.now.number ≡ true) ×
        (is_candidate (problem fixed.now) u m ≡ true) }
    ensures { result ≡ stays (problem fixed.now) latest.now.kind latest.now.number u m }
{
    if (latest.kind == u) & (m <= latest.number) {
        return false;
    }
    let place = placed_of(fixed.plan.rows, m);
    !in_conflict(fixed, latest, u, m, place)
}
