// The candidate that a piece takes next.
ghost use Rattle.std.specs.Prelude.{true, ◌≡◌, ℕ, ◌*◌, ◌≤◌, ◌<◌, length};
ghost use Rattle.words.specs.Sets.{member};
ghost use Rattle.model.specs.Candidate.{is_candidate};
ghost use Rattle.model.specs.Content.{piece_count};
ghost use Rattle.model.specs.Format.{content};
ghost use Rattle.model.specs.Services.{work_words};
ghost use Rattle.plans.specs.Planned.{PlanOf};
ghost use Rattle.stepping.specs.Levels.{piece_kind, placed_of};
ghost use Rattle.stepping.specs.LiveSets.{Spans, Keeps};
ghost use Rattle.stepping.specs.Slots.{slot_of};
ghost use Rattle.live_sets.specs.Known.{problem};
ghost use Rattle.branching.specs.Choosing.{NextMember, NextLive};

use live_sets::placing::{Branch, Fixed};
use plans::lookup;
use runs::progress::Progress;
use words::sets;

// The next candidate to take: its number, and how far the layout reaches with it.
#[derive(Clone, Copy)]
pub struct Next {
    pub number: usize,
    pub extent: usize,
}

// The first member of a set of kind u, from a number on, in its first words.
fn next_in(
    fixed: &Fixed,
    u: usize,
    set: &[u8],
    from: usize,
    extent: usize,
    span: usize,
) -> Option<Next>
    requires plan_of { PlanOf fixed.now.job.now fixed.now.plan × (span ≤ 64) × (span * 8 ≤ length set.now) }
    requires by_index { (m : ℕ) → m < span * 64 → member set.now m ≡ true →
        is_candidate (problem fixed.now) u m ≡ true }
    ensures { NextMember (problem fixed.now) u extent set.now (span * 64) from result }
{
    let number = sets::next_member(set, span as u32, from);
    if number < span * 64 {
        let end = lookup::end_of(fixed.job, &fixed.plan, u, number);
        return Some(Next {
            number,
            extent: end.max(extent),
        });
    }
    None
}

// The first live candidate of the branch's next piece, from a number on: the next member of its set. None is where what
// is placed does not end below the bound.
pub fn next_live(
    fixed: &Fixed,
    branch: &Branch,
    state: Progress,
    work: &[u8],
    from: usize,
) -> Option<Next>
    requires plan_of { PlanOf fixed.now.job.now fixed.now.plan ×
        (branch.now.level < piece_count (content fixed.now.job.now).kinds) ×
        (work_words (problem fixed.now) * 8 ≤ length work.now) }
    requires spans { Spans (problem fixed.now) state.bound state.span ×
        Keeps (problem fixed.now) (placed_of (problem fixed.now) branch.now.numbers branch.now.level) state.bound
        state.span (piece_kind (content fixed.now.job.now).kinds branch.now.level) (slot_of (problem fixed.now)
        work.now branch.now.level (piece_kind (content fixed.now.job.now).kinds branch.now.level)) }
    ensures { NextLive (problem fixed.now) (placed_of (problem fixed.now) branch.now.numbers branch.now.level)
        state.bound (piece_kind (content fixed.now.job.now).kinds branch.now.level) branch.now.extent from result }
{
    if state.bound <= branch.extent {
        return None;
    }
    let kind = fixed.plan.kinds[branch.level] as usize;
    let at = lookup::set_start(fixed.job, &fixed.plan, branch.level, kind) * 8;
    next_in(fixed, kind, &work[at..], from, branch.extent, state.span)
}
