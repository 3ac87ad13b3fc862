// The walk over the pieces: a piece tries its candidates, and a candidate taken passes the walk to the next piece.
ghost use Rattle.std.specs.Prelude.{◌+◌, ◌<◌};
ghost use Rattle.model.specs.Content.{piece_count};
ghost use Rattle.model.specs.Format.{content};
ghost use Rattle.live_sets.specs.Known.{KnownOf, problem};
ghost use Rattle.stepping.specs.Levels.{try_level, go_on_level, numbers_at};
ghost use Rattle.walks.specs.Walk.{held_of, Ready, Taken, Left};

use bounding::lowering::lower;
use branching::choosing::next_live;
use live_sets::placing::{Branch, Fixed};
use lookahead::settling::settle;
use plans::recording::record_layout;
use runs::progress;
use runs::progress::Progress;

// The branch's next piece tries its live candidates in rising order, each against the best of that moment. (No iterator:
// the sets and the bound change below each candidate.)
#[cycle(go_on_try_piece)]
pub fn try_piece(
    fixed: &Fixed,
    branch: &Branch,
    state: Progress,
    work: &mut [u8],
    out: &mut [u8],
) -> Progress
    requires known { KnownOf fixed.now × (branch.now.level < piece_count (content fixed.now.job.now).kinds) }
    requires ready { Ready (problem fixed.now) work.old out.old branch.now.numbers branch.now.level (branch.now.level
        + 1) branch.now.extent state }
    ensures { Left (problem fixed.now) branch.now.numbers work.old out.old work.new out.new (branch.now.level + 1)
        state result (try_level (problem fixed.now) (numbers_at branch.now.numbers) branch.now.level 0 state.left
        (held_of (problem fixed.now) state.found out.old)) }
{
    let mut st = state;
    let mut from = 0;
    while let Some(next) = next_live(fixed, branch, st, work, from) {
        if st.left == 0 {
            return progress::halt(st);
        }
        let mut numbers = branch.numbers;
        numbers[branch.level] = next.number;
        let taken = Branch {
            numbers,
            level: branch.level + 1,
            extent: next.extent,
        };
        st = go_on(fixed, &taken, progress::step(st), work, out);
        if st.stopped {
            return st;
        }
        from = next.number + 1;
    }
    st
}

// What follows once the branch's pieces are placed, the latest just counted: a complete layout becomes the best, and the
// live sets are those at the new bound; else look-ahead, and the next piece.
#[cycle(go_on_try_piece)]
fn go_on(
    fixed: &Fixed,
    branch: &Branch,
    state: Progress,
    work: &mut [u8],
    out: &mut [u8],
) -> Progress
    requires known { KnownOf fixed.now }
    requires ready { Ready (problem fixed.now) work.old out.old branch.now.numbers branch.now.level branch.now.level
        branch.now.extent state }
    requires taken { Taken (problem fixed.now) branch.now.numbers branch.now.level branch.now.extent state }
    ensures { Left (problem fixed.now) branch.now.numbers work.old out.old work.new out.new branch.now.level state
        result (go_on_level (problem fixed.now) (numbers_at branch.now.numbers) branch.now.level state.left (held_of
        (problem fixed.now) state.found out.old)) }
{
    if branch.level == fixed.plan.pieces {
        record_layout(fixed.job, &fixed.plan, branch.numbers, out);
        let span = lower(fixed.job, &fixed.plan, branch.extent, state.span, work);
        return progress::complete(state, branch.extent, span);
    }
    if settle(fixed, branch, state, work) {
        return try_piece(fixed, branch, state, work, out);
    }
    state
}
