// The walk of an accepted job, under a margin, from its root, where nothing is placed.
ghost use Rattle.std.specs.Prelude.{◌*◌, ◌+◌, ◌≤◌, length, replicate, is_some, unwrap_or};
ghost use Rattle.candidates.specs.Prepared.{problem_in};
ghost use Rattle.stepping.specs.Levels.{try_level, numbers_at};
ghost use Rattle.plans.specs.Planned.{planned};
ghost use Rattle.walks.specs.Walk.{held_of, Ready, Left};
ghost use Rattle.root.specs.Walked.{RoomFor, Begun, Walked, Computed};

use crate::beginning::settle_first;
use bounding::shrinking::shrink;
use candidates::prepared::PreparedJob;
use live_sets::placing::{Branch, Fixed};
use nofit::measures::nofit_of;
use nofit::patterns::make_nofit;
use nofit::places::Nofit;
use plans::plan::{Plan, make_plan};
use runs::progress::{Progress, begin};
use walks::walk::try_piece;

// How many words the no-fit strings may take. The fewer the steps, the fewer strings are worth their price; 25,399
// words, with the parities and a word more, fill the larger of the two tables.
fn room_for(budget: u32) -> usize
    ensures { result ≤ 25399 }
{
    if budget < 6349 {
        budget as usize * 4
    } else {
        25399
    }
}

// The walk of the first piece, with the table of no-fit strings in the bytes lent. (Three buffers beside what `Fixed` is
// made of here.)
fn walk_over(
    prepared: &PreparedJob,
    plan: Plan,
    nofit: Nofit,
    strings: &mut [u8],
    work: &mut [u8],
    answer: &mut [u8],
    start: Progress,
) -> Progress
    requires computed { Computed prepared.now.job.now prepared.now.view prepared.now.turned.now prepared.now.boxes
        plan nofit }
    requires strings_in_bounds { (nofit.first + nofit.held * nofit.size + 1) * 8 ≤ length strings.old }
    requires ready { Ready (planned prepared.now.job.now plan) work.old answer.old (replicate 12 0) 0 1 0 start }
    ensures { Left (planned prepared.now.job.now plan) (replicate 12 0) work.old answer.old work.new answer.new 1
        start result (try_level (planned prepared.now.job.now plan) (numbers_at (replicate 12 0)) 0 0 start.left
        (held_of (planned prepared.now.job.now plan) start.found answer.old)) }
{
    make_nofit(
        prepared.job,
        prepared.view,
        prepared.turned,
        prepared.boxes,
        nofit,
        strings,
    );
    let fixed = Fixed {
        job: prepared.job,
        plan,
        nofit,
        turned: prepared.turned,
        strings,
    };
    let branch = Branch {
        numbers: [0; 12],
        level: 0,
        extent: 0,
    };
    try_piece(&fixed, &branch, start, work, answer)
}

// The same with a table of its own: a small one where that is enough, since a table is cleared before it is filled.
fn walk_with_table(
    prepared: &PreparedJob,
    plan: Plan,
    nofit: Nofit,
    work: &mut [u8],
    answer: &mut [u8],
    start: Progress,
) -> Progress
    requires computed { Computed prepared.now.job.now prepared.now.view prepared.now.turned.now prepared.now.boxes
        plan nofit × (nofit.first + nofit.held * nofit.size + 1 ≤ 25600) }
    requires ready { Ready (planned prepared.now.job.now plan) work.old answer.old (replicate 12 0) 0 1 0 start }
    ensures { Left (planned prepared.now.job.now plan) (replicate 12 0) work.old answer.old work.new answer.new 1
        start result (try_level (planned prepared.now.job.now plan) (numbers_at (replicate 12 0)) 0 0 start.left
        (held_of (planned prepared.now.job.now plan) start.found answer.old)) }
{
    if nofit.first + nofit.held * nofit.size < 1024 {
        let mut strings = [0u8; 8192];
        return walk_over(prepared, plan, nofit, &mut strings, work, answer, start);
    }
    let mut strings = [0u8; 204800];
    walk_over(prepared, plan, nofit, &mut strings, work, answer, start)
}

// The walk of an accepted job, in buffers that are large enough, from the layout that the answer numbers hold, if
// `best` says where one ends that they hold. What holds for the whole walk is computed first; the table of no-fit
// strings only where look-ahead lets the walk begin.
pub fn walk(
    prepared: &PreparedJob,
    budget: u32,
    best: Option<usize>,
    work: &mut [u8],
    answer: &mut [u8],
) -> Progress
    requires room_for { RoomFor (problem_in prepared.now) work.old answer.old ×
        Begun (problem_in prepared.now) (unwrap_or best (prepared.now.view.length + 1)) (is_some best) answer.old }
    ensures { Walked (problem_in prepared.now) (held_of (problem_in prepared.now) (is_some best) answer.old) budget
        work.old answer.old work.new answer.new result }
{
    let bound = best.unwrap_or(prepared.view.length + 1);
    let found = best.is_some();
    let plan = make_plan(prepared.job, prepared.view, prepared.boxes);
    if !settle_first(
        prepared.job,
        &prepared.view,
        &prepared.boxes,
        plan,
        bound,
        work,
    ) {
        return begin(budget, bound, found, plan.words);
    }
    let span = shrink(prepared.job, &plan, work, plan.words);
    let start = begin(budget, bound, found, span);
    let nofit = nofit_of(
        prepared.job,
        prepared.view,
        prepared.boxes,
        room_for(budget),
    );
    walk_with_table(prepared, plan, nofit, work, answer, start)
}
