// How far the walk has come, and what a run answers there.
ghost use Rattle.std.specs.Prelude.{◌≡◌, ◌+◌, ◌-◌, ◌≤◌, ◌<◌};
ghost use Rattle.runs.specs.Told.{begun, stepped, halted, completed, told};

use model::Outcome;

// How far the walk has come: what is left of the budget, what an end has to stay below, in how many words of a live set
// candidates lie that do so, whether a layout is held, whether the walk stopped.
#[derive(Clone, Copy)]
pub struct Progress {
    pub left: u32,
    pub bound: usize,
    pub span: usize,
    // A flag beside the bound, and no Option, which is no plainer: an end is held to the bound in each step, whether a
    // layout is held or not.
    pub found: bool,
    pub stopped: bool,
}

// At the beginning: the whole budget is left, an end has to stay below this bound, a layout is held or not, and
// candidates that stay below it lie in so many words of a set.
pub fn begin(budget: u32, bound: usize, found: bool, span: usize) -> Progress
    ensures { result ≡ begun budget bound found span }
{
    Progress {
        left: budget,
        bound,
        span,
        found,
        stopped: false,
    }
}

// One step was taken.
pub fn step(st: Progress) -> Progress
    requires { 0 < st.left }
    ensures { result ≡ stepped st }
{
    Progress {
        left: st.left - 1,
        stopped: false,
        ..st
    }
}

// A step was to be taken with the budget spent.
pub fn halt(st: Progress) -> Progress
    ensures { result ≡ halted st }
{
    Progress {
        left: 0,
        stopped: true,
        ..st
    }
}

// A layout with this largest end was completed: from now on an end has to stay below it, and candidates that do so lie
// in so many words.
pub fn complete(st: Progress, end: usize, span: usize) -> Progress
    ensures { result ≡ completed st end span }
{
    Progress {
        bound: end,
        span,
        found: true,
        stopped: false,
        ..st
    }
}

// What is answered where the walk came so far. A length is an end plus the margin.
pub fn tell(budget: u32, margin: usize, st: Progress) -> Outcome
    requires { (st.left ≤ budget) × ((margin ≤ 63) × (st.bound ≤ 1001)) }
    ensures { result ≡ told st.stopped st.found (st.bound + margin) (budget - st.left) }
{
    let steps = budget - st.left;
    let length = (st.bound + margin) as u16;
    let held = st.found.then_some(length);
    if st.stopped {
        return Outcome::Stopped { held, steps };
    }
    match held {
        Some(length) => Outcome::Shortest { length, steps },
        None => Outcome::Infeasible { steps },
    }
}
