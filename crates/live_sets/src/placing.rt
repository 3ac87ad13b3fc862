// What the steps of a walk are told: what stays the same in a run, the pieces that are placed, and the latest of them.
use candidates::conflicts::Placed;
use nofit::places::Nofit;
use plans::plan::Plan;

// What is computed once for a run: the job, its plan, its turned parts, and the table of no-fit strings with its
// measures. The steps take it by reference, and it is not Copy: a copy is that of a plan.
// That these belong together (`KnownOf`) is asked by each function and is no ghost field (tried): a plan's record names
// the view that it was taken from, so it has more than one proof.
#[derive(Drop)]
pub struct Fixed<'a> {
    pub job: &'a [u8],
    pub plan: Plan,
    pub nofit: Nofit,
    pub turned: &'a [i16],
    pub strings: &'a [u8],
}

// The pieces that are placed: the numbers of their candidates, how many pieces that are, and how far they reach. (An array
// with its count: a slice has no room for the next number, and the engine has no heap.)
#[derive(Clone, Copy)]
pub struct Branch {
    pub numbers: [usize; 12],
    pub level: usize,
    pub extent: usize,
}

// The piece that was placed last: its kind, the number of its candidate, and where that stands.
#[derive(Clone, Copy)]
pub struct Latest {
    pub kind: usize,
    pub number: usize,
    pub place: Placed,
}
