// What the gap of a pair turns on: the best-ranked class of a type, which is the one with the smallest rank number; and
// the gap of a type in no class, which is the largest of the class list.
ghost use Rattle.std.specs.Prelude.{◌≡◌, ◌+◌, ◌*◌, ◌≤◌, ◌<◌, length};
ghost use Rattle.model.specs.Gap.{largest_gap};
ghost use Rattle.records.specs.Classes.{classes_from};
ghost use Rattle.job.specs.Gaps.{best_at, offered, offered_id, best_below};

use frame::fields;
use records::{classes, kinds};

// The best-ranked class so far: its rank, if there is one; its gap, and its id if it is marked as common cut. As long
// as there is none, the gap is that of a type in no class.
#[derive(Clone, Copy)]
pub struct Best {
    pub rank: Option<usize>,
    pub gap: usize,
    pub cut: Option<usize>,
}

// The class of this id, whose record stands at byte o, as the best so far.
#[tactic(auto, unfolding(crate::specs::Gaps::best_at))]
fn class_at(job: &[u8], o: usize, id: usize) -> Best
    requires { o + 3 ≤ length job.now }
    ensures { result ≡ best_at job.now o id }
{
    let byte = fields::byte(job, o + 2);
    Best {
        rank: Some(fields::byte(job, o + 1)),
        gap: classes::gap_meant(byte),
        cut: classes::marks_cut(byte).then_some(id),
    }
}

// The better of the best so far and one more class, which has to have the smaller rank number.
#[tactic(auto, unfolding(crate::specs::Gaps::offered, crate::specs::Gaps::no_worse))]
fn offer(best: Best, next: Best) -> Best
    ensures { result ≡ offered best next }
{
    match (best.rank, next.rank) {
        (Some(rank), Some(next_rank)) if rank <= next_rank => best,
        _ => next,
    }
}

// The better of the best so far and the class of this id, if the mask names it and there is one.
fn offer_id(job: &[u8], at: usize, n: usize, mask: usize, id: usize, best: Best) -> Best
    requires { ((n < 256) × (id < 64)) × (at + n * 3 ≤ length job.now) }
    ensures { result ≡ offered_id job.now at n mask id best }
{
    match classes::find(job, at, n, id) {
        Some(j) if kinds::names(mask, id) => offer(best, class_at(job, at + j * 3, id)),
        _ => best,
    }
}

// The best-ranked class of a type with this class mask, of the n classes from byte `at` on. A type in no class has the
// default gap, with which the search begins.
pub fn best_class(job: &[u8], at: usize, n: usize, default: usize, mask: usize) -> Best
    requires { (n < 256) × (at + n * 3 ≤ length job.now) }
    ensures { result ≡ best_below job.now at n default mask 8 }
{
    let mut best = Best {
        rank: None,
        gap: default,
        cut: None,
    };
    for id in 0..8 {
        best = offer_id(job, at, n, mask, id, best);
    }
    best
}

// The largest gap of the n classes from byte `at` on, and 0 if there is none.
pub fn largest_gap(job: &[u8], at: usize, n: usize) -> usize
    requires { (n < 256) × (at + n * 3 ≤ length job.now) }
    ensures { result ≡ largest_gap (classes_from job.now at n) }
{
    (0..n)
        .map(|i| classes::gap_meant(fields::byte(job, at + i * 3 + 2)))
        .max()
        .unwrap_or(0)
}
