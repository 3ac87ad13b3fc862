// The live sets of the first level: the candidates of each kind that end below the bound, and look-ahead before the
// first step.
ghost use Rattle.std.specs.Prelude.{[], ◌≡◌, ◌+◌, ◌*◌, ◌≤◌, ◌<◌, length, replicate};
ghost use Rattle.words.specs.Bits.{bits_where};
ghost use Rattle.model.specs.Candidate.{is_candidate};
ghost use Rattle.model.specs.Content.{kind_count};
ghost use Rattle.model.specs.Format.{content};
ghost use Rattle.model.specs.Grid.{set_words};
ghost use Rattle.model.specs.Services.{work_words};
ghost use Rattle.job.specs.View.{problem_of, Viewed};
ghost use Rattle.shapes.specs.Boxes.{BoxesOf};
ghost use Rattle.stepping.specs.LiveSets.{set_of};
ghost use Rattle.plans.specs.Planned.{PlanOf, planned};
ghost use Rattle.live_sets.specs.Narrowing.{Filled, Fillable};
ghost use Rattle.lookahead.specs.Settled.{Settled};

use bounding::trimming::trim_set;
use candidates::placements::is_candidate;
use job::View;
use lookahead::settling::has_members;
use plans::lookup::{copies_left, set_start};
use plans::plan::Plan;
use shapes::boxes::Boxes;
use words::{bits, numbers};

// The bits of a word whose candidates exist.
fn fill_word(job: &[u8], view: &View, boxes: &Boxes, u: usize, first: usize) -> u64
    requires viewed { Viewed job.now view.now × BoxesOf job.now boxes.now }
    requires u_bound { (u < kind_count (content job.now).kinds) × (first < 65536) }
    ensures { result ≡ bits_where 64 (λ i. is_candidate (problem_of job.now view.now) u (first + i)) }
{
    bits::word_of(|i| is_candidate(view, boxes, u, first + i))
}

// The set at word `to`: all candidates of kind u.
fn fill(job: &[u8], view: &View, boxes: &Boxes, u: usize, work: &mut [u8], to: usize, words: usize)
    requires viewed { Viewed job.now view.now × BoxesOf job.now boxes.now }
    requires fillable { Fillable (problem_of job.now view.now) u to words work.old }
    ensures { Filled to words (is_candidate (problem_of job.now view.now) u) work.old work.new }
{
    for k in 0..words {
        let w = fill_word(job, view, boxes, u, k * 64);
        numbers::put_u64(work, (to + k) * 8, w);
    }
}

// The set at word `to`: the candidates of kind u that end below the bound. Without a given layout all do, and no end is
// looked at.
fn fill_below(
    job: &[u8],
    view: &View,
    boxes: &Boxes,
    plan: Plan,
    u: usize,
    bound: usize,
    work: &mut [u8],
    to: usize,
)
    requires viewed { (Viewed job.now view.now × BoxesOf job.now boxes.now × PlanOf job.now plan) ×
        (plan.margin ≡ view.now.margin) }
    requires fillable { Fillable (planned job.now plan) u to plan.words work.old }
    ensures { Filled to plan.words (set_of (planned job.now plan) [] bound u) work.old work.new }
{
    fill(job, view, boxes, u, work, to, plan.words);
    if bound <= view.length {
        trim_set(job, &plan, u, bound, work, to, plan.words);
    }
}

// The sets of the first level, and look-ahead. It ends at the first kind with too few members.
// Not of a `PreparedJob`: that would ask for the turned parts too, which nothing here reads.
pub fn settle_first(
    job: &[u8],
    view: &View,
    boxes: &Boxes,
    plan: Plan,
    bound: usize,
    work: &mut [u8],
) -> bool
    requires viewed { (Viewed job.now view.now × BoxesOf job.now boxes.now × PlanOf job.now plan) ×
        (plan.margin ≡ view.now.margin) }
    requires work_in_bounds { work_words (planned job.now plan) * 8 ≤ length work.old }
    ensures { Settled (planned job.now plan) (replicate 12 0) 0 bound (set_words (content job.now).sheet) work.old
        work.new result }
{
    for u in 0..plan.types {
        let to = set_start(job, &plan, 0, u);
        fill_below(job, view, boxes, plan, u, bound, work, to);
        if !has_members(work, to, plan.words, copies_left(job, &plan, 0, u)) {
            return false;
        }
    }
    true
}
