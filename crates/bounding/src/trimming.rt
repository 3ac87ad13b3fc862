// The live sets without the members that do not end below a bound.
ghost use Rattle.std.specs.Prelude.{◌&&◌, ◌≡◌, ℕ, ◌+◌, ◌*◌, ◌/◌, ◌%◌, ◌≤◌, ◌<◌, length};
ghost use Rattle.words.specs.Bits.{test_bit};
ghost use Rattle.words.specs.Sets.{member};
ghost use Rattle.model.specs.Content.{kind_count, piece_count};
ghost use Rattle.model.specs.Format.{content};
ghost use Rattle.model.specs.Grid.{set_words};
ghost use Rattle.model.specs.Search.{copies_left};
ghost use Rattle.model.specs.Services.{work_words};
ghost use Rattle.plans.specs.Planned.{PlanOf, planned};
ghost use Rattle.live_sets.specs.Narrowing.{BitsAdmitted, Filled};
ghost use Rattle.stepping.specs.Levels.{pieces_from};
ghost use Rattle.bounding.specs.Trimmed.{ends_below, Trimmable, SetTrimmed, Admitted, Trimmed};

use plans::lookup;
use plans::plan::Plan;
use words::{bits, numbers};

// The bits of a word whose candidates end below the bound. Only the bits that are set are looked at.
fn trim_word(job: &[u8], plan: &Plan, u: usize, first: usize, w: u64, bound: usize) -> u64
    requires { PlanOf job.now plan.now × (first < 65536) × BitsAdmitted (planned job.now plan.now) u first w }
    ensures { (i : ℕ) → test_bit result i ≡ (test_bit w i && ends_below (planned job.now plan.now) bound u (first +
        i)) }
{
    bits::keep(w, |i| lookup::end_of(job, plan, u, first + i) < bound)
}

// The set of so many words at word `at`: its members that end below the bound. (The root trims sets too, so it takes
// their place and their words.)
pub fn trim_set(
    job: &[u8],
    plan: &Plan,
    u: usize,
    bound: usize,
    work: &mut [u8],
    at: usize,
    words: usize,
)
    requires { PlanOf job.now plan.now × Trimmable (planned job.now plan.now) u at words work.old }
    ensures { Filled at words (λ m. member work.old (at * 64 + m) && ends_below (planned job.now plan.now) bound u m)
        work.old work.new }
{
    for k in 0..words {
        let w = numbers::get_u64(work, (at + k) * 8);
        numbers::put_u64(
            work,
            (at + k) * 8,
            trim_word(job, plan, u, k * 64, w, bound),
        );
    }
}

// Set i of all levels and kinds, if copies of its kind are left at its level.
fn trim_next(job: &[u8], plan: &Plan, bound: usize, span: usize, i: usize, work: &mut [u8])
    requires plan_of { PlanOf job.now plan.now × (span ≤ set_words (content job.now).sheet) ×
        (i < piece_count (content job.now).kinds * kind_count (content job.now).kinds) }
    requires work_in_bounds { work_words (planned job.now plan.now) * 8 ≤ length work.old }
    requires trimmable { 0 < copies_left (i % kind_count (content job.now).kinds) (pieces_from (content
        job.now).kinds (i / kind_count (content job.now).kinds)) →
        Trimmable (planned job.now plan.now) (i % kind_count (content job.now).kinds) (i * set_words (content
        job.now).sheet) span work.old }
    ensures { SetTrimmed (planned job.now plan.now) bound span i work.old work.new }
{
    let level = i / plan.types;
    let u = i % plan.types;
    if lookup::copies_left(job, plan, level, u) > 0 {
        trim_set(job, plan, u, bound, work, i * plan.words, span);
    }
}

// All sets, the first words of each.
pub fn trim(job: &[u8], plan: &Plan, bound: usize, span: usize, work: &mut [u8])
    requires plan_of { PlanOf job.now plan.now × (span ≤ set_words (content job.now).sheet) }
    requires admitted { (work_words (planned job.now plan.now) * 8 ≤ length work.old) ×
        Admitted (planned job.now plan.now) span work.old }
    ensures { Trimmed (planned job.now plan.now) bound span (piece_count (content job.now).kinds * kind_count
        (content job.now).kinds) work.old work.new }
{
    let sets = plan.pieces * plan.types;
    for i in 0..sets {
        trim_next(job, plan, bound, span, i, work);
    }
}
