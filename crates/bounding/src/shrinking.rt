// How many words of the sets of the first level still have a member.
ghost use Rattle.std.specs.Prelude.{true, ◌≡◌, ℕ, ◌+◌, ◌*◌, ◌≤◌, ◌<◌, length};
ghost use Rattle.words.specs.Number.{number_at};
ghost use Rattle.model.specs.Format.{content};
ghost use Rattle.model.specs.Grid.{set_words};
ghost use Rattle.model.specs.Services.{work_words};
ghost use Rattle.plans.specs.Planned.{PlanOf, planned};
ghost use Rattle.bounding.specs.Trimmed.{Shrunk};

use plans::plan::Plan;
use words::numbers;

// Whether word k of the first level's set is zero for every kind.
fn is_clear(job: &[u8], plan: &Plan, work: &[u8], k: usize) -> bool
    requires { PlanOf job.now plan.now × (k < set_words (content job.now).sheet) ×
        (work_words (planned job.now plan.now) * 8 ≤ length work.now) }
    ensures { result ≡ true → (u : ℕ) → u < plan.now.types → number_at 8 work.now ((u * plan.now.words + k) * 8) ≡ 0 }
{
    for u in 0..plan.types {
        if numbers::get_u64(work, (u * plan.words + k) * 8) != 0 {
            return false;
        }
    }
    true
}

// The number of words up to the last one that is not zero for some kind.
pub fn shrink(job: &[u8], plan: &Plan, work: &[u8], span: usize) -> usize
    requires { PlanOf job.now plan.now × (span ≤ set_words (content job.now).sheet) ×
        (work_words (planned job.now plan.now) * 8 ≤ length work.now) }
    ensures { Shrunk plan.now.types plan.now.words span work.now result }
{
    for k in (0..span).rev() {
        if !is_clear(job, plan, work, k) {
            return k + 1;
        }
    }
    0
}
