// A new best: the members that do not end below it leave every live set, and the words that no kind needs any more are
// passed over from then on.
ghost use Rattle.std.specs.Prelude.{◌*◌, ◌≤◌, length};
ghost use Rattle.model.specs.Format.{content};
ghost use Rattle.model.specs.Grid.{set_words};
ghost use Rattle.model.specs.Services.{work_words};
ghost use Rattle.plans.specs.Planned.{PlanOf, planned};
ghost use Rattle.bounding.specs.Trimmed.{Admitted, Lowered};

use crate::shrinking::shrink;
use crate::trimming::trim;
use plans::plan::Plan;

// The sets at a lower bound, and how many of their words still have members of the first level.
// A job and its plan go as two, here and below: what else a run has fixed does not exist yet where root trims the first
// level.
pub fn lower(job: &[u8], plan: &Plan, bound: usize, span: usize, work: &mut [u8]) -> usize
    requires plan_of { PlanOf job.now plan.now × (span ≤ set_words (content job.now).sheet) }
    requires admitted { (work_words (planned job.now plan.now) * 8 ≤ length work.old) ×
        Admitted (planned job.now plan.now) span work.old }
    ensures { Lowered (planned job.now plan.now) bound span work.old work.new result }
{
    trim(job, plan, bound, span, work);
    shrink(job, plan, work, span)
}
