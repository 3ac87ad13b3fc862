// The layout that a run is given to begin from.
ghost use Rattle.std.specs.Prelude.{true, ◌≡◌, ◌*◌, ◌≤◌, length, is_some};
ghost use Rattle.model.specs.Services.{with_layout};
ghost use Rattle.job.specs.View.{problem_of, Viewed};
ghost use Rattle.candidates.specs.Prepared.{problem_in};
ghost use Rattle.walks.specs.Walk.{held_of};
ghost use Rattle.search.specs.Begin.{GivenBy};

use candidates::prepared::PreparedJob;
use job::View;
use layouts::passing::judge;
use model::Refusal;
use plans::recording::copy_layout;

// Where the layout in the buffer ends. A buffer of no bytes gives none; any other is checked.
pub fn given_layout(prepared: &PreparedJob, layout: &[u8]) -> Result<Option<usize>, Refusal>
    ensures { GivenBy (problem_in prepared.now) layout.now result }
{
    if layout.is_empty() {
        return Ok(None);
    }
    let length = judge(prepared, layout)?;
    let end = length as usize - prepared.view.margin;
    Ok(Some(end))
}

// The layout, if there is one, becomes the first answer numbers. Not of a `PreparedJob`: it reads neither the turned
// parts nor the boxes, and would ask for both.
pub fn hold(job: &[u8], view: View, best: Option<usize>, layout: &[u8], answer: &mut [u8])
    requires viewed { Viewed job.now view × (view.pieces * 8 ≤ length answer.old) }
    requires pieces_in_bounds { is_some best ≡ true → view.pieces * 8 ≤ length layout.now }
    ensures { answer.new ≡ with_layout (held_of (problem_of job.now view) (is_some best) layout.now) answer.old }
{
    if best.is_some() {
        copy_layout(layout, view.pieces, answer);
    }
}
