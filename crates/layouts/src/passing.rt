// Which layouts of an accepted job pass.
ghost use Rattle.std.specs.Prelude.{◌≡◌};
ghost use Rattle.model.specs.Layout;
ghost use Rattle.model.specs.Services.{check_content};
ghost use Rattle.candidates.specs.Prepared.{problem_in};
ghost use Rattle.layouts.specs.Handed.{problem_for, layout_for};

use crate::handed::Handed;
use candidates::prepared::PreparedJob;
use model::Refusal;

impl<'a> Handed<'a> {
    // Whether the layout passes. Conflict is tested last: it is told of candidates only.
    fn passes(&self) -> bool
        ensures { result ≡ Layout.passes (problem_for self.now) (layout_for self.now) }
    {
        self.in_order() && self.demand_met() && self.all_admitted() && self.all_apart()
    }
}

// What is answered to a layout: 11 if it has another count of numbers or does not pass, otherwise its length.
pub fn judge(prepared: &PreparedJob, layout: &[u8]) -> Result<u16, Refusal>
    ensures { result ≡ check_content (problem_in prepared.now) layout.now }
{
    if layout.len() / 2 != 4 * prepared.view.pieces {
        return Err(Refusal::Layout);
    }
    let handed = Handed { prepared, layout };
    if !handed.passes() {
        return Err(Refusal::Layout);
    }
    Ok(handed.length() as u16)
}
