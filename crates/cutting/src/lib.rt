// The cut service of document 02's "7/13 Pieces drawn as one outline": an outline cut into triangles, corner by corner.
#![tactic(auto)]

ghost use Rattle.std.specs.Prelude.{◌≡◌};
ghost use Rattle.outlines.specs.Service as Service;

use model::Refusal;
use records::corners::corners_in;

mod ears;
mod rest;
mod triangles;

// The cut service. An unfit outline is refused before the answer is looked at, and the answer has room for six
// triangles however few there are. A refusal changes no byte of it.
pub fn cut(outline: &[u8], answer: &mut [u8]) -> Result<u16, Refusal>
    ensures value { result ≡ (Service.cut outline.now answer.old).answer }
    ensures answer_after { answer.new ≡ (Service.cut outline.now answer.old).buffer }
{
    if simplicity::unfit(outline) {
        return Err(Refusal::Outline);
    }
    if answer.len() / 2 < 36 {
        return Err(Refusal::Answer);
    }
    let corners = corners_in(outline);
    let count = triangles::cut_off(&corners[..outline.len() / 2], answer, 0);
    Ok(count as u16)
}
