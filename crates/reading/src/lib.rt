// The read service: the content of an accepted job as numbers.
#![tactic(auto)]

ghost use Rattle.std.specs.Prelude.{◌≡◌};
ghost use Rattle.model.specs.Services as Services;

use model::Refusal;

mod classes;
mod content;
mod listing;

// The read service: W, L, g, the classes by rising id, the types and the number of pieces, as numbers. A refusal changes no byte of the answer.
pub fn read(job: &[u8], answer: &mut [u8]) -> Result<u16, Refusal>
    ensures value { result ≡ (Services.read job.now answer.old).answer }
    ensures answer_after { answer.new ≡ (Services.read job.now answer.old).buffer }
{
    let view = job::open(job)?;
    content::read_content(job, view.pieces, answer)
}
