// The save service: an accepted job written anew, as document 02's "4/13 Saving a job" has it.
#![tactic(auto)]

ghost use Rattle.std.specs.Prelude.{◌≡◌};
ghost use Rattle.model.specs.Services as Services;

use model::Refusal;

mod bytes;
mod classes;
mod content;
mod trailer;

// The save service: the bytes of the job's content, with no skipped bytes and the classes by rising id. A refusal changes no byte of the answer.
pub fn save(job: &[u8], answer: &mut [u8]) -> Result<u16, Refusal>
    ensures value { result ≡ (Services.save job.now answer.old).answer }
    ensures answer_after { answer.new ≡ (Services.save job.now answer.old).buffer }
{
    job::open(job)?;
    content::save_content(job, answer)
}
