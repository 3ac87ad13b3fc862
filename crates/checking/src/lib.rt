// The check service.
#![tactic(auto)]

ghost use Rattle.std.specs.Prelude.{◌≡◌};
ghost use Rattle.model.specs.Services;

use candidates::prepared::PreparedJob;
use layouts::passing::judge;
use model::Refusal;
use shapes::turned::turn_all;

// The length of a layout that passes under a margin: refusals 1 to 7 of the job, 13, then 11.
pub fn check(job: &[u8], margin: usize, layout: &[u8]) -> Result<u16, Refusal>
    ensures { result ≡ Services.check job.now margin layout.now }
{
    let view = job::open_under(job, margin)?;
    let mut turned = [0i16; 4096];
    turn_all(job, view, &mut turned);
    judge(&PreparedJob::new(job, view, &turned), layout)
}
