// The run service: the first of the shortest layouts or the given one; where the budget is spent, the best so far.
ghost use Rattle.std.specs.Prelude.{◌≡◌};
ghost use Rattle.model.specs.Services;
ghost use Rattle.candidates.specs.Prepared.{problem_in};
ghost use Rattle.search.specs.Begin.{BeginsWith};

use crate::given::{given_layout, hold};
use candidates::prepared::PreparedJob;
use model::{Outcome, Refusal};
use plans::plan::work_words;
use root::walking::walk;
use runs::progress::tell;
use runs::room;
use shapes::turned::turn_all;
use words::sets;

// The run of an accepted job from the layout in the buffer, which ends where `best` says, or from none. Unless 8 or 9
// refuses it, the needed work words are cleared afterwards.
fn run_from(
    prepared: &PreparedJob,
    budget: u32,
    best: Option<usize>,
    layout: &[u8],
    work: &mut [u8],
    answer: &mut [u8],
) -> Result<Outcome, Refusal>
    requires begins { BeginsWith (problem_in prepared.now) layout.now best }
    ensures told { result ≡ (Services.run_from (problem_in prepared.now) (Services.given_layout (problem_in
        prepared.now) layout.now) budget work.old answer.old).answer }
    ensures cleared { work.new ≡ (Services.run_from (problem_in prepared.now) (Services.given_layout (problem_in
        prepared.now) layout.now) budget work.old answer.old).work }
    ensures held { answer.new ≡ (Services.run_from (problem_in prepared.now) (Services.given_layout (problem_in
        prepared.now) layout.now) budget work.old answer.old).out }
{
    let view = prepared.view;
    let words = work_words(prepared.job, view);
    if room::lacks::<8>(work.len(), words) {
        return Err(Refusal::Work);
    }
    if room::lacks::<2>(answer.len(), 4 * view.pieces) {
        return Err(Refusal::Answer);
    }
    hold(prepared.job, view, best, layout, answer);
    let st = walk(prepared, budget, best, work, answer);
    sets::clear(work, words);
    Ok(tell(budget, view.margin, st))
}

// The run service, under a margin, from the layout in the buffer, or from none if that has no bytes.
pub fn run(
    job: &[u8],
    margin: usize,
    budget: u32,
    layout: &[u8],
    work: &mut [u8],
    answer: &mut [u8],
) -> Result<Outcome, Refusal>
    ensures told { result ≡ (Services.run job.now margin budget layout.now work.old answer.old).answer }
    ensures cleared { work.new ≡ (Services.run job.now margin budget layout.now work.old answer.old).work }
    ensures held { answer.new ≡ (Services.run job.now margin budget layout.now work.old answer.old).out }
{
    let view = job::open_under(job, margin)?;
    let mut turned = [0i16; 4096];
    turn_all(job, view, &mut turned);
    let prepared = PreparedJob::new(job, view, &turned);
    let best = given_layout(&prepared, layout)?;
    run_from(&prepared, budget, best, layout, work, answer)
}
