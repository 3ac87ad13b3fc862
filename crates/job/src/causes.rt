// The first of the causes 1 to 6 of refusal.
ghost use Rattle.std.specs.Prelude.{false, ◌≡◌};
ghost use Rattle.model.specs.Format.{cause1, cause3};
ghost use Rattle.model.specs.Refusal.{refused_by};
ghost use Rattle.job.specs.Refusal.{refusal_within, refusal_to6};

use frame::{board, fields, sections, trailer};
use model::Refusal;
use records::{classes, kinds};

// The first of the causes 4 to 6, which lie within the sections, if there is one.
fn first_within(job: &[u8]) -> Result<(), Refusal>
    requires { (cause1 job.now ≡ false) × (cause3 job.now ≡ false) }
    ensures { refused_by result ≡ refusal_within job.now }
{
    let t = trailer::read_trailer(job);
    if board::unfit(job, t.board) {
        return Err(Refusal::Board);
    }
    if classes::unfit(job, t.classes, t.class_count) {
        return Err(Refusal::Classes);
    }
    let base = t.kinds;
    let end = base + t.kinds_length;
    if !fields::in_range(1, 8, t.kind_count)
        | kinds::unfit(job, t.classes, t.class_count, &job[base..end], t.kind_count)
    {
        return Err(Refusal::Kinds);
    }
    Ok(())
}

// The first of the causes 1 to 6, if there is one. Each is looked at only after those before it.
pub fn first_of_six(job: &[u8]) -> Result<(), Refusal>
    ensures { refused_by result ≡ refusal_to6 job.now }
{
    if trailer::wrong_size(job) {
        return Err(Refusal::Size);
    }
    if trailer::wrong_mark(job) {
        return Err(Refusal::Mark);
    }
    if sections::misplaced(job) {
        return Err(Refusal::Sections);
    }
    first_within(job)
}
