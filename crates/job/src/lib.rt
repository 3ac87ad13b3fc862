// An accepted job: the first of the sender's causes of refusal, 1 to 7, and 13 for a margin; and the view that the layers above use.
#![tactic(auto)]

ghost use Rattle.std.specs.Prelude.{◌≡◌, IfOk};
ghost use Rattle.model.specs.Format.{refusal};
ghost use Rattle.model.specs.Refusal.{refused_by};
ghost use Rattle.model.specs.Services.{refusal_under};
ghost use Rattle.job.specs.View.{Viewed};

use model::Refusal;

mod accepted;
mod causes;
mod gaps;
mod places;
mod table;

// What the layers above use of a kind: how many pieces of it are demanded, the turns that it may have, its gap, the id of
// its best-ranked class if that is marked as common cut, how many parts it has, and where the bytes of each begin.
#[derive(Clone, Copy)]
pub struct Kind {
    pub demand: usize,
    pub rotations: usize,
    pub gap: usize,
    pub cut: Option<usize>,
    pub parts: usize,
    pub part_at: [usize; 6],
}

// What they use of an accepted job under a margin. The first `kinds` entries of `kind` count.
#[derive(Clone, Copy)]
pub struct View {
    pub width: usize,
    pub length: usize,
    pub step: usize,
    pub rows: usize,
    pub columns: usize,
    pub margin: usize,
    pub kinds: usize,
    pub pieces: usize,
    pub kind: [Kind; 8],
}

// Reads a job, at margin 0. Type records are judged whole, cause 6, before any part's soundness, cause 7.
pub fn open(job: &[u8]) -> Result<View, Refusal>
    ensures refusal_value { refused_by result ≡ refusal job.now }
    ensures viewed { IfOk result (λ view. Viewed job.now view) }
{
    causes::first_of_six(job)?;
    let view = accepted::view_of(job);
    if accepted::unsound(job, view) {
        return Err(Refusal::Parts);
    }
    Ok(view)
}

// Reads a job under a margin. The margin is judged after the job.
pub fn open_under(job: &[u8], margin: usize) -> Result<View, Refusal>
    ensures refusal_value { refused_by result ≡ refusal_under margin job.now }
    ensures viewed { IfOk result (λ view. Viewed job.now view × (view.margin ≡ margin)) }
{
    let view = open(job)?;
    if margin > 63 {
        return Err(Refusal::Margin);
    }
    Ok(View { margin, ..view })
}
