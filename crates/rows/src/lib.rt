// The row service: where another kind's candidates are in conflict with a candidate.
#![tactic(auto)]

ghost use Rattle.std.specs.Prelude.{◌≡◌};
ghost use Rattle.model.specs.Services.{row_content, conflict_row};
ghost use Rattle.candidates.specs.Prepared.{problem_in};

mod asked;

use crate::asked::Asked;
use candidates::conflicts::{pair_gap, placed_of};
use candidates::prepared::PreparedJob;
use model::Refusal;
use shapes::pieces::piece_of;
use shapes::turned::turn_all;

// The row of an accepted job.
fn row_content(
    prepared: &PreparedJob,
    kind: usize,
    number: usize,
    other: usize,
    row: &mut [u8],
) -> Result<u16, Refusal>
    ensures value { result ≡ (row_content (problem_in prepared.now) kind number other row.old).answer }
    ensures row_after { row.new ≡ (row_content (problem_in prepared.now) kind number other row.old).buffer }
{
    let view = &prepared.view;
    if (kind >= view.kinds) | (other >= view.kinds) {
        return Err(Refusal::Candidate);
    }
    if !prepared.is_candidate(kind, number) {
        return Err(Refusal::Candidate);
    }
    let n = prepared.set_words();
    if row.len() / 8 < n {
        return Err(Refusal::Answer);
    }
    let asked = Asked {
        prepared,
        kind,
        number,
        other,
        first: piece_of(prepared.job, view, kind),
        place: placed_of(view.rows, number),
        second: piece_of(prepared.job, view, other),
        gap: pair_gap(view, kind, other),
    };
    asked.fill(row);
    Ok(n as u16)
}

// Where, under a margin, the candidates of a second kind are in conflict with a candidate, given as its kind and its
// number: ceil(D / 16) words.
pub fn row(
    job: &[u8],
    margin: usize,
    kind: usize,
    number: usize,
    other: usize,
    row: &mut [u8],
) -> Result<u16, Refusal>
    ensures value { result ≡ (conflict_row job.now margin kind number other row.old).answer }
    ensures row_after { row.new ≡ (conflict_row job.now margin kind number other row.old).buffer }
{
    let view = job::open_under(job, margin)?;
    let mut turned = [0i16; 4096];
    turn_all(job, view, &mut turned);
    let prepared = PreparedJob::new(job, view, &turned);
    row_content(&prepared, kind, number, other, row)
}
