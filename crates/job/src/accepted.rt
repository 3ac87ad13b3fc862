// The view of a job that gives none of the causes 1 to 6, and cause 7 read through it.
ghost use Rattle.std.specs.Prelude.{◌≡◌, ◌+◌, ◌*◌, ◌≤◌, ◌<◌, length};
ghost use Rattle.model.specs.Content.{kind_at, kind_count};
ghost use Rattle.model.specs.Format.{byte_at, content, cause7};
ghost use Rattle.job.specs.Refusal.{refusal_to6};
ghost use Rattle.job.specs.Soundness.{bad_at, bad_kind};
ghost use Rattle.job.specs.View.{ViewOf};

use crate::{View, table};
use frame::{board, fields, trailer};
use records::parts;

// The view, at margin 0.
pub fn view_of(job: &[u8]) -> View
    requires { refusal_to6 job.now ≡ 0 }
    ensures { ViewOf job.now result }
{
    let t = trailer::read_trailer(job);
    let b = board::read_board(job, t.board);
    let base = t.kinds;
    let end = base + t.kinds_length;
    let kind = table::read_kinds(
        job,
        t.classes,
        t.class_count,
        &job[base..end],
        base,
        t.kind_count,
    );
    View {
        width: b.width,
        length: b.length,
        step: b.step,
        rows: board::multiples(b.width, b.step),
        columns: board::multiples(b.length, b.step),
        margin: 0,
        kinds: t.kind_count,
        pieces: kind[..t.kind_count].iter().map(|kind| kind.demand).sum(),
        kind,
    }
}

// The part at byte o is not sound, or has a coordinate of -128. The judge receives the piece of the job that begins at the part.
fn part_refused(job: &[u8], o: usize) -> bool
    requires { (byte_at job.now o ≤ 8) × (o + 1 + byte_at job.now o * 2 ≤ length job.now) }
    ensures { result ≡ bad_at job.now o }
{
    let n = fields::byte(job, o);
    parts::unfit(&job[o..], n)
}

// Some part of kind t is refused.
fn kind_refused(job: &[u8], view: View, t: usize) -> bool
    requires { (ViewOf job.now view × (kind_count (content job.now).kinds ≤ 8)) × (t < kind_count (content job.now).kinds) }
    ensures { result ≡ bad_kind (kind_at (content job.now).kinds t) }
{
    let kind = view.kind[t];
    (0..kind.parts).any(|i| part_refused(job, kind.part_at[i]))
}

// Cause 7: some part of some kind is refused.
pub fn unsound(job: &[u8], view: View) -> bool
    requires { ViewOf job.now view × (kind_count (content job.now).kinds ≤ 8) }
    ensures { result ≡ cause7 job.now }
{
    (0..view.kinds).any(|t| kind_refused(job, view, t))
}
