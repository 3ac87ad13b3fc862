// The numbers of an accepted job's content: board and classes in front, types and the number of pieces behind them.
ghost use Rattle.std.specs.Prelude.{◌≡◌, ◌+◌, ◌*◌, ◌≤◌, ◌<◌, length};
ghost use Rattle.model.specs.Content.{piece_count};
ghost use Rattle.model.specs.Format.{classes_stated, content, kinds_length, refusal};
ghost use Rattle.model.specs.Services.{read_content};
ghost use Rattle.reading.specs.Write.{front_numbers, back_numbers};
ghost use Rattle.writing.specs.Numbers.{with_numbers_at};

use crate::{classes, listing};
use frame::trailer;
use model::Refusal;

// The board and the classes behind their count.
pub fn put_front(job: &[u8], answer: &mut [u8])
    requires { (refusal job.now ≡ 0) × ((4 + classes_stated job.now * 4) * 2 ≤ length answer.old) }
    ensures { answer.new ≡ with_numbers_at 0 (front_numbers (content job.now)) answer.old }
{
    let t = trailer::read_trailer(job);
    writing::put_words(job, t.board, 3, answer);
    writing::put(answer, 3, t.class_count);
    classes::put_classes(job, t.classes, t.class_count, answer, 4);
}

// The types behind their count, and the number of pieces.
pub fn put_back(job: &[u8], pieces: usize, answer: &mut [u8], at: usize)
    requires { ((refusal job.now ≡ 0) × (pieces ≡ piece_count (content job.now).kinds)) × ((at + 2 + kinds_length job.now) * 2 ≤ length answer.old) }
    ensures { answer.new ≡ with_numbers_at at (back_numbers (content job.now)) answer.old }
{
    let t = trailer::read_trailer(job);
    let base = t.kinds;
    let end = base + t.kinds_length;
    writing::put(answer, at, t.kind_count);
    listing::put_kinds(&job[base..end], t.kind_count, answer, at + 1);
    writing::put(answer, at + 1 + t.kinds_length, pieces);
}

// Read, of an accepted job. Too small an answer is refused before anything is written.
pub fn read_content(job: &[u8], pieces: usize, answer: &mut [u8]) -> Result<u16, Refusal>
    requires { (refusal job.now ≡ 0) × (pieces ≡ piece_count (content job.now).kinds) }
    ensures value { result ≡ (read_content (content job.now) answer.old).answer }
    ensures answer_after { answer.new ≡ (read_content (content job.now) answer.old).buffer }
{
    let t = trailer::read_trailer(job);
    let at = 4 + t.class_count * 4;
    let count = at + 2 + t.kinds_length;
    if answer.len() / 2 < count {
        return Err(Refusal::Answer);
    }
    put_front(job, answer);
    put_back(job, pieces, answer, at);
    Ok(count as u16)
}
