// The bytes of an accepted job's content. Board and types are copied as they stand; only the order of the sections and of the classes is new.
ghost use Rattle.std.specs.Prelude.{◌≡◌, ◌+◌, ◌*◌, ◌≤◌, length};
ghost use Rattle.std.proofs.lemmas.List.Edits.{sets};
ghost use Rattle.model.specs.Format.{classes_stated, content, kinds_length, refusal};
ghost use Rattle.model.specs.Saving.{written};
ghost use Rattle.model.specs.Services.{save_content};

use crate::trailer::put_trailer;
use crate::{bytes, classes};
use frame::trailer;
use model::Refusal;

// The job, at the front of an answer that has room for it.
fn put_job(job: &[u8], answer: &mut [u8])
    requires { (refusal job.now ≡ 0) × (6 + classes_stated job.now * 3 + kinds_length job.now + 14 ≤ length answer.old) }
    ensures { answer.new ≡ sets answer.old 0 (written (content job.now)) }
{
    let t = trailer::read_trailer(job);
    bytes::copy(job, t.board, 6, answer, 0);
    classes::put_classes(job, t.classes, t.class_count, answer, 6);
    bytes::copy(job, t.kinds, t.kinds_length, answer, 6 + t.class_count * 3);
    put_trailer(t.class_count, t.kind_count, t.kinds_length, answer);
}

// Save, of an accepted job. Too small an answer is refused before anything is written.
pub fn save_content(job: &[u8], answer: &mut [u8]) -> Result<u16, Refusal>
    requires { refusal job.now ≡ 0 }
    ensures value { result ≡ (save_content (content job.now) answer.old).answer }
    ensures answer_after { answer.new ≡ (save_content (content job.now) answer.old).buffer }
{
    let t = trailer::read_trailer(job);
    let count = 6 + t.class_count * 3 + t.kinds_length + 14;
    if answer.len() < count {
        return Err(Refusal::Answer);
    }
    put_job(job, answer);
    Ok(count as u16)
}
