// The class list: the records of the job, by rising id. A record is copied as it stands, so that its gap byte keeps the mark of common cut.
ghost use Rattle.std.specs.Prelude.{false, ◌≡◌, ◌+◌, ◌*◌, ◌≤◌, length};
ghost use Rattle.std.proofs.lemmas.List.Edits.{sets};
ghost use Rattle.model.specs.Format.{by_rising_id};
ghost use Rattle.model.specs.Saving.{class_list};
ghost use Rattle.records.specs.Classes.{classes_from, classes_unfit};

use crate::bytes;
use records::rising;

// The n classes of the job from byte `from` on.
pub fn put_classes(job: &[u8], from: usize, n: usize, answer: &mut [u8], at: usize)
    requires { ((from + n * 3 ≤ length job.now) × (at + n * 3 ≤ length answer.old)) × (classes_unfit job.now from n ≡ false) }
    ensures { answer.new ≡ sets answer.old at (class_list (by_rising_id (classes_from job.now from n))) }
{
    let places = rising::places(job, from, n);
    for (k, place) in places[..n].iter().enumerate() {
        bytes::copy(job, *place, 3, answer, at + k * 3);
    }
}
