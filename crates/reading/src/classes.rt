// The numbers of an accepted job's classes, by rising id, in whatever order the file has them.
ghost use Rattle.std.specs.Prelude.{false, ◌≡◌, ◌+◌, ◌*◌, ◌≤◌, ◌<◌, length};
ghost use Rattle.model.specs.Format.{class_from, by_rising_id};
ghost use Rattle.model.specs.Services.{class_numbers};
ghost use Rattle.records.specs.Classes.{classes_from, classes_unfit};
ghost use Rattle.reading.specs.Write.{gap_numbers, classes_numbers};
ghost use Rattle.writing.specs.Numbers.{with_numbers_at};

use frame::fields;
use records::{classes, rising};

// What a gap byte says: the gap, and the mark of common cut behind it, 1 or 0.
fn put_gap(byte: usize, answer: &mut [u8], at: usize)
    requires { (byte < 256) × ((at + 2) * 2 ≤ length answer.old) }
    ensures { answer.new ≡ with_numbers_at at (gap_numbers byte) answer.old }
{
    writing::put(answer, at, classes::gap_meant(byte));
    writing::put(answer, at + 1, usize::from(classes::marks_cut(byte)));
}

// The class that begins at byte o: id, rank, gap and mark.
fn put_class(job: &[u8], o: usize, answer: &mut [u8], at: usize)
    requires { (o + 3 ≤ length job.now) × ((at + 4) * 2 ≤ length answer.old) }
    ensures { answer.new ≡ with_numbers_at at (class_numbers (class_from job.now o)) answer.old }
{
    writing::put_bytes(job, o, 2, false, answer, at);
    put_gap(fields::byte(job, o + 2), answer, at + 2);
}

// The n classes from byte `from` on.
pub fn put_classes(job: &[u8], from: usize, n: usize, answer: &mut [u8], at: usize)
    requires { ((from + n * 3 ≤ length job.now) × ((at + n * 4) * 2 ≤ length answer.old)) × (classes_unfit job.now from n ≡ false) }
    ensures { answer.new ≡ with_numbers_at at (classes_numbers (by_rising_id (classes_from job.now from n))) answer.old }
{
    let places = rising::places(job, from, n);
    for (k, place) in places[..n].iter().enumerate() {
        put_class(job, *place, answer, at + k * 4);
    }
}
