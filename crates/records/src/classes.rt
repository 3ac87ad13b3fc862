// The class list: what a gap byte means, cause 5 of refusal, and where the class of an id stands. Job, place and count stay
// three parameters: the contracts of `find`, `unfit` and `places`, which other crates call, name them.
ghost use Rattle.std.specs.Prelude.{cond, ltb, Some, None, ◌≡◌, ◌+◌, ◌*◌, ◌≤◌, ◌<◌, length};
ghost use Rattle.records.specs.Classes.{all_in_range, distinct_column, classes_unfit, index_of};
ghost use Rattle.model.specs.Format.{marks_cut, gap_meant, class_from, class_in_range};

use frame::fields;

// The gap byte marks its class as common cut.
pub fn marks_cut(byte: usize) -> bool
    ensures { result ≡ marks_cut byte }
{
    fields::in_range(128, 191, byte)
}

// The gap that the gap byte means.
pub fn gap_meant(byte: usize) -> usize
    ensures { result ≡ gap_meant byte }
{
    if marks_cut(byte) { byte - 128 } else { byte }
}

// The record at byte o has its id, rank and gap in range.
fn in_range(job: &[u8], o: usize) -> bool
    requires { o + 3 ≤ length job.now }
    ensures { result ≡ class_in_range (class_from job.now o) }
{
    (fields::byte(job, o) <= 7)
        & (fields::byte(job, o + 1) <= 255)
        & (gap_meant(fields::byte(job, o + 2)) <= 63)
}

// Each of the n records from byte `at` on is in range.
fn all_in_range(job: &[u8], at: usize, n: usize) -> bool
    requires { (n < 256) × (at + n * 3 ≤ length job.now) }
    ensures { result ≡ all_in_range job.now at n }
{
    (0..n).all(|j| in_range(job, at + j * 3))
}

// A column is one field of every record: bytes at, at + 3, at + 6 and so on. The index of the first of its n entries
// that is `value`.
pub fn find(job: &[u8], at: usize, n: usize, value: usize) -> Option<usize>
    requires { (n < 256) × (at + n * 3 ≤ length job.now + 2) }
    ensures { result ≡ cond (ltb (index_of job.now at n value) n) (Some (index_of job.now at n value)) None }
{
    (0..n).position(|j| fields::byte(job, at + j * 3) == value)
}

// No entry of the column occurs twice: each is the first of its value.
fn distinct(job: &[u8], at: usize, n: usize) -> bool
    requires { (n < 256) × (at + n * 3 ≤ length job.now + 2) }
    ensures { result ≡ distinct_column job.now at n }
{
    (0..n).all(|j| find(job, at, n, fields::byte(job, at + j * 3)) == Some(j))
}

// Cause 5: too many classes, a field out of range, an id or a rank that occurs twice.
pub fn unfit(job: &[u8], at: usize, n: usize) -> bool
    requires { (n < 256) × (at + n * 3 ≤ length job.now) }
    ensures { result ≡ classes_unfit job.now at n }
{
    (8 < n) | !all_in_range(job, at, n) | !distinct(job, at, n) | !distinct(job, at + 1, n)
}
