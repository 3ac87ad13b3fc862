// The trailer, and the causes 1 and 2 of refusal.
ghost use Rattle.std.specs.Prelude.{◌≡◌, ◌≤◌, length};
ghost use Rattle.model.specs.Format.{cause1, cause2};
ghost use Rattle.frame.specs.Trailer.{TrailerOf};

use crate::fields;

// What the trailer says: where each section begins and how much stands there, how long the job is, and whether the mark is right.
#[derive(Clone, Copy)]
pub struct Trailer {
    pub board: usize,
    pub classes: usize,
    pub kinds: usize,
    pub kinds_length: usize,
    pub class_count: usize,
    pub kind_count: usize,
    pub stated: usize,
    pub marked: bool,
    pub at: usize,
}

pub fn read_trailer(job: &[u8]) -> Trailer
    requires { 14 ≤ length job.now }
    ensures { TrailerOf job.now result }
{
    let at = job.len() - 14;
    Trailer {
        board: fields::word(job, at),
        classes: fields::word(job, at + 2),
        kinds: fields::word(job, at + 4),
        kinds_length: fields::word(job, at + 6),
        class_count: fields::byte(job, at + 8),
        kind_count: fields::byte(job, at + 9),
        stated: fields::word(job, at + 10),
        marked: job.ends_with(&[0x44, 0x42]),
        at,
    }
}

// Cause 1: the job has fewer bytes than a trailer, or more than a job may have.
pub fn wrong_size(job: &[u8]) -> bool
    ensures { result ≡ cause1 job.now }
{
    !(14..=1024).contains(&job.len())
}

// Cause 2: the mark or the stated length is wrong.
pub fn wrong_mark(job: &[u8]) -> bool
    requires { 14 ≤ length job.now }
    ensures { result ≡ cause2 job.now }
{
    let t = read_trailer(job);
    !t.marked | (t.stated != job.len())
}
