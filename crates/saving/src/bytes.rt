// Bytes stored in the answer from byte `at` on; every other byte stays as it is.
ghost use Rattle.std.specs.Prelude.{[], ◌∷◌, ◌≡◌, ◌+◌, ◌≤◌, ◌<◌, length, take, drop};
ghost use Rattle.std.proofs.lemmas.List.Edits.{sets};
ghost use Rattle.words.specs.Number.{bytes};

// One byte. (By its place, here and below, and no slice in its stead: the contracts say where in the answer it stands.)
pub fn put_byte(answer: &mut [u8], at: usize, n: usize)
    requires { (at < length answer.old) × (n < 256) }
    ensures { answer.new ≡ sets answer.old at (n ∷ []) }
{
    answer[at] = n as u8;
}

// A two-byte number.
pub fn put_word(answer: &mut [u8], at: usize, n: usize)
    requires { (at + 2 ≤ length answer.old) × (n < 65536) }
    ensures { answer.new ≡ sets answer.old at (bytes 2 n) }
{
    words::numbers::put_u16(answer, at, n as u16);
}

// The n bytes of the job from byte `from` on. (Byte by byte, and no `copy_from_slice`: that is compiled to a call of
// memmove, which the archive for C would need from outside.)
pub fn copy(job: &[u8], from: usize, n: usize, answer: &mut [u8], at: usize)
    requires { (from + n ≤ length job.now) × (at + n ≤ length answer.old) }
    ensures { answer.new ≡ sets answer.old at (take n (drop from job.now)) }
{
    for k in 0..n {
        answer[at + k] = job[from + k];
    }
}
