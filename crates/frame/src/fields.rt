// Bytes and two-byte numbers of a job, as numbers that can be added without care.
ghost use Rattle.std.specs.Prelude.{◌≡◌, ◌+◌, ◌≤◌, ◌<◌, length};
ghost use Rattle.model.specs.Format.{byte_at, word_at};
ghost use Rattle.model.specs.Lists.{between};

// The byte at i.
pub fn byte(s: &[u8], i: usize) -> usize
    requires { i < length s.now }
    ensures { (result ≡ byte_at s.now i) × (result < 256) }
{
    usize::from(s[i])
}

// The two-byte number at i.
pub fn word(s: &[u8], i: usize) -> usize
    requires { i + 2 ≤ length s.now }
    ensures { (result ≡ word_at s.now i) × (result < 65536) }
{
    usize::from(words::numbers::get_u16(s, i))
}

// The number lies from lo to hi, both included.
pub fn in_range(lo: usize, hi: usize, n: usize) -> bool
    ensures { result ≡ between lo hi n }
{
    (lo..=hi).contains(&n)
}
