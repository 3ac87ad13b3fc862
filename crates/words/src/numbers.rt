// Numbers of two and of eight bytes, low byte first, read and written in a byte slice.
ghost use Rattle.std.specs.Prelude.{◌≡◌, ◌+◌, ◌*◌, ◌≤◌, ◌<◌, length};
ghost use Rattle.words.specs.Number.{number_at, with_number};

// The two-byte number that stands at byte i.
pub fn get_u16(s: &[u8], i: usize) -> u16
    requires { i + 2 ≤ length s.now }
    ensures { result ≡ number_at 2 s.now i }
{
    u16::from_le_bytes(s[i..i + 2].try_into().unwrap())
}

// The two bytes from byte i become those of n.
pub fn put_u16(s: &mut [u8], i: usize, n: u16)
    requires { i + 2 ≤ length s.old }
    ensures { s.new ≡ with_number 2 s.old i n }
{
    s[i..i + 2].copy_from_slice(&n.to_le_bytes());
}

// The eight-byte number that stands at byte i.
pub fn get_u64(s: &[u8], i: usize) -> u64
    requires { i + 8 ≤ length s.now }
    ensures { result ≡ number_at 8 s.now i }
{
    u64::from_le_bytes(s[i..i + 8].try_into().unwrap())
}

// The eight bytes from byte i become those of n.
pub fn put_u64(s: &mut [u8], i: usize, n: u64)
    requires { i + 8 ≤ length s.old }
    ensures { s.new ≡ with_number 8 s.old i n }
{
    s[i..i + 8].copy_from_slice(&n.to_le_bytes());
}
