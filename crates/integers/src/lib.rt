// The leaf functions on signed numbers: products of 16-bit numbers in 64 bits, and bytes read as signed.
#![tactic(auto)]

ghost use Rattle.std.specs.Prelude.{◌≡◌, ◌<◌, ◌+ℤ◌, ◌-ℤ◌, ◌*ℤ◌, length, get_or};
ghost use Rattle.integers.specs.Byte.{signed};

// The dot product of the vectors (ax, ay) and (bx, by).
pub fn dot(ax: i32, ay: i32, bx: i16, by: i16) -> i64
    ensures { result ≡ ax *ℤ bx +ℤ ay *ℤ by }
{
    (ax as i64) * (bx as i64) + (ay as i64) * (by as i64)
}

// The cross product of the vectors (ax, ay) and (bx, by), twice the signed area that they span: the dot product of the first and the
// second turned a quarter back.
pub fn cross(ax: i16, ay: i16, bx: i16, by: i16) -> i64
    ensures { result ≡ ax *ℤ by -ℤ ay *ℤ bx }
{
    dot(by as i32, -(bx as i32), ax, ay)
}

// A byte as a signed number.
pub fn byte_to_i16(b: u8) -> i16
    ensures { result ≡ signed b }
{
    i16::from(b.cast_signed())
}

// Byte i of a slice as a signed number.
pub fn signed_byte(s: &[u8], i: usize) -> i16
    requires { i < length s.now }
    ensures { result ≡ signed (get_or s.now i 0) }
{
    byte_to_i16(s[i])
}
