// Vertices turned by quarter turns, into a flat part.
ghost use Rattle.std.specs.Prelude.{◌≡◌, ◌+◌, ◌<◌, nat_abs, length};
ghost use Rattle.model.specs.Content.{vertex};
ghost use Rattle.model.specs.Geometry.{rotated};
ghost use Rattle.shapes.specs.Turned.{with_vertex};

// The x of the vertex (x, y) after so many quarter turns.
fn rotated_x(x: i16, y: i16, rotation: usize) -> i16
    requires { (rotation < 4) × (nat_abs x < 32768) × (nat_abs y < 32768) }
    ensures { result ≡ (rotated rotation (vertex x y)).x }
{
    match rotation {
        0 => x,
        1 => -y,
        2 => -x,
        _ => y,
    }
}

// Writes the vertex (x, y), turned, at `at`: its y is the x after one turn less.
// (-32768 has no opposite of 16 bits; the coordinates of a job are from -127 to 127.)
pub fn put_rotated(dst: &mut [i16], at: usize, x: i16, y: i16, rotation: usize)
    requires { (at + 1 < length dst.old) × (rotation < 4) × (nat_abs x < 32768) × (nat_abs y < 32768) }
    ensures { dst.new ≡ with_vertex dst.old at (rotated rotation (vertex x y)) }
{
    dst[at] = rotated_x(x, y, rotation);
    dst[at + 1] = rotated_x(x, y, (rotation + 3) % 4);
}
