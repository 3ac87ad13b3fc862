// A corner of a part or of an outline, and how corners lie to each other.
ghost use Rattle.std.specs.Prelude.{◌≡◌, ◌+◌, ◌/◌, ◌≤◌, ◌-ℤ◌, length, take};
ghost use Rattle.integers.specs.Byte.{signed};
ghost use Rattle.model.specs.Content.{vertex};
ghost use Rattle.model.specs.Format.{byte_at, vertices, vertex_in_range};
ghost use Rattle.model.specs.Geometry.{cross, strictly_left};

use std::marker::Model;

// x and y, each a signed byte of the file. To a contract it is the vertex of the definitions.
#[derive(Clone, Copy)]
pub struct Corner {
    pub x: i8,
    pub y: i8,
}

impl Model for Corner {
    ghost use Rattle.model.specs.Content.{Vertex, vertex};

    ghost Value = { Vertex };

    ghost view = { λ c. vertex c.x c.y };

    ghost inverse = { λ v. record { x = v.x; y = v.y } };
}

impl Corner {
    // The corner whose x and y stand at byte `at` and behind it.
    pub fn read(bytes: &[u8], at: usize) -> Corner
        requires { at + 2 ≤ length bytes.now }
        ensures { result ≡ vertex (signed (byte_at bytes.now at)) (signed (byte_at bytes.now (at + 1))) }
    {
        Corner {
            x: bytes[at].cast_signed(),
            y: bytes[at + 1].cast_signed(),
        }
    }

    // Neither coordinate is -128.
    pub fn in_range(self) -> bool
        ensures { result ≡ vertex_in_range self }
    {
        (-127 <= self.x) & (-127 <= self.y)
    }
}

// The corners in these bytes, x and y of each, in front; there is room for eight.
pub fn corners_in(bytes: &[u8]) -> [Corner; 8]
    requires { length bytes.now ≤ 17 }
    ensures { take (length bytes.now / 2) result ≡ vertices (length bytes.now / 2) bytes.now }
{
    let mut corners = [Corner { x: 0, y: 0 }; 8];
    for k in 0..bytes.len() / 2 {
        corners[k] = Corner::read(bytes, k * 2);
    }
    corners
}

// What a coordinate is more than another.
pub fn difference(a: i8, b: i8) -> i16
    ensures { result ≡ a -ℤ b }
{
    i16::from(a) - i16::from(b)
}

// How corner r lies to the line from corner p to corner q: twice the area of the three, above 0 where r is left of it.
pub fn turn(p: Corner, q: Corner, r: Corner) -> i64
    ensures { result ≡ cross p q r }
{
    integers::cross(
        difference(q.x, p.x),
        difference(q.y, p.y),
        difference(r.x, p.x),
        difference(r.y, p.y),
    )
}

// Corner r lies strictly left of the line from corner p to corner q.
pub fn strictly_left(p: Corner, q: Corner, r: Corner) -> bool
    ensures { result ≡ strictly_left p q r }
{
    0 < turn(p, q, r)
}
