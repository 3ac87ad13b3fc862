// The doubled area of an outline, positive if its corners go round anticlockwise.
ghost use Rattle.std.specs.Prelude.{◌≡◌, ◌≤◌, length, nat_abs};
ghost use Rattle.outlines.specs.Outline.{det, doubled_area};

use records::corners::Corner;
use records::parts::next;

// What an edge from corner p to corner q adds: at most 2 ^ 15, as the coordinates are those of bytes.
fn determinant(p: Corner, q: Corner) -> i64
    ensures value { result ≡ det p q }
    ensures small { nat_abs result ≤ 32768 }
{
    integers::cross(
        i16::from(p.x),
        i16::from(p.y),
        i16::from(q.x),
        i16::from(q.y),
    )
}

// The sum over the edges.
pub fn doubled_area(corners: &[Corner]) -> i64
    requires { length corners.now ≤ 8 }
    ensures { result ≡ doubled_area corners.now }
{
    let mut area = 0;
    for k in 0..corners.len() {
        area += determinant(corners[k], corners[next(k, corners.len())]);
    }
    area
}
