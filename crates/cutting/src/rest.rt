// The corners that remain: "the rest, which has one corner fewer".
ghost use Rattle.std.specs.Prelude.{◌≡◌, ◌-◌, ◌≤◌, ◌<◌, length, take};
ghost use Rattle.outlines.specs.Outline.{rest};
ghost use Rattle.outlines.specs.Numbered.{place_at};

use records::corners::Corner;

// The corners without corner i, in front.
pub fn without(corners: &[Corner], i: usize) -> [Corner; 8]
    requires { (length corners.now ≤ 8) × (i < length corners.now) }
    ensures { take (length corners.now - 1) result ≡ rest (place_at corners.now i) }
{
    let mut left = [Corner { x: 0, y: 0 }; 8];
    let room = &mut left[..corners.len() - 1];
    room[..i].copy_from_slice(&corners[..i]);
    room[i..].copy_from_slice(&corners[i + 1..]);
    left
}
