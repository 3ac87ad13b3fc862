// Parts whose numbers are small, so that the squares which distances are compared by fit 64 bits, and how far one is
// moved.
ghost use Rattle.std.specs.Prelude.{◌≡◌, pos, ◌+ℤ◌, ◌-ℤ◌, length};
ghost use Rattle.convexity.specs.Parts.{SoundPart};
ghost use Rattle.polygons.specs.Flat.{part_of};
ghost use Rattle.distances.specs.Compact.{Compact, Short};

use polygons::vertices::Vector;

// The corners of a part, x and y of each in turn: no number is above 4096 in size.
#[derive(Clone, Copy)]
pub struct Corners<'a> {
    pub numbers: &'a [i16],
    pub ghost compact: { Compact (part_of numbers.now) },
}

impl<'a> Corners<'a> {
    // How many there are.
    pub fn count(self) -> usize
        ensures { result ≡ length (part_of self.entry.numbers.now) }
    {
        self.numbers.len() / 2
    }
}

// A sound part with small numbers, as those of a job's parts are.
#[derive(Clone, Copy)]
pub struct Part<'a> {
    pub numbers: &'a [i16],
    pub ghost compact: { Compact (part_of numbers.now) },
    pub ghost is_sound: { SoundPart (part_of numbers.now) },
}

impl<'a> Part<'a> {
    // Its corners, sound or not.
    pub fn corners(self) -> Corners<'a>
        ensures { result.numbers.now ≡ self.entry.numbers.now }
    {
        Corners {
            numbers: self.numbers,
        }
    }
}

// How far a part is moved: at most 4096 along each axis, as the ways on a board are.
#[derive(Clone, Copy)]
pub struct Move {
    pub dx: i16,
    pub dy: i16,
    pub ghost short: { Short 4096 dx dy },
}

impl Move {
    // Where a corner comes to lie.
    pub fn moved(self, v: Vector) -> Vector
        requires { Short 4096 v.x v.y }
        ensures place { (result.x ≡ v.x +ℤ self.dx) × (result.y ≡ v.y +ℤ self.dy) }
        ensures short { Short 8192 result.x result.y }
    {
        Vector {
            x: v.x + self.dx,
            y: v.y + self.dy,
        }
    }

    // The same way back.
    pub fn back(self) -> Move
        ensures { (result.dx ≡ pos 0 -ℤ self.dx) × (result.dy ≡ pos 0 -ℤ self.dy) }
    {
        Move {
            dx: 0 - self.dx,
            dy: 0 - self.dy,
        }
    }
}
