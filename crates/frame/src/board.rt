// The board: cause 4 of refusal.
ghost use Rattle.std.specs.Prelude.{◌≡◌, ◌+◌, ◌/◌, ◌≤◌, ◌<◌, length};
ghost use Rattle.model.specs.Lists.{between};
ghost use Rattle.frame.specs.Board.{BoardIn, board_unfit};

use crate::fields;

// Width, length and step as they stand in the bytes.
#[derive(Clone, Copy)]
pub struct Board {
    pub width: usize,
    pub length: usize,
    pub step: usize,
}

pub fn read_board(job: &[u8], at: usize) -> Board
    requires { at + 6 ≤ length job.now }
    ensures { BoardIn job.now at result }
{
    Board {
        width: fields::word(job, at),
        length: fields::word(job, at + 2),
        step: fields::word(job, at + 4),
    }
}

// How many multiples of the step there are from 0 up to n: the rows of a width, the columns of a length.
pub fn multiples(n: usize, step: usize) -> usize
    requires { (1 ≤ step) × (n ≤ 1000) }
    ensures { (result ≡ n / step + 1) × (result ≤ 1001) }
{
    n / step + 1
}

// A field of the board is in range.
fn field_fits(n: usize) -> bool
    ensures { result ≡ between 1 1000 n }
{
    fields::in_range(1, 1000, n)
}

// Cause 4: a field is out of range, or there are too many dots. (The fields come first: nothing is divided by a step of 0.)
pub fn unfit(job: &[u8], at: usize) -> bool
    requires { at + 6 ≤ length job.now }
    ensures { result ≡ board_unfit job.now at }
{
    let b = read_board(job, at);
    let fits = field_fits(b.width) & field_fits(b.length) & field_fits(b.step);
    !fits || 1024 < multiples(b.length, b.step) * multiples(b.width, b.step)
}
