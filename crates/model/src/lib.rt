// The answers of the services: `Result<u16, Refusal>`, of how many numbers, bytes, words or triangles were written
// (read, save, row, cut) or of the layout's length (check), and `Result<Outcome, Refusal>` (run). What the paper's
// number and values of each are, `specs/Answers` says.
#![tactic(auto)]

ghost use Rattle.std.specs.Prelude.{◌≡◌};
ghost use Rattle.model.specs.Refusal.{number};

use std::error::Error;
use std::fmt;

// Why a call is refused, in the order of the paper's numbers: the job's, then those of what the host hands in. The
// numbers themselves stand in `specs/Refusal`; 10 is no refusal but the answer "none".
#[derive(Clone, Copy, PartialEq, Eq, Debug)]
pub enum Refusal {
    // 1: too few bytes for a trailer, or more than a job may have.
    Size = 1,
    // 2: the mark or the stated length is wrong.
    Mark = 2,
    // 3: a section reaches past the trailer's offset, or two share a byte.
    Sections = 3,
    // 4: a field of the board is out of range, or there are too many dots.
    Board = 4,
    // 5: too many classes, a field out of range, an id or a rank twice.
    Classes = 5,
    // 6: the type list cannot be read as it should.
    Kinds = 6,
    // 7: a part is not sound, or has a coordinate of -128.
    Parts = 7,
    // 8: too few work words.
    Work = 8,
    // 9: too few words or numbers for the answer.
    Answer = 9,
    // 11: the layout handed in does not pass.
    Layout = 11,
    // 12: there is no such candidate or type.
    Candidate = 12,
    // 13: the margin is too wide.
    Margin = 13,
    // 14: the outline cannot be cut.
    Outline = 14,
}

impl Refusal {
    // "A refusal returns its number."
    pub fn number(self) -> u8
        ensures { result ≡ number self }
    {
        self as u8
    }
}

impl fmt::Display for Refusal {
    fn fmt<W: fmt::Write>(&self, f: &mut fmt::Formatter<W>) -> fmt::Result {
        write!(f, "refused {}", self.number())
    }
}

impl Error for Refusal {}

// How a run that is not refused ends, after so many steps: with the shortest layout, of this length; stopped, and then
// it holds a layout of this length or none; or with the paper's "none", since no layout passes.
#[derive(Clone, Copy, PartialEq, Eq, Debug)]
pub enum Outcome {
    Shortest { length: u16, steps: u32 },
    Stopped { held: Option<u16>, steps: u32 },
    Infeasible { steps: u32 },
}
