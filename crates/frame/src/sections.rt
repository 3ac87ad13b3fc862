// The sections: cause 3 of refusal.
ghost use Rattle.std.specs.Prelude.{◌≡◌, ◌+◌, ◌≤◌, ◌<◌, leb, length};
ghost use Rattle.model.specs.Format.{section, share_byte, cause3};

use crate::trailer;

// A section: so many bytes from an offset on. Both are far below the largest number, so their sum is exact.
#[derive(Clone, Copy)]
struct Section {
    offset: usize,
    size: usize,
    ghost in_two_bytes: { (offset < 65536) × (size < 65536) },
}

impl Section {
    // It ends at the trailer or before it.
    fn in_place(self, trailer: usize) -> bool
        ensures { result ≡ leb (self.offset + self.size) trailer }
    {
        self.offset + self.size <= trailer
    }

    // It has a byte in common with another. An empty section has none.
    fn shares_byte(self, other: Section) -> bool
        ensures { result ≡ share_byte (section self.offset self.size) (section other.offset other.size) }
    {
        self.offset.max(other.offset) < (self.offset + self.size).min(other.offset + other.size)
    }
}

// Cause 3: a section reaches past the trailer's offset, or two sections share a byte.
pub fn misplaced(job: &[u8]) -> bool
    requires { 14 ≤ length job.now }
    ensures { result ≡ cause3 job.now }
{
    let t = trailer::read_trailer(job);
    let board = Section {
        offset: t.board,
        size: 6,
    };
    let classes = Section {
        offset: t.classes,
        size: t.class_count * 3,
    };
    let kinds = Section {
        offset: t.kinds,
        size: t.kinds_length,
    };
    let outside = !board.in_place(t.at) | !classes.in_place(t.at) | !kinds.in_place(t.at);
    outside | board.shares_byte(classes) | board.shares_byte(kinds) | classes.shares_byte(kinds)
}
