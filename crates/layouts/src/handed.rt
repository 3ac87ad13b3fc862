// A layout that is handed in: the entries of its bytes, four two-byte numbers each.
ghost use Rattle.std.specs.Prelude.{◌*◌, ◌≤◌, length};

use candidates::conflicts::Placed;
use candidates::prepared::PreparedJob;

// An entry as the layout states it: nothing is known yet of any of the numbers.
#[derive(Clone, Copy)]
pub struct Entry {
    pub kind: usize,
    pub place: Placed,
}

// A layout for a prepared job: its bytes hold an entry for each of the job's pieces.
#[derive(Clone, Copy)]
pub struct Handed<'a> {
    pub prepared: &'a PreparedJob<'a>,
    pub layout: &'a [u8],
    pub ghost whole: { prepared.now.view.pieces * 8 ≤ length layout.now },
}

impl<'a> Handed<'a> {
    ghost use Rattle.std.specs.Prelude.{◌≡◌, ◌+◌, ◌<◌};
    ghost use Rattle.words.specs.Number.{number_at};
    ghost use Rattle.layouts.specs.Entries.{EntryAt};

    // The number that stands at a byte.
    fn number(&self, at: usize) -> usize
        requires { at + 2 ≤ length self.now.layout.now }
        ensures { (result ≡ number_at 2 self.now.layout.now at) × (result < 65536) }
    {
        usize::from(words::numbers::get_u16(self.layout, at))
    }

    // Entry i.
    pub fn entry(&self, i: usize) -> Entry
        requires { i < self.now.prepared.now.view.pieces }
        ensures { EntryAt self.now.layout.now i result }
    {
        Entry {
            kind: self.number(i * 8),
            place: Placed {
                column: self.number(i * 8 + 2),
                row: self.number(i * 8 + 4),
                rotation: self.number(i * 8 + 6),
            },
        }
    }
}
