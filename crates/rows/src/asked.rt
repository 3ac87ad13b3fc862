// A row that is asked for, and its words.
ghost use Rattle.rows.specs.Rows.{RowOf};

use candidates::conflicts::{Placed, conflict_between, placed_of};
use candidates::prepared::PreparedJob;
use geometry::pieces::Piece;

// A candidate, by its kind and its number, and another kind; the pieces of the two, where the candidate stands, and the
// gap of the pair.
#[derive(Clone, Copy)]
pub struct Asked<'a> {
    pub prepared: &'a PreparedJob<'a>,
    pub kind: usize,
    pub number: usize,
    pub other: usize,
    pub first: Piece,
    pub place: Placed,
    pub second: Piece,
    pub gap: u16,
    pub ghost row: { RowOf prepared.now kind number other first place second gap },
}

impl<'a> Asked<'a> {
    ghost use Rattle.std.specs.Prelude.{◌≡◌, ◌+◌, ◌*◌, ◌≤◌, ◌<◌, length};
    ghost use Rattle.words.specs.Bits.{bits_where};
    ghost use Rattle.model.specs.Format.{content};
    ghost use Rattle.model.specs.Grid.{set_words};
    ghost use Rattle.model.specs.Services.{with_words};
    ghost use Rattle.rows.specs.Asked.{bit_for, words_for};

    // Whether the other kind has a candidate of this number, and that is in conflict with the candidate.
    fn bit(&self, m: usize) -> bool
        ensures { result ≡ bit_for self.now m }
    {
        let j = self.prepared;
        j.is_candidate(self.other, m)
            && conflict_between(
                j.turned,
                j.view.step,
                self.first,
                self.place,
                self.second,
                placed_of(j.view.rows, m),
                self.gap,
            )
    }

    // Word w of the row.
    fn word(&self, w: usize) -> u64
        requires { w < 65536 }
        ensures { result ≡ bits_where 64 (λ i. bit_for self.now (w * 64 + i)) }
    {
        words::bits::word_of(|i| self.bit(w * 64 + i))
    }

    // The words of the row, into the first words of the buffer.
    pub fn fill(&self, row: &mut [u8])
        requires { set_words (content self.now.prepared.now.job.now).sheet * 8 ≤ length row.old }
        ensures { row.new ≡ with_words (words_for self.now) row.old }
    {
        for w in 0..self.prepared.set_words() {
            words::numbers::put_u64(row, w * 8, self.word(w));
        }
    }
}
