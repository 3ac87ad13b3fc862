// The live sets of a later level: the members of the sets of the level before that stay once a piece is placed.
ghost use Rattle.std.specs.Prelude.{true, not, ◌&&◌, ◌≡◌, ℕ, ◌+◌, ◌*◌, ◌/◌, ◌%◌, ◌≤◌, ◌<◌, leb};
ghost use Rattle.words.specs.Bits.{test_bit};
ghost use Rattle.words.specs.Sets.{member};
ghost use Rattle.model.specs.Candidate.{is_candidate};
ghost use Rattle.model.specs.Format.{content};
ghost use Rattle.model.specs.Grid.{set_words};
ghost use Rattle.model.specs.Problem.{under};
ghost use Rattle.live_sets.specs.Known.{problem, Standing};
ghost use Rattle.live_sets.specs.Narrowing.{stays, BitsAdmitted, Filled, Narrowable};
ghost use Rattle.live_sets.specs.Reach.{Rowed, Laid, Near};

use crate::board;
use crate::placing::{Fixed, Latest};
use nofit::places::{Nofit, above_start, below_start, holds};
use words::strings::bits_at;
use words::{bits, numbers};

// The bits of a word whose candidates stay, by the corners of the pieces. Only the bits that are set are looked at.
fn sift_word(fixed: &Fixed, latest: &Latest, u: usize, first: usize, w: u64) -> u64
    requires known { Standing fixed.now latest.now }
    requires candidate { (is_candidate (problem fixed.now) latest.now.kind latest.now.number ≡ true) × (first < 65536) }
    requires bits_admitted { BitsAdmitted (problem fixed.now) u first w }
    ensures { (i : ℕ) → test_bit result i ≡ (test_bit w i && stays (problem fixed.now) latest.now.kind
        latest.now.number u (first + i)) }
{
    bits::keep(w, |i| board::still_live(fixed, latest, u, first + i))
}

// Of the 64 numbers from `first` on, those that stand in this row or above it: such a number has the same column as the
// number that is so many rows less. (Of the table alone, as its contract: nothing else that is fixed is asked.)
fn rows_from(nofit: &Nofit, strings: &[u8], row: usize, first: usize) -> u64
    requires { Rowed nofit.now strings.now row first }
    ensures { (i : ℕ) → i < 64 → test_bit result i ≡ leb row ((first + i) / 4 % nofit.now.rows) }
{
    let at = first + nofit.rows * 4;
    !(bits_at(strings, at) ^ bits_at(strings, at - row * 4))
}

// Of the 64 numbers from `first` on, those of candidates that go once the latest piece is placed, by the strings of
// both kinds: one string for the rows from the placed one's on, and one for the rows under it. Strings do not know the
// margin: what is promised speaks of the candidates at margin 0, which every candidate is.
fn blocked_word(fixed: &Fixed, latest: &Latest, u: usize, first: usize) -> u64
    requires { Laid fixed.now.job.now fixed.now.nofit fixed.now.strings.now latest.now.kind latest.now.number
        latest.now.place u first × Near fixed.now.nofit latest.now.place.column first }
    ensures { (i : ℕ) → i < 64 → is_candidate (under 0 (content fixed.now.job.now)) u (first + i) ≡ true →
        test_bit result i ≡ not (stays (under 0 (content fixed.now.job.now)) latest.now.kind latest.now.number u
        (first + i)) }
{
    let nofit = &fixed.nofit;
    let strings = fixed.strings;
    let place = latest.place;
    let at = first + 64 + nofit.reach * nofit.rows * 4
        - (place.column * nofit.rows + place.row) * 4;
    let above = bits_at(
        strings,
        above_start(*nofit, latest.kind, place.rotation, u) + at,
    );
    let below = bits_at(
        strings,
        below_start(*nofit, latest.kind, place.rotation, u) + at + nofit.rows * 4,
    );
    let here = rows_from(nofit, strings, place.row, first);
    (above & here) | (below & !here)
}

// The bits of a word whose candidates stay, by the strings of both kinds. Out of reach of the placed piece nothing is
// in conflict with it.
fn strain_word(fixed: &Fixed, latest: &Latest, u: usize, first: usize, w: u64) -> u64
    requires { Laid fixed.now.job.now fixed.now.nofit fixed.now.strings.now latest.now.kind latest.now.number
        latest.now.place u first × BitsAdmitted (under 0 (content fixed.now.job.now)) u first w }
    ensures { (i : ℕ) → test_bit result i ≡ (test_bit w i && stays (under 0 (content fixed.now.job.now))
        latest.now.kind latest.now.number u (first + i)) }
{
    let rows = fixed.nofit.rows;
    let span = fixed.nofit.reach * rows * 4;
    let middle = latest.place.column * rows * 4;
    if middle + span <= first {
        return w;
    }
    if first + 64 + span <= middle + rows * 4 {
        if latest.kind == u {
            return 0;
        }
        return w;
    }
    w & !blocked_word(fixed, latest, u, first)
}

// The bits of a word whose candidates stay.
fn narrow_word(fixed: &Fixed, latest: &Latest, u: usize, first: usize, w: u64) -> u64
    requires known { Standing fixed.now latest.now }
    requires candidate { (is_candidate (problem fixed.now) latest.now.kind latest.now.number ≡ true) ×
        (first + 64 ≤ set_words (content fixed.now.job.now).sheet * 64) }
    requires bits_admitted { BitsAdmitted (problem fixed.now) u first w }
    ensures { (i : ℕ) → test_bit result i ≡ (test_bit w i && stays (problem fixed.now) latest.now.kind
        latest.now.number u (first + i)) }
{
    if w == 0 {
        return 0;
    }
    if (latest.kind <= u) & holds(fixed.nofit, latest.kind, latest.place.rotation, u) {
        return strain_word(fixed, latest, u, first, w);
    }
    sift_word(fixed, latest, u, first, w)
}

// The set at word `to`: the members of the set at word `from` that stay once the latest piece is placed.
// Where the sets stand are plain numbers: this alone takes all three, and a struct of them would be taken apart at once.
pub fn narrow(
    fixed: &Fixed,
    latest: &Latest,
    u: usize,
    work: &mut [u8],
    from: usize,
    to: usize,
    words: usize,
)
    requires known { Standing fixed.now latest.now }
    requires narrowable { Narrowable (problem fixed.now) latest.now.kind latest.now.number u from to words work.old }
    ensures { Filled to words (λ m. member work.old (from * 64 + m) && stays (problem fixed.now) latest.now.kind
        latest.now.number u m) work.old work.new }
{
    for k in 0..words {
        let w = numbers::get_u64(work, (from + k) * 8);
        let kept = narrow_word(fixed, latest, u, k * 64, w);
        numbers::put_u64(work, (to + k) * 8, kept);
    }
}
