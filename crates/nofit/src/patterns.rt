// The strings of the no-fit patterns and the parities of the columns, filled once for a run.
ghost use Rattle.std.specs.Prelude.{true, ◌≡◌, ◌+◌, ◌*◌, ◌/◌, ◌%◌, ◌≤◌, ◌<◌, length, get_or};
ghost use Rattle.words.specs.Bits.{test_bit, bits_where};
ghost use Rattle.model.specs.Format.{content};
ghost use Rattle.job.specs.View.{Viewed, rotations_of};
ghost use Rattle.shapes.specs.Boxes.{BoxesOf};
ghost use Rattle.shapes.specs.Pieces.{turned_to};
ghost use Rattle.shapes.specs.Turned.{TurnedOf};
ghost use Rattle.candidates.specs.Facts.{facts};
ghost use Rattle.candidates.specs.Placements.{Bounded};
ghost use Rattle.nofit.specs.Patterns.{from_middle, StringsOf, ParitiesOf, MeasuresOf, NofitOf};
ghost use Rattle.nofit.specs.Filling.{dot_of, Ready, Boxed, BoxesIn, TurnSet, FirstWord, WordSet, Written, allowed};
ghost use Rattle.nofit.specs.Filling.{PairOf, bound_of, pattern_of, Small, Fillable, asked_of, blocked_pair, parity_bits, ParitiesTo};

use crate::places::Nofit;
use candidates::conflicts::pair_gap;
use candidates::prepared::PreparedJob;
use geometry::pairs::boxes_apart;
use geometry::pieces::{Piece, pieces_conflict};
use job::View;
use polygons::extents::Extents;
use shapes::boxes::{Boxes, box_at};
use shapes::pieces::{piece_of, turned_to};
use words::{bits, numbers};

// A dot of a string: the column and the row, counted from the string's first dot.
#[derive(Clone, Copy)]
pub struct Dot {
    pub column: usize,
    pub row: usize,
}

// What a string is made of: the step from dot to dot, the board's rows, how many columns pieces reach, how many rows
// under the placed piece's a column begins (`lift`), the number below which all is blocked, the rotations that the
// other piece may have, and the gap of the two.
#[derive(Clone, Copy)]
pub struct Pattern {
    pub step: usize,
    pub rows: usize,
    pub reach: usize,
    pub lift: usize,
    pub below: usize,
    pub mask: u64,
    pub gap: u16,
}

// Whose string it is: the placed kind and its rotation, the other kind, and whether it is for the rows under the placed
// piece's, or for its row and those above.
#[derive(Clone, Copy)]
pub struct Pair {
    pub kind: usize,
    pub turn: usize,
    pub other: usize,
    pub under: bool,
}

// A piece as it stands in the table of turned parts, and its box.
#[derive(Clone, Copy)]
pub struct BoxedPiece {
    pub piece: Piece,
    pub extents: Extents,
}

// The placed piece of a string and the other one, which is turned so, in the table of turned parts.
#[derive(Clone, Copy)]
pub struct Facing<'a> {
    pub turned: &'a [i16],
    pub pattern: Pattern,
    pub placed: BoxedPiece,
    pub other: BoxedPiece,
    pub ghost ready: { Ready pattern × (Boxed turned.now placed.piece placed.extents × Boxed turned.now other.piece other.extents) } by { Prim.hlevel facts },
}

// What a string is filled from: the table of turned parts, the placed piece in it, and the other kind with its piece as
// it stands unturned and the boxes.
#[derive(Clone, Copy)]
pub struct Source<'a> {
    pub turned: &'a [i16],
    pub pattern: Pattern,
    pub placed: BoxedPiece,
    pub kind: usize,
    pub other: Piece,
    pub boxes: Boxes,
    pub ghost ready: { Ready pattern × (Boxed turned.now placed.piece placed.extents × BoxesIn turned.now other kind boxes) } by { Prim.hlevel facts },
}

// How far place n lies from the middle one.
fn away(step: usize, middle: usize, n: usize) -> i16
    requires { (n * step ≤ 4000) × (middle * step ≤ 2000) }
    ensures { result ≡ from_middle step middle n }
{
    ((n * step) as i16) - ((middle * step) as i16)
}

// Dot n of a string.
fn dot_of(rows: usize, n: usize) -> Dot
    requires { 1 ≤ rows }
    ensures { result ≡ dot_of rows n }
{
    Dot {
        column: n / rows,
        row: n % rows,
    }
}

// The dot behind dot n.
fn next_dot(rows: usize, d: Dot, n: usize) -> Dot
    requires { ((1 ≤ rows) × (n ≤ 100000)) × (d ≡ dot_of rows n) }
    ensures { result ≡ dot_of rows (n + 1) }
{
    let row = d.row + 1;
    if row < rows {
        return Dot {
            column: d.column,
            row,
        };
    }
    Dot {
        column: d.column + 1,
        row: 0,
    }
}

impl<'a> Facing<'a> {
    ghost use Rattle.nofit.specs.Sources.{conflict_facing, blocked_facing, bit_facing};

    // Whether the pieces are in conflict at the offset of a dot. Boxes that are apart decide most dots.
    fn conflicts_at(&self, d: Dot) -> bool
        requires { (d.column < self.now.pattern.reach * 2 + 1) × (d.row < self.now.pattern.rows) }
        ensures { result ≡ conflict_facing self.now d }
    {
        let pattern = self.pattern;
        let gap = pattern.gap;
        let placed = self.placed;
        let other = self.other;
        let dx = away(pattern.step, pattern.reach, d.column);
        let dy = away(pattern.step, pattern.lift, d.row);
        if boxes_apart(placed.extents, other.extents, dx, dy, gap) {
            return false;
        }
        pieces_conflict(self.turned, placed.piece, other.piece, dx, dy, gap)
    }

    // Whether bit z of the string is set, which belongs to the dot d and to the other piece as it stands turned.
    fn blocks(&self, z: usize, d: Dot) -> bool
        requires { d.row < self.now.pattern.rows }
        ensures { result ≡ blocked_facing self.now z d }
    {
        z < self.pattern.below || (d.column < self.pattern.reach * 2 + 1 && self.conflicts_at(d))
    }

    // The bits of the other piece's rotation k in a word behind the first one. The bits of the other rotations stay as
    // they are in w.
    fn turn_word(&self, k: usize, word: usize, w: u64) -> u64
        requires rotation { k < 4 }
        requires word_bounds { (1 ≤ word) × (word ≤ 200) }
        ensures { TurnSet k 16 (λ i. bit_facing self.now (word * 64 + i)) w result }
    {
        let rows = self.pattern.rows;
        let first = (word - 1) * 16;
        let mut v = w;
        let mut d = dot_of(rows, first);
        for n in 0..16 {
            let i = n * 4 + k;
            v = bits::assign_bit(v, i as u64, self.blocks(word * 64 + i, d));
            d = next_dot(rows, d, first + n);
        }
        v
    }
}

// The first word of a string, which stands before its first dot.
fn first_word(below: usize) -> u64
    ensures { FirstWord below result }
{
    if below > 0 { u64::MAX } else { 0 }
}

impl<'a> Source<'a> {
    ghost use Rattle.nofit.specs.Sources.{source_bit};

    // The other piece at rotation k, and the placed one.
    fn facing(&self, k: usize) -> Facing<'a>
        requires { k < 4 }
        ensures at { (result.turned.now ≡ self.now.turned.now) × ((result.pattern ≡ self.now.pattern) × (result.placed ≡ self.now.placed)) }
        ensures other { result.other.piece ≡ turned_to self.now.other k }
    {
        Facing {
            turned: self.turned,
            pattern: self.pattern,
            placed: self.placed,
            other: BoxedPiece {
                piece: turned_to(self.other, k),
                extents: box_at(&self.boxes, self.kind, k),
            },
        }
    }

    // Word number `word` of the string. Rotations that the other kind may not have cost no test.
    fn word(&self, word: usize) -> u64
        requires { word ≤ 200 }
        ensures { WordSet (allowed self.now.pattern.mask) (λ i. source_bit self.now (word * 64 + i)) result }
    {
        if word == 0 {
            return first_word(self.pattern.below);
        }
        let mut v = 0;
        for k in 0..4 {
            if bits::test_bit(self.pattern.mask, k as u64) {
                v = self.facing(k).turn_word(k, word, v);
            }
        }
        v
    }

    // The string of `size` words, from word `at` on.
    fn fill(&self, at: usize, size: usize, bits: &mut [u8])
        requires sizes { (size ≤ 200) × (at ≤ 100000) }
        requires size_in_bounds { (at + size) * 8 ≤ length bits.old }
        ensures { Written at size (allowed self.now.pattern.mask) (source_bit self.now) bits.old bits.new }
    {
        for k in 0..size {
            numbers::put_u64(bits, (at + k) * 8, self.word(k));
        }
    }
}

// The number below which all of a pair's string is blocked.
fn bound_of(nofit: Nofit, x: Pair) -> usize
    requires { Small nofit x }
    ensures { result ≡ bound_of nofit x }
{
    if x.kind == x.other {
        return 64 + (nofit.reach + usize::from(x.under)) * nofit.rows * 4 + x.turn + 1;
    }
    0
}

// The pattern of a pair.
fn pattern_of(view: &View, nofit: Nofit, x: Pair) -> Pattern
    requires bounded { Bounded view.now × ((x.kind < view.now.kinds) × (x.other < view.now.kinds)) }
    requires small { Small nofit x }
    ensures { result ≡ pattern_of view.now nofit x }
{
    Pattern {
        step: view.step,
        rows: nofit.rows,
        reach: nofit.reach,
        lift: usize::from(x.under) * nofit.rows,
        below: bound_of(nofit, x),
        mask: view.kind[x.other].rotations as u64,
        gap: pair_gap(view, x.kind, x.other),
    }
}

// Whose string string i is.
fn pair_of(nofit: Nofit, i: usize) -> Pair
    requires { (nofit.kinds ≤ 8) × (i < nofit.kinds * (nofit.kinds + 1) * 4) }
    ensures { PairOf nofit i result }
{
    let turn = i % 4;
    let line = i / 4 / (nofit.kinds + 1);
    let place = i / 4 % (nofit.kinds + 1);
    if line < place {
        return Pair {
            kind: line,
            turn,
            other: place - 1,
            under: false,
        };
    }
    Pair {
        kind: place,
        turn,
        other: line,
        under: true,
    }
}

// String i, that of the pair x.
fn fill_pair(prepared: &PreparedJob, nofit: Nofit, x: Pair, i: usize, bits: &mut [u8])
    requires fillable { Fillable prepared.now nofit (length bits.old) }
    requires pair_of { PairOf nofit i x × (i < nofit.held) }
    ensures { Written (nofit.first + i * nofit.size) nofit.size (asked_of prepared.now x) (blocked_pair prepared.now nofit x) bits.old bits.new }
{
    let view = &prepared.view;
    let source = Source {
        turned: prepared.turned,
        pattern: pattern_of(view, nofit, x),
        placed: BoxedPiece {
            piece: turned_to(piece_of(prepared.job, view, x.kind), x.turn),
            extents: box_at(&prepared.boxes, x.kind, x.turn),
        },
        kind: x.other,
        other: piece_of(prepared.job, view, x.other),
        boxes: prepared.boxes,
    };
    source.fill(nofit.first + i * nofit.size, nofit.size, bits);
}

// Whether kind t may be turned q quarter turns.
fn is_turned(view: &View, t: usize, q: usize) -> bool
    requires { Bounded view.now × ((t < view.now.kinds) × (q < 4)) }
    ensures { result ≡ test_bit (rotations_of view.now t) q }
{
    bits::test_bit(view.kind[t].rotations as u64, q as u64)
}

// String i, if the placed kind may be turned so. The strings before it and the parities stay as they are.
fn fill_next(prepared: &PreparedJob, nofit: Nofit, i: usize, bits: &mut [u8])
    requires fillable { Fillable prepared.now nofit (length bits.old) × (i < nofit.held) }
    requires parities_of { ParitiesOf nofit bits.old × StringsOf (content prepared.now.job.now) nofit i bits.old }
    ensures { ParitiesOf nofit bits.new × StringsOf (content prepared.now.job.now) nofit (i + 1) bits.new }
{
    let x = pair_of(nofit, i);
    if is_turned(&prepared.view, x.kind, x.turn) {
        fill_pair(prepared, nofit, x, i, bits);
    }
}

// Word k of the parities: four bits for each of its dots. (A dot is carried to the next one, so that a word takes one
// division; by `bits::word_of` each bit would take one.)
fn parity_word(rows: usize, k: usize) -> u64
    requires { (1 ≤ rows) × (k ≤ 200) }
    ensures { result ≡ bits_where 64 (parity_bits rows k) }
{
    let first = k * 16;
    let mut v = 0;
    let mut d = dot_of(rows, first);
    for n in 0..16 {
        let odd = bits::test_bit(d.column as u64, 0);
        for turn in 0..4 {
            v = bits::assign_bit(v, (n * 4 + turn) as u64, odd);
        }
        d = next_dot(rows, d, first + n);
    }
    v
}

// The parities of the columns, in the first words.
fn fill_parities(rows: usize, first: usize, bits: &mut [u8])
    requires { ((1 ≤ rows) × (first ≤ 200)) × (first * 8 ≤ length bits.old) }
    ensures { ParitiesTo rows first bits.new }
{
    for k in 0..first {
        numbers::put_u64(bits, k * 8, parity_word(rows, k));
    }
}

// Fills the table. (Its parameters are the contract that the crates above prove at their call: what may not change.)
pub fn make_nofit(
    job: &[u8],
    view: View,
    turned: &[i16],
    boxes: Boxes,
    nofit: Nofit,
    bits: &mut [u8],
)
    requires viewed { Viewed job.now view × TurnedOf job.now turned.now × BoxesOf job.now boxes }
    requires measures_of { MeasuresOf job.now nofit × ((nofit.first + nofit.held * nofit.size + 1) * 8 ≤ length bits.old) }
    ensures { NofitOf job.now nofit bits.new }
{
    let prepared = PreparedJob {
        job,
        view,
        turned,
        boxes,
    };
    fill_parities(nofit.rows, nofit.first, bits);
    for i in 0..nofit.held {
        fill_next(&prepared, nofit, i, bits);
    }
}
