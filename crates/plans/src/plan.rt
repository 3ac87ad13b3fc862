// What follows from the job and the margin and is computed once for a run. The walk looks it up by reference, and its
// numbers are small.
ghost use Rattle.std.specs.Prelude.{◌≡◌, ℕ, ◌/◌, ◌%◌, ◌≤◌, ◌<◌, get_or};
ghost use Rattle.words.specs.Bits.{bits_where};
ghost use Rattle.model.specs.Content.{kind_count, piece_count};
ghost use Rattle.model.specs.Format.{content};
ghost use Rattle.model.specs.Grid.{set_words};
ghost use Rattle.model.specs.Search.{copies_left};
ghost use Rattle.model.specs.Services.{work_words};
ghost use Rattle.job.specs.Gaps.{same_cut};
ghost use Rattle.job.specs.View.{problem_of, cut_of, Viewed};
ghost use Rattle.geometry.specs.Pieces.{Fitting};
ghost use Rattle.shapes.specs.Boxes.{BoxesOf};
ghost use Rattle.stepping.specs.Levels.{pieces_from};
ghost use Rattle.plans.specs.Planned.{no_kind, PlannedAs, KindsOf, CopiesOf, PlanOf};

use candidates::conflicts::share_cut;
use geometry::pieces::Piece;
use job::View;
use shapes::boxes::{Boxes, box_at};
use shapes::pieces::piece_of;
use std::array;

// What is looked up of a kind: its gap, how many parts it has and how many vertices each of them, and where it ends at
// the first column, turned k quarter turns under k.
#[derive(Clone, Copy, Default)]
pub struct PlannedKind {
    pub gap: u8,
    pub parts: u8,
    pub sizes: [u8; 6],
    pub ends: [i16; 4],
}

// The board's rows and step; the margin, which says whose candidates the live sets hold (no function of the walk looks
// at it: it is the same in every length, so the walk compares ends); how many kinds and pieces there are, and words in
// a set; whether kinds t and u share a common cut, in bit t * 8 + u; the kind of each piece; the copies of each kind
// left at each level; and each kind.
#[derive(Clone, Copy)]
pub struct Plan {
    pub rows: usize,
    pub step: usize,
    pub margin: usize,
    pub types: usize,
    pub pieces: usize,
    pub words: usize,
    pub shared: u64,
    pub kinds: [u8; 12],
    pub copies: [[u8; 8]; 12],
    pub kind: [PlannedKind; 8],
}

// The kind of each piece: the kinds in their order, each as often as it is demanded.
fn piece_kinds(job: &[u8], view: View) -> [u8; 12]
    requires { Viewed job.now view }
    ensures { KindsOf (content job.now).kinds result }
{
    let mut kinds = [0; 12];
    let mut l = 0;
    for t in 0..view.kinds {
        let end = l + view.kind[t].demand;
        kinds[l..end].fill(t as u8);
        l = end;
    }
    kinds
}

// The copies of kind u among the pieces from piece l on.
fn count_copies(job: &[u8], view: View, kinds: [u8; 12], l: usize, u: usize) -> u8
    requires { Viewed job.now view × KindsOf (content job.now).kinds kinds × (l ≤ piece_count (content job.now).kinds) }
    ensures { result ≡ copies_left u (pieces_from (content job.now).kinds l) }
{
    kinds[l..view.pieces]
        .iter()
        .filter(|k| usize::from(**k) == u)
        .count() as u8
}

// The copies of each kind left at each level.
fn copies_table(job: &[u8], view: View, kinds: [u8; 12]) -> [[u8; 8]; 12]
    requires { Viewed job.now view × KindsOf (content job.now).kinds kinds }
    ensures { CopiesOf (content job.now).kinds result }
{
    let mut copies = [[0; 8]; 12];
    for l in 0..view.pieces {
        copies[l] = array::from_fn(|u| count_copies(job, view, kinds, l, u));
    }
    copies
}

// How many vertices each part of a piece has.
fn sizes_of(piece: Piece) -> [u8; 6]
    requires { Fitting piece }
    ensures { (i : ℕ) → i < piece.count → get_or result i 0 ≡ get_or piece.sizes i 0 }
{
    let mut sizes = [0; 6];
    for i in 0..piece.count {
        sizes[i] = piece.sizes[i] as u8;
    }
    sizes
}

// A kind, as it is looked up.
fn planned_kind(job: &[u8], view: View, boxes: Boxes, t: usize) -> PlannedKind
    requires { Viewed job.now view × (t < kind_count (content job.now).kinds) }
    ensures { PlannedAs job.now boxes t result }
{
    let piece = piece_of(job, &view, t);
    PlannedKind {
        gap: view.kind[t].gap as u8,
        parts: piece.count as u8,
        sizes: sizes_of(piece),
        ends: array::from_fn(|k| box_at(&boxes, t, k).max_x),
    }
}

// All kinds.
fn planned_kinds(job: &[u8], view: View, boxes: Boxes) -> [PlannedKind; 8]
    requires { Viewed job.now view }
    ensures { (t : ℕ) → t < kind_count (content job.now).kinds → PlannedAs job.now boxes t (get_or result t no_kind) }
{
    let mut all = [PlannedKind::default(); 8];
    for t in 0..view.kinds {
        all[t] = planned_kind(job, view, boxes, t);
    }
    all
}

// Which kinds share a common cut: kinds t and u in bit t * 8 + u. (One number: what the walk asks for a pair is a bit.)
fn shared_cuts(view: View) -> u64
    ensures { result ≡ bits_where 64 (λ x. same_cut (cut_of view (x / 8)) (cut_of view (x % 8))) }
{
    words::bits::word_of(|x| share_cut(&view, x / 8, x % 8))
}

// How many words a set has.
fn set_words(job: &[u8], view: View) -> usize
    requires { Viewed job.now view }
    ensures { (result ≡ set_words (content job.now).sheet) × (result ≤ 64) }
{
    (view.columns * view.rows).div_ceil(16)
}

// The plan of a job, under the view's margin.
pub fn make_plan(job: &[u8], view: View, boxes: Boxes) -> Plan
    requires { Viewed job.now view × BoxesOf job.now boxes }
    ensures { PlanOf job.now result × (result.margin ≡ view.margin) }
{
    let kinds = piece_kinds(job, view);
    Plan {
        rows: view.rows,
        step: view.step,
        margin: view.margin,
        types: view.kinds,
        pieces: view.pieces,
        words: set_words(job, view),
        shared: shared_cuts(view),
        kinds,
        copies: copies_table(job, view, kinds),
        kind: planned_kinds(job, view, boxes),
    }
}

// How many work words a run needs.
pub fn work_words(job: &[u8], view: View) -> usize
    requires { Viewed job.now view }
    ensures { (result ≡ work_words (problem_of job.now view)) × (result ≤ 6144) }
{
    view.kinds * view.pieces * set_words(job, view)
}
