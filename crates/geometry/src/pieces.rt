// Pieces as they stand in a table of parts, and the test of a pair of pieces: part by part, as the table has them.
ghost use Rattle.std.specs.Prelude.{not, map, ◌≡◌, ◌+◌, ◌*◌, ◌≤◌, ◌<◌, length, get_or};
ghost use Rattle.model.specs.Geometry;
ghost use Rattle.model.specs.Geometry.{pieces_conflict};
ghost use Rattle.polygons.specs.Flat.{part_of, shifted};
ghost use Rattle.distances.specs.Compact.{Short};
ghost use Rattle.geometry.specs.Pieces.{Fitting, Standing, part_in, box_in, parts_in, part_conflicts};

use crate::pairs::{boxes_apart, separated};
use distances::parts::Move;
use polygons::extents::Extents;

// A piece in a table: where its first part stands, how many parts it has, and how many vertices each. Each part has 20
// numbers: its box, and x and y of up to eight vertices.
#[derive(Clone, Copy)]
pub struct Piece {
    pub first: usize,
    pub count: usize,
    pub sizes: [usize; 6],
}

// Where part i begins.
fn part_start(p: Piece, i: usize) -> usize
    requires { Fitting p × (i < p.count) }
    ensures { (result ≡ p.first + i * 20) × (result + 20 ≤ 4096) }
{
    p.first + i * 20
}

// The box of part i, as the table has it. (A TablePiece would ask more: the box may be of any numbers.)
pub fn part_box(table: &[i16], p: Piece, i: usize) -> Extents
    requires { (Fitting p × (i < p.count)) × (length table.now ≡ 4096) }
    ensures { result ≡ box_in table.now p i }
{
    let at = part_start(p, i);
    Extents {
        min_x: table[at],
        max_x: table[at + 1],
        min_y: table[at + 2],
        max_y: table[at + 3],
    }
}

// A piece and the table that it stands in, each part under its own box, sound and with small numbers.
#[derive(Clone, Copy)]
struct TablePiece<'a, 'b> {
    table: &'a [i16],
    piece: &'b Piece,
    ghost standing: { Standing table.now piece.now },
}

impl<'a, 'b> TablePiece<'a, 'b> {
    // Part i of it.
    fn part(&self, i: usize) -> &'a [i16]
        requires { i < self.now.piece.now.count }
        ensures { part_of result.now ≡ part_in self.now.table.now self.now.piece.now i }
    {
        let at = part_start(*self.piece, i) + 4;
        &self.table[at..at + self.piece.sizes[i] * 2]
    }
}

// Whether part i of p is not separated from part m of q, moved: the pair test of their vertices, and before it that of
// their boxes, since those that are apart spare most pairs the test.
fn parts_conflict(p: &TablePiece, i: usize, q: &TablePiece, m: usize, by: Move, gap: u16) -> bool
    requires { (i < p.now.piece.now.count) × (m < q.now.piece.now.count) }
    ensures { result ≡
        not (Geometry.separated gap (part_in p.now.table.now p.now.piece.now i)
        (map (shifted by.dx by.dy) (part_in q.now.table.now q.now.piece.now m))) }
{
    if boxes_apart(
        part_box(p.table, *p.piece, i),
        part_box(q.table, *q.piece, m),
        by.dx,
        by.dy,
        gap,
    ) {
        return false;
    }
    !separated(p.part(i), q.part(m), by.dx, by.dy, gap)
}

// Whether part i of p is not separated from some part of q, moved. The first such part ends the test.
fn part_conflicts(p: &TablePiece, i: usize, q: &TablePiece, by: Move, gap: u16) -> bool
    requires { i < p.now.piece.now.count }
    ensures { result ≡
        part_conflicts gap (part_in p.now.table.now p.now.piece.now i)
        (map (map (shifted by.dx by.dy)) (parts_in q.now.table.now q.now.piece.now)) }
{
    (0..q.piece.count).any(|m| parts_conflict(p, i, q, m, by, gap))
}

// Whether the piece p is in conflict at this gap with the piece q, moved by (dx, dy). (Callers name the one table once.)
pub fn pieces_conflict(table: &[i16], p: Piece, q: Piece, dx: i16, dy: i16, gap: u16) -> bool
    requires { (Standing table.now p × Standing table.now q) × Short 4096 dx dy }
    ensures { result ≡ pieces_conflict gap (parts_in table.now p) (map (map (shifted dx dy)) (parts_in table.now q)) }
{
    let by = Move { dx, dy };
    let first = TablePiece { table, piece: &p };
    let second = TablePiece { table, piece: &q };
    (0..p.count).any(|i| part_conflicts(&first, i, &second, by, gap))
}
