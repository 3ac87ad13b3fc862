// The pieces of the kinds in the table of turned parts.
ghost use Rattle.std.specs.Prelude.{◌≡◌, ◌+◌, ◌≤◌, ◌<◌};
ghost use Rattle.model.specs.Content.{kind_count};
ghost use Rattle.model.specs.Format.{content};
ghost use Rattle.job.specs.View.{Viewed};
ghost use Rattle.shapes.specs.Pieces.{PieceOf, turned_to};

use frame::fields::byte;
use geometry::pieces::Piece;
use job::{Kind, View};

// The piece of a kind, as it stands unturned.
pub fn piece_of(job: &[u8], view: &View, kind: usize) -> Piece
    requires { Viewed job.now view.now × (kind < kind_count (content job.now).kinds) }
    ensures { PieceOf job.now kind result }
{
    let Kind { parts, part_at, .. } = view.kind[kind];
    let mut sizes = [0usize; 6];
    for i in 0..parts {
        sizes[i] = byte(job, part_at[i]);
    }
    Piece {
        first: kind * 120,
        count: parts,
        sizes,
    }
}

// The piece as it stands turned k quarter turns. Nothing else chooses among the turned parts.
pub fn turned_to(p: Piece, k: usize) -> Piece
    requires { (p.first + 120 ≤ 1024) × (k < 4) }
    ensures { result ≡ turned_to p k }
{
    Piece {
        first: k * 1024 + p.first,
        ..p
    }
}
