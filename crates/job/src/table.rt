// What the type records of an accepted job say, a record for each kind.
ghost use Rattle.std.specs.Prelude.{false, ◌≡◌, ◌+◌, ◌*◌, ◌≤◌, ◌<◌, length};
ghost use Rattle.model.specs.Format.{many, read_kind};
ghost use Rattle.records.specs.Classes.{classes_from, classes_unfit};
ghost use Rattle.records.specs.Records.{Reads};
ghost use Rattle.job.specs.Table.{HeadIn, Built};

use crate::{Kind, gaps, places};
use frame::fields;

// The four fields in front of a type's parts.
#[derive(Clone, Copy)]
pub struct Head {
    pub demand: usize,
    pub rotations: usize,
    pub classes: usize,
    pub parts: usize,
}

fn read_head(list: &[u8], here: usize) -> Head
    requires { here + 4 ≤ length list.now }
    ensures { HeadIn list.now here result }
{
    Head {
        demand: fields::byte(list, here),
        rotations: fields::byte(list, here + 1),
        classes: fields::byte(list, here + 2),
        parts: fields::byte(list, here + 3),
    }
}

// The kinds of the type records in `list`, a piece of the job that begins at byte `base`; n classes stand from byte `at`
// on. A type in no class has the largest gap of the class list.
pub fn read_kinds(
    job: &[u8],
    at: usize,
    n: usize,
    list: &[u8],
    base: usize,
    kinds: usize,
) -> [Kind; 8]
    requires { ((n < 256) × (at + n * 3 ≤ length job.now) × (kinds ≤ 8) × (base + length list.now ≤ 65536)) × (Reads (many read_kind kinds list.now) (length list.now) × (classes_unfit job.now at n ≡ false)) }
    ensures { Built (classes_from job.now at n) list.now base kinds (length list.now) result }
{
    let mut table = [Kind {
        demand: 0,
        rotations: 0,
        gap: 0,
        cut: None,
        parts: 0,
        part_at: [0; 6],
    }; 8];
    let default = gaps::largest_gap(job, at, n);
    let mut here = 0;
    for t in 0..kinds {
        let head = read_head(list, here);
        let best = gaps::best_class(job, at, n, default, head.classes);
        let (part_at, end) = places::place_parts(list, here + 4, head.parts, base);
        table[t] = Kind {
            demand: head.demand,
            rotations: head.rotations,
            gap: best.gap,
            cut: best.cut,
            parts: head.parts,
            part_at,
        };
        here = end;
    }
    table
}
