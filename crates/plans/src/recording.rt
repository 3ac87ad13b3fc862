// The layout held, in the answer numbers.
ghost use Rattle.std.specs.Prelude.{map, ◌≡◌, ◌*◌, ◌/◌, ◌%◌, ◌≤◌, ◌<◌, length};
ghost use Rattle.std.proofs.Math.Option.{some};
ghost use Rattle.model.specs.Lists.{below};
ghost use Rattle.model.specs.Services.{entry_in, with_layout};
ghost use Rattle.plans.specs.Planned.{PlanOf, planned};
ghost use Rattle.plans.specs.Recording.{four_in, layout_of, Recordable};

use crate::plan::Plan;
use words::numbers;

// The four numbers of an entry as one of eight bytes.
fn entry_word(rows: usize, kind: u8, n: usize) -> u64
    requires { (1 ≤ rows) × (n < 4096) }
    ensures { result ≡ four_in kind (n / 4 / rows) (n / 4 % rows) (n % 4) }
{
    let dot = n / 4;
    let place = (dot / rows) as u64 + 65536 * ((dot % rows) as u64 + 65536 * (n % 4) as u64);
    kind as u64 + 65536 * place
}

// The layout of all pieces, each at the candidate of its number, becomes the first answer numbers.
pub fn record_layout(job: &[u8], plan: &Plan, candidates: [usize; 12], out: &mut [u8])
    requires { PlanOf job.now plan.now × Recordable (planned job.now plan.now) candidates out.old }
    ensures { out.new ≡ with_layout (some (layout_of (planned job.now plan.now) candidates)) out.old }
{
    for i in 0..plan.pieces {
        numbers::put_u64(
            out,
            i * 8,
            entry_word(plan.rows, plan.kinds[i], candidates[i]),
        );
    }
}

// The first entries of a layout that is handed in, so many, become the first answer numbers. (Entry by entry, and no
// `copy_from_slice`: that is compiled to a call of memmove, which the archive for C would need from outside.)
pub fn copy_layout(layout: &[u8], pieces: usize, out: &mut [u8])
    requires { (pieces ≤ 12) × ((pieces * 8 ≤ length layout.now) × (pieces * 8 ≤ length out.old)) }
    ensures { out.new ≡ with_layout (some (map (entry_in layout.now) (below pieces))) out.old }
{
    for i in 0..pieces {
        numbers::put_u64(out, i * 8, numbers::get_u64(layout, i * 8));
    }
}
