// The type list: cause 6 of refusal.
ghost use Rattle.std.specs.Prelude.{◌≡◌, ◌+◌, ◌*◌, ◌≤◌, ◌<◌, length};
ghost use Rattle.records.specs.Classes.{classes_from};
ghost use Rattle.records.specs.Kinds.{named, absent_none, list_unfit};

use crate::{classes, sizes};
use frame::fields;

// The class mask names this id.
pub fn names(mask: usize, id: usize) -> bool
    requires { id < 64 }
    ensures { result ≡ named mask id }
{
    words::bits::test_bit(mask as u64, id as u64)
}

// Every id that the mask names is that of one of the n classes from byte `at` on.
fn none_absent(job: &[u8], at: usize, n: usize, mask: usize) -> bool
    requires { (n < 256) × (at + n * 3 ≤ length job.now) }
    ensures { result ≡ absent_none (classes_from job.now at n) mask }
{
    (0..8).all(|id| !names(mask, id) | classes::find(job, at, n, id).is_some())
}

// The n type records of the list do not fit: one cannot be read, they do not fill the list, they demand too much, or a
// class is absent.
pub fn unfit(job: &[u8], at: usize, n: usize, list: &[u8], kinds: usize) -> bool
    requires { ((n < 256) × (kinds < 256)) × (at + n * 3 ≤ length job.now) }
    ensures { result ≡ list_unfit (classes_from job.now at n) list.now kinds }
{
    let mut here = 0;
    let mut demand = 0;
    let mut present = true;
    for _ in 0..kinds {
        let Some(size) = sizes::kind_size(&list[here..]) else {
            return true;
        };
        demand += fields::byte(list, here);
        present &= none_absent(job, at, n, fields::byte(list, here + 2));
        here += size;
    }
    (here != list.len()) | (12 < demand) | !present
}
