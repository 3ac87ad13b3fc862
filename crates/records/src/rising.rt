// The classes by rising id, in whatever order the file has them.
ghost use Rattle.std.specs.Prelude.{false, ◌≡◌, ◌+◌, ◌*◌, ◌≤◌, length};
ghost use Rattle.records.specs.Classes.{classes_unfit};
ghost use Rattle.records.specs.Rising.{ByRisingId};

use crate::classes;

// Where each of the n classes from byte `at` on begins, by rising id. Of the entries the first n count: an id that no
// class has leaves behind a place that the next id overwrites. There is room for eight, and no heap.
pub fn places(job: &[u8], at: usize, n: usize) -> [usize; 8]
    requires { (at + n * 3 ≤ length job.now) × (classes_unfit job.now at n ≡ false) }
    ensures { ByRisingId job.now at n result }
{
    let mut places = [0usize; 8];
    let mut done = 0;
    for id in 0..8 {
        let j = classes::find(job, at, n, id).unwrap_or(n);
        places[done] = at + j * 3;
        done += usize::from(j < n);
    }
    places
}
