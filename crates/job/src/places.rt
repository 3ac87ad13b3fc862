// Where the parts of an accepted type record begin.
ghost use Rattle.std.specs.Prelude.{◌≡◌, ◌+◌, ◌≤◌, ◌<◌, length, drop};
ghost use Rattle.model.specs.Format.{many, read_part};
ghost use Rattle.job.specs.Places.{Placed};
ghost use Rattle.records.specs.Records.{Reads, size_of};

use frame::fields;

// The places of the n parts that stand from byte `from` of the list on, which begins at byte `base` of the job; and where
// in the list they end.
pub fn place_parts(list: &[u8], from: usize, n: usize, base: usize) -> ([usize; 6], usize)
    requires { ((n ≤ 6) × (base + length list.now ≤ 65536))
        × Reads (many read_part n (drop from list.now)) (size_of (many read_part n (drop from list.now))) }
    ensures { Placed list.now from n base result.0 × (result.1 ≡ from + size_of (many read_part n (drop from list.now))) }
{
    let mut places = [0; 6];
    let mut here = from;
    for i in 0..n {
        places[i] = base + here;
        here += fields::byte(list, here) * 2 + 1;
    }
    (places, here)
}
