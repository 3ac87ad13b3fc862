// The numbers of an accepted job's type list. Each byte of the list becomes one number, so the numbers' places follow the bytes' places: the
// list's byte 0 stands at number `at` of the answer.
ghost use Rattle.std.specs.Prelude.{◌≡◌, ◌+◌, ◌*◌, ◌≤◌, ◌<◌, length, drop};
ghost use Rattle.model.specs.Format.{many, read_part, read_kind};
ghost use Rattle.records.specs.Records.{Reads, size_of};
ghost use Rattle.reading.specs.Write.{parts_numbers, kinds_numbers};
ghost use Rattle.writing.specs.Numbers.{with_numbers_at};

use frame::fields;

// The n parts that stand from byte `from` on: of each the number of corners, then x and y of each corner. The result is where they end.
fn put_parts(list: &[u8], from: usize, n: usize, answer: &mut [u8], at: usize) -> usize
    requires { ((at + length list.now) * 2 ≤ length answer.old) × Reads (many read_part n (drop from list.now)) (size_of (many read_part n (drop from list.now))) }
    ensures answer_after { answer.new ≡ with_numbers_at (at + from) (parts_numbers n (drop from list.now)) answer.old }
    ensures value { result ≡ from + size_of (many read_part n (drop from list.now)) }
{
    let mut here = from;
    for _ in 0..n {
        let corners = fields::byte(list, here);
        writing::put(answer, at + here, corners);
        writing::put_bytes(list, here + 1, corners * 2, true, answer, at + here + 1);
        here += corners * 2 + 1;
    }
    here
}

// The n type records of the list: of each its four fields, then its parts.
pub fn put_kinds(list: &[u8], n: usize, answer: &mut [u8], at: usize)
    requires { ((at + length list.now) * 2 ≤ length answer.old) × Reads (many read_kind n list.now) (length list.now) }
    ensures { answer.new ≡ with_numbers_at at (kinds_numbers n list.now) answer.old }
{
    let mut here = 0;
    for _ in 0..n {
        writing::put_bytes(list, here, 4, false, answer, at + here);
        here = put_parts(list, here + 4, fields::byte(list, here + 3), answer, at);
    }
}
