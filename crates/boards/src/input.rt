// The text of the input: lines, each of a word in five columns, and then numbers in three columns each: a space and
// two hexadecimal digits.
ghost use Rattle.std.specs.Prelude.{ℕ, ◌<◌, ◌≡◌, ◌≢◌, ◌++◌, length, slice_index};

use arrayvec::ArrayVec;

// The byte that two hexadecimal digits say. Those above 9 are capital letters, so that 64 is in them and not in the others.
// (No digit is refused, as `char::to_digit` would, since the program reads every text to its end.)
fn byte_of(high: u8, low: u8) -> u8 {
    (high % 16 + high / 64 * 9) % 16 * 16 + (low % 16 + low / 64 * 9) % 16
}

// The numbers from this column on, a byte each, and 64 at most.
pub fn numbers_at(text: &[u8], column: usize) -> ArrayVec<u8, 64> {
    let mut numbers = ArrayVec::new();
    let columns = text.get(column..).unwrap_or(&[]);
    for [space, high, low] in columns.as_chunks::<3>().0 {
        if *space != b' ' || numbers.is_full() {
            break;
        }
        numbers.push(byte_of(*high, *low));
    }
    numbers
}

// The first line, and what is behind it, from its line feed on.
pub fn split_line(text: &[u8]) -> (&[u8], &[u8])
    ensures whole { result.0.now ++ result.1.now ≡ text.now }
    ensures before { (k : ℕ) → k < length result.0.now → slice_index result.0.now k ≢ 10 }
    ensures found { 0 < length result.1.now → slice_index result.1.now 0 ≡ 10 }
{
    let end = text.iter().position(|byte| *byte == b'\n');
    text.split_at(end.unwrap_or(text.len()))
}
