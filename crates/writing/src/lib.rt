// Numbers written into the answer, two bytes each. Place `at` is counted in numbers.
#![tactic(auto)]

ghost use Rattle.std.specs.Prelude.{[], ◌∷◌, map, ◌≡◌, ℕ, ◌+◌, ◌*◌, ◌≤◌, ◌<◌, length};
ghost use Rattle.model.specs.Lists.{below};
ghost use Rattle.writing.specs.Numbers.{with_numbers_at, as_number, bytes_from, words_from};

use words::numbers;

// One number.
pub fn put(answer: &mut [u8], at: usize, n: usize)
    requires { ((at + 1) * 2 ≤ length answer.old) × (n < 65536) }
    ensures { answer.new ≡ with_numbers_at at (n ∷ []) answer.old }
{
    numbers::put_u16(answer, at * 2, n as u16);
}

// A byte as a number. A coordinate is signed: a negative one is written as 65,536 plus it.
fn to_number(b: u8, coordinate: bool) -> u16
    ensures { result ≡ as_number coordinate b }
{
    if coordinate {
        integers::byte_to_i16(b).cast_unsigned()
    } else {
        u16::from(b)
    }
}

// The n numbers that the function gives, from place `at` on.
fn put_numbers<F: Fn(usize) -> u16>(answer: &mut [u8], at: usize, n: usize, number: F)
    requires room { (at + n) * 2 ≤ length answer.old }
    requires given { (k : ℕ) → k < n → F.pre number k }
    ensures { (f : ℕ → ℕ) → ((k x : ℕ) → k < n → F.post number k x → x ≡ f k)
        → answer.new ≡ with_numbers_at at (map f (below n)) answer.old }
{
    for k in 0..n {
        numbers::put_u16(answer, (at + k) * 2, number(k));
    }
}

// The n bytes from byte `from` on, a number for each. They are coordinates, or plain. (A flag, as the definition
// `bytes_from` in the contract has it.)
pub fn put_bytes(s: &[u8], from: usize, n: usize, coordinates: bool, answer: &mut [u8], at: usize)
    requires { (from + n ≤ length s.now) × ((at + n) * 2 ≤ length answer.old) }
    ensures { answer.new ≡ with_numbers_at at (bytes_from coordinates from n s.now) answer.old }
{
    put_numbers(answer, at, n, |k| to_number(s[from + k], coordinates));
}

// The n two-byte numbers from byte `from` on, at the front of the answer.
pub fn put_words(s: &[u8], from: usize, n: usize, answer: &mut [u8])
    requires { (from + n * 2 ≤ length s.now) × (n * 2 ≤ length answer.old) }
    ensures { answer.new ≡ with_numbers_at 0 (words_from from n s.now) answer.old }
{
    put_numbers(answer, 0, n, |k| numbers::get_u16(s, from + k * 2));
}
