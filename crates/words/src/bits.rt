// Bits of a word of 64 bits: a place is taken modulo 64, so that every place is one of the word.
ghost use Rattle.std.specs.Prelude.{true, false, ◌≡◌, ℕ, ◌%◌, ◌^◌, ◌≤◌, ◌<◌};
ghost use Rattle.std.specs.Int.Count.{ones};
ghost use Rattle.words.specs.Sets.{first_from};
ghost use Rattle.words.specs.Bits.{test_bit, with_bit, without_bit, assigned_bit};

// Bit i is set.
pub fn test_bit(w: u64, i: u64) -> bool
    ensures { result ≡ test_bit w (i % 64) }
{
    (w >> (i % 64)) & 1 == 1
}

// The word whose only bit is bit i.
fn one_bit(i: u64) -> u64
    ensures { result ≡ 2 ^ (i % 64) }
{
    1 << (i % 64)
}

// w with bit i set.
pub fn set_bit(w: u64, i: u64) -> u64
    ensures { result ≡ with_bit w (i % 64) }
{
    w | one_bit(i)
}

// w with bit i cleared.
pub fn clear_bit(w: u64, i: u64) -> u64
    ensures { result ≡ without_bit w (i % 64) }
{
    w & !one_bit(i)
}

// w with bit i set, or cleared.
pub fn assign_bit(w: u64, i: u64, on: bool) -> u64
    ensures { result ≡ assigned_bit on w (i % 64) }
{
    if on { set_bit(w, i) } else { clear_bit(w, i) }
}

// How many bits of w are set.
pub fn count_bits(w: u64) -> u64
    ensures { (result ≡ ones w) × (result ≤ 64) }
{
    u64::from(w.count_ones())
}

// The place of the lowest bit of w that is set, or 64 where none is.
pub fn lowest_bit(w: u64) -> usize
    ensures { (result ≡ first_from (test_bit w) 64 0) × (result ≤ 64) }
{
    w.trailing_zeros() as usize
}

// The word whose bit i, for each i, is what the test says of i.
pub fn word_of<F: Fn(usize) -> bool>(test: F) -> u64
    requires { (i : ℕ) → i < 64 → F.pre test i }
    ensures { (i : ℕ) → i < 64 → F.post test i (test_bit result i) }
{
    let mut word = 0;
    for i in 0..64 {
        word = assign_bit(word, i as u64, test(i));
    }
    word
}

// w with those of its bits that pass the test. Only the bits that are set are tested. (A loop: no iterator of the library
// goes over the bits that are set, and one over all 64 places would test more than that.)
pub fn keep<F: Fn(usize) -> bool>(w: u64, test: F) -> u64
    requires { (i : ℕ) → i < 64 → test_bit w i ≡ true → F.pre test i }
    ensures tested { (i : ℕ) → i < 64 → test_bit w i ≡ true → F.post test i (test_bit result i) }
    ensures untested { (i : ℕ) → test_bit w i ≡ false → test_bit result i ≡ false }
{
    let mut kept = w;
    let mut left = w;
    while left != 0 {
        let i = lowest_bit(left);
        kept = assign_bit(kept, i as u64, test(i));
        left = clear_bit(left, i as u64);
    }
    kept
}
