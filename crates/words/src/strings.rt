// Strings of bits in words of 64 bits within a byte slice: 64 bits of a string from any bit on.
ghost use Rattle.std.specs.Prelude.{◌≡◌, ◌+◌, ◌*◌, ◌/◌, ◌≤◌, length};
ghost use Rattle.words.specs.Bits.{bits_where};
ghost use Rattle.words.specs.Sets.{member};

use crate::numbers;

// The 64 bits from bit `at` on: those of its word that are left, and behind them the first of the next word. (The latter are shifted in two steps, because
// a shift by all 64 places is none.)
pub fn bits_at(s: &[u8], at: usize) -> u64
    requires { (at / 64 + 2) * 8 ≤ length s.now }
    ensures { result ≡ bits_where 64 (λ i. member s.now (at + i)) }
{
    let place = at % 64;
    let low = numbers::get_u64(s, at / 64 * 8);
    let high = numbers::get_u64(s, at / 64 * 8 + 8);
    (low >> place) | ((high << 1) << (63 - place))
}
