// Sets of numbers kept in words of 64 bits within a byte slice: n is bit n mod 64 of word n div 64.
ghost use Rattle.std.specs.Prelude.{◌≡◌, ◌+◌, ◌*◌, ◌≤◌, leb, length};
ghost use Rattle.words.specs.Bits.{assigned_bit};
ghost use Rattle.words.specs.Sets.{word_offset, member, changed, count_members, cleared_words, next_member};

use crate::{bits, numbers};

// n is a member.
pub fn contains(s: &[u8], n: usize) -> bool
    requires { word_offset n + 8 ≤ length s.now }
    ensures { result ≡ member s.now n }
{
    bits::test_bit(numbers::get_u64(s, n / 64 * 8), n as u64)
}

// n becomes a member, or ceases to be one.
pub fn assign(s: &mut [u8], n: usize, on: bool)
    requires { word_offset n + 8 ≤ length s.old }
    ensures { s.new ≡ changed (assigned_bit on) s.old n }
{
    let at = n / 64 * 8;
    let w = numbers::get_u64(s, at);
    numbers::put_u64(s, at, bits::assign_bit(w, n as u64, on));
}

// Whether the first words have at least so many members. Words without a member are passed over, and those behind enough of them are not looked at. (words is a
// u32, so that the count fits; likewise below.)
pub fn has_members(s: &[u8], words: u32, wanted: u64) -> bool
    requires { words * 8 ≤ length s.now }
    ensures { result ≡ leb wanted (count_members (words * 64) s.now) }
{
    let mut count = 0;
    for k in 0..words {
        let w = numbers::get_u64(s, k as usize * 8);
        if w != 0 {
            count += bits::count_bits(w);
            if wanted <= count {
                return true;
            }
        }
    }
    wanted <= count
}

// The first words become zero.
pub fn clear(s: &mut [u8], words: usize)
    requires { words * 8 ≤ length s.old }
    ensures { s.new ≡ cleared_words words s.old }
{
    s[..words * 8].fill(0);
}

// The first member at or above a number within the first words, or the number behind them where there is none.
pub fn next_member(s: &[u8], words: u32, from: usize) -> usize
    requires { words * 8 ≤ length s.now }
    ensures { result ≡ next_member (words * 64) s.now from }
{
    let words = words as usize;
    for k in from / 64..words {
        let at = from.max(k * 64);
        let rest = numbers::get_u64(s, k * 8) >> (at % 64);
        if rest != 0 {
            return at + bits::lowest_bit(rest);
        }
    }
    from.max(words * 64)
}
