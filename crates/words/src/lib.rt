// Numbers of two and of eight bytes in byte slices, low byte first; bits of a word; sets of numbers kept in words; strings of bits.
#![tactic(auto)]

pub mod bits;
pub mod numbers;
pub mod sets;
pub mod strings;
