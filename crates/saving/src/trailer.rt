// The trailer of a job whose sections follow each other: the board at 0, the class list at 6, the type list behind it.
ghost use Rattle.std.specs.Prelude.{[], ◌∷◌, ◌++◌, ◌≡◌, ◌+◌, ◌*◌, ◌≤◌, ◌<◌, length};
ghost use Rattle.std.proofs.lemmas.List.Edits.{sets};
ghost use Rattle.words.specs.Number.{bytes};
ghost use Rattle.model.specs.Saving.{trailer_bytes};

use crate::bytes;

// The first eight bytes: where the board, the class list and the type list begin, and how long the last is.
fn put_offsets(answer: &mut [u8], at: usize, kinds: usize, size: usize)
    requires { (at + 8 ≤ length answer.old) × (kinds < 65536) × (size < 65536) }
    ensures { answer.new ≡ sets answer.old at (bytes 2 0 ++ bytes 2 6 ++ bytes 2 kinds ++ bytes 2 size) }
{
    bytes::put_word(answer, at, 0);
    bytes::put_word(answer, at + 2, 6);
    bytes::put_word(answer, at + 4, kinds);
    bytes::put_word(answer, at + 6, size);
}

// The six behind them: how many classes and types there are, how long the whole job is, and the mark.
fn put_counts(answer: &mut [u8], at: usize, classes: usize, kinds: usize, whole: usize)
    requires { (at + 6 ≤ length answer.old) × (classes < 256) × (kinds < 256) × (whole < 65536) }
    ensures { answer.new ≡ sets answer.old at ((classes ∷ kinds ∷ []) ++ bytes 2 whole ++ (0x44 ∷ 0x42 ∷ [])) }
{
    bytes::put_byte(answer, at, classes);
    bytes::put_byte(answer, at + 1, kinds);
    bytes::put_word(answer, at + 2, whole);
    bytes::put_byte(answer, at + 4, 0x44);
    bytes::put_byte(answer, at + 5, 0x42);
}

// The trailer for so many classes and types, with a type list of `size` bytes. It stands behind that list.
pub fn put_trailer(classes: usize, kinds: usize, size: usize, answer: &mut [u8])
    requires { ((classes < 256) × (kinds < 256) × (6 + classes * 3 + size + 14 < 65536)) × (6 + classes * 3 + size + 14 ≤ length answer.old) }
    ensures { answer.new ≡ sets answer.old (6 + classes * 3 + size) (trailer_bytes classes kinds size) }
{
    let kinds_at = 6 + classes * 3;
    let at = kinds_at + size;
    put_offsets(answer, at, kinds_at, size);
    put_counts(answer, at + 8, classes, kinds, at + 14);
}
