// A text of at most 512 bytes that grows at its end.
ghost use Rattle.std.specs.Prelude.{◌≡◌, ◌++◌, ◌+◌, ◌≤◌, length};
ghost use Rattle.arrayvec.specs.ArrayVec.{array_vec_len};
ghost use Rattle.report.specs.Text.{number_then};

use arrayvec::ArrayVec;
use itoa::Buffer;

pub type Text = ArrayVec<u8, 512>;

// Puts bytes behind a text, which has room for them.
pub fn append(text: &mut Text, bytes: &[u8])
    requires { array_vec_len text.old + length bytes.now ≤ 512 }
    ensures { text.new.items ≡ text.old.items ++ bytes.now }
{
    let _ = text.try_extend_from_slice(bytes);
}

// Puts a number in base ten behind a text, and the byte that ends it.
pub fn number(text: &mut Text, n: u32, mark: u8)
    requires { array_vec_len text.old + length (number_then n mark) ≤ 512 }
    ensures items { text.new.items ≡ text.old.items ++ number_then n mark }
    ensures len { array_vec_len text.new ≡ array_vec_len text.old + length (number_then n mark) }
{
    append(text, Buffer::new().format(n).as_bytes());
    text.push(mark);
}
