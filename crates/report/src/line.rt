// The lines of the text.
ghost use Rattle.std.specs.Prelude.{[], ◌≡◌, ◌++◌, ◌+◌, ◌*◌, ◌≤◌, length};
ghost use Rattle.arrayvec.specs.ArrayVec.{array_vec_len};
ghost use Rattle.model.specs.Output;
ghost use Rattle.model.specs.Services.{entry_in};
ghost use Rattle.report.specs.Text.{first_by};

use crate::text::{Text, append, number};
use answers::Numbered;
use model::Outcome;
use words::numbers::get_u16;

// The first line: `shortest`, `stopped`, `none` or `refused`, the length or `-`, and the steps or the refusal's number.
pub fn first<E: Numbered>(text: &mut Text, answer: Result<Outcome, E>)
    requires { text.old.items ≡ [] }
    ensures items { text.new.items ≡ first_by E.code answer }
    ensures short { array_vec_len text.new ≤ 26 }
{
    let last = match answer {
        Err(refusal) => {
            append(text, b"refused ");
            u32::from(refusal.code())
        }
        Ok(Outcome::Shortest { length, steps }) => {
            append(text, b"shortest ");
            number(text, u32::from(length), b' ');
            steps
        }
        Ok(Outcome::Stopped { held, steps }) => {
            append(text, b"stopped ");
            match held {
                Some(length) => number(text, u32::from(length), b' '),
                None => append(text, b"- "),
            }
            steps
        }
        Ok(Outcome::Infeasible { steps }) => {
            append(text, b"none ");
            steps
        }
    };
    number(text, last, b'\n');
}

// The line of entry i of a layout's numbers: type, column, row, turn.
pub fn entry(text: &mut Text, numbers: &[u8], i: usize)
    requires in_bounds { i * 8 + 8 ≤ length numbers.now }
    requires room { array_vec_len text.old + 24 ≤ 512 }
    ensures items { text.new.items ≡ text.old.items ++ Output.entry_line (entry_in numbers.now i) }
    ensures short { array_vec_len text.new ≤ array_vec_len text.old + 24 }
{
    let at = i * 8;
    number(text, u32::from(get_u16(numbers, at)), b' ');
    number(text, u32::from(get_u16(numbers, at + 2)), b' ');
    number(text, u32::from(get_u16(numbers, at + 4)), b' ');
    number(text, u32::from(get_u16(numbers, at + 6)), b'\n');
}
