// The command program: it reads a job from standard input, and writes the text that `command::program` makes of it.
#![tactic(auto)]

ghost use Rattle.model.specs.Output;
ghost use Rattle.std.specs.Io.KnownBytes.{Appends};
ghost use Rattle.std.specs.Prelude.{IfOk, IfSome, OnOk, length, take, ◌≡◌, ◌≤◌};

use std::io;
use std::io::{Read, Write};

// Reads until the buffer is full or the input ends, and tells how many bytes it read. (A loop: no method of the library
// reads so without a heap, as the project has it.)
fn read_full<R: Read>(from: &mut R, buffer: &mut [u8]) -> io::Result<usize>
    ensures within { IfOk result (λ n. n ≤ length buffer.new) }
    ensures bytes { IfOk result (λ n. IfSome (R.remaining from.old)
        (λ given. take n buffer.new ≡ take (length buffer.old) given)) }
{
    let mut len = 0;
    while len < buffer.len() {
        let n = from.read(&mut buffer[len..])?;
        if n == 0 {
            return Ok(len);
        }
        len += n;
    }
    Ok(len)
}

// Reads a job, and writes the text of its answer.
fn answer<R: Read + Drop, W: Write>(mut from: R, to: &mut W) -> io::Result<()>
    ensures { OnOk result (IfSome (R.remaining from)
        (λ given. Appends (W.contents to.old) (W.contents to.new) (Output.program (take 1025 given)))) }
{
    // One byte more than a job may have: a longer input is refused by 1 as it should.
    let mut input = [0u8; 1025];
    let n = read_full(&mut from, &mut input)?;
    let mut text = [0u8; 512];
    let len = command::program(&input[0..n], &mut text);
    to.write_all(&text[0..len])
}

fn main(rt: HostRuntime) -> io::Result<()> {
    answer(rt.stdin(), &mut rt.stdout())
}
