// What each service says of a job or an outline, behind the name of the board.
ghost use Rattle.std.specs.Prelude.{◌≤◌};

use std::io;

// What the command program would print of a run of the job, under a margin, from the layout in the buffer or from none.
pub fn run(
    rt: &impl Print,
    job: &[u8],
    margin: usize,
    budget: u32,
    layout: &[u8],
) -> io::Result<()> {
    if !layout.is_empty() {
        print!(rt; ", from a layout of bytes {}", layout.len())?;
    }
    print!(rt; ", budget {budget}: ")?;
    let mut work = [0u8; 49152];
    let mut answer = [0u8; 96];
    let mut text = [0u8; 512];
    let len = command::respond(
        job,
        margin,
        budget,
        layout,
        &mut work,
        &mut answer,
        &mut text,
    );
    rt.write_all(&text[..len])
}

// The length of the layout under a margin, or the refusal.
pub fn check(rt: &impl Print, job: &[u8], margin: usize, layout: &[u8]) -> io::Result<()> {
    match checking::check(job, margin, layout) {
        Ok(length) => println!(rt; ": check passes {length}"),
        Err(refusal) => println!(rt; ": check {refusal}"),
    }
}

// The first n of the numbers of two bytes, or all of them if there are fewer.
fn say_numbers(rt: &impl Print, bytes: &[u8], n: usize) -> io::Result<()> {
    for number in bytes.as_chunks::<2>().0.iter().take(n) {
        print!(rt; " {}", u16::from_le_bytes(*number))?;
    }
    println!(rt; "")
}

// The numbers that read gives, a negative one as 65,536 plus it, or the refusal.
pub fn read(rt: &impl Print, job: &[u8]) -> io::Result<()> {
    let mut numbers = [0u8; 2048];
    match reading::read(job, &mut numbers) {
        Ok(n) => {
            print!(rt; ": read")?;
            say_numbers(rt, &numbers, usize::from(n))
        }
        Err(refusal) => println!(rt; ": read {refusal}"),
    }
}

// The hexadecimal digits.
const DIGITS: [u8; 16] = *b"0123456789ABCDEF";

// How many bytes save writes, those bytes and the two behind them, or the refusal, where so many bytes are lent, each
// of them 7. (A byte's digits by hand: with many questions a format for each byte took a quarter more of the run.)
pub fn save(rt: &impl Print, job: &[u8], room: usize) -> io::Result<()>
    requires { room ≤ 1024 }
{
    let mut lent = [7u8; 1024];
    let bytes = &mut lent[..room];
    match saving::save(job, bytes) {
        Ok(n) => {
            print!(rt; ": saved {n}:")?;
            for byte in bytes.iter().take(usize::from(n) + 2) {
                rt.write_all(&[
                    b' ',
                    DIGITS[usize::from(*byte / 16)],
                    DIGITS[usize::from(*byte % 16)],
                ])?;
            }
            println!(rt; "")
        }
        Err(refusal) => println!(rt; ": save {refusal}"),
    }
}

// Whether type 0's candidate 0 is in conflict with type 0's candidate of this number, by the byte of the row that has
// its bit, or the refusal.
pub fn row(rt: &impl Print, job: &[u8], margin: usize, number: u8) -> io::Result<()> {
    let mut row = [0u8; 512];
    match rows::row(job, margin, 0, 0, 0, &mut row) {
        Ok(_) => {
            print!(rt; ": row, candidates 0 and {number}: ")?;
            if row[usize::from(number / 8)] >> (number % 8) & 1 == 1 {
                println!(rt; "conflict")
            } else {
                println!(rt; "no conflict")
            }
        }
        Err(refusal) => println!(rt; ": row {refusal}"),
    }
}

// How many triangles an outline is cut into, their numbers and the one behind them, or the refusal, where so many
// bytes are lent, each of them 7.
pub fn cut(rt: &impl Print, outline: &[u8], room: usize) -> io::Result<()>
    requires { room ≤ 1024 }
{
    let mut lent = [7u8; 1024];
    let answer = &mut lent[..room];
    match cutting::cut(outline, answer) {
        Ok(n) => {
            print!(rt; ": triangles {n}:")?;
            say_numbers(rt, answer, usize::from(n) * 6 + 1)
        }
        Err(refusal) => println!(rt; ": cut {refusal}"),
    }
}
