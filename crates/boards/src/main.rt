// Every small board of document 01, marked and unmarked, and those of document 02's requests, put through the compiled services. The boards, and what is
// asked of each, are this program's input, `stdin`; a line or more for each answer is held to `stdout`.
#![tactic(auto)]

ghost use Rattle.std.specs.Prelude.{IfOk, ◌≤◌, length};

use std::io;
use std::io::Read;

mod input;
mod show;

// What is asked of a job under a margin, or of an outline.
#[derive(Clone, Copy)]
enum Question {
    Read,
    Write,
    Split,
    Row,
    Check,
    // Run from the layout that is given behind the budget.
    RunGiven,
    Run,
}

impl Question {
    // The question of a word, which its second letter tells: read, write, split, row, check, given, run.
    fn told_by(letter: u8) -> Option<Question> {
        Some(match letter {
            b'e' => Question::Read,
            b'r' => Question::Write,
            b'p' => Question::Split,
            b'o' => Question::Row,
            b'h' => Question::Check,
            b'i' => Question::RunGiven,
            b'u' => Question::Run,
            _ => return None,
        })
    }
}

// The bytes that save or cut is lent: as many as are given, or else enough for every job and outline.
fn room(given: Option<u8>) -> usize
    ensures { result ≤ 1024 }
{
    given.map_or(1024, usize::from)
}

// The answer to a question about a job, or about an outline. A run with no budget has the command program's.
fn ask(
    rt: &impl Print,
    question: Question,
    margin: usize,
    job: &[u8],
    numbers: &[u8],
) -> io::Result<()> {
    let given = numbers.first().copied();
    match question {
        Question::Read => show::read(rt, job),
        Question::Write => show::save(rt, job, room(given)),
        Question::Split => show::cut(rt, job, room(given)),
        Question::Row => show::row(rt, job, margin, given.unwrap_or(0)),
        Question::Check => show::check(rt, job, margin, numbers),
        Question::RunGiven => {
            let layout = numbers.get(1..).unwrap_or(&[]);
            show::run(rt, job, margin, u32::from(given.unwrap_or(0)), layout)
        }
        Question::Run => show::run(rt, job, margin, given.map_or(1000000, u32::from), &[]),
    }
}

// The answer to the question with which `asked` begins, behind the name of its board. The name is in the first line
// of the board, and the bytes of the job in the one below it.
fn answer(
    rt: &impl Print,
    question: Question,
    margin: usize,
    board: &[u8],
    asked: &[u8],
) -> io::Result<()> {
    let (line, behind) = input::split_line(board);
    if let Some(name) = line.get(5..) {
        rt.write_all(name)?;
        let job = input::numbers_at(behind, 6);
        let numbers = input::numbers_at(asked, 5);
        ask(rt, question, margin, &job, &numbers)?;
    }
    Ok(())
}

// Each line is the name of a board, the bytes of its job, the margin by which it is clamped from here on, a question, or a
// remark. A new board is not clamped. (No iterator: a question reads on from its own line, and a board from its name's.)
fn answer_all(rt: &impl Print, text: &[u8]) -> io::Result<()> {
    let mut board = text;
    let mut margin = 0;
    let mut rest = text;
    while let Some(letter) = rest.get(1) {
        match *letter {
            b'a' => {
                board = rest;
                margin = 0;
            }
            b'l' => margin = input::numbers_at(rest, 5)
                .first()
                .map_or(0, |n| usize::from(*n)),
            letter => {
                if let Some(question) = Question::told_by(letter) {
                    answer(rt, question, margin, board, rest)?;
                }
            }
        }
        rest = input::split_line(rest).1.get(1..).unwrap_or(&[]);
    }
    Ok(())
}

// Reads until the buffer is full or the input ends, and tells how many bytes it read. (A loop, as the command
// program's: no method of the library reads so without a heap.)
fn read_full<R: Read>(from: &mut R, buffer: &mut [u8]) -> io::Result<usize>
    ensures { IfOk result (λ n. n ≤ length buffer.new) }
{
    let mut len = 0;
    while len < buffer.len() {
        let n = from.read(&mut buffer[len..])?;
        if n == 0 {
            return Ok(len);
        }
        len += n;
    }
    Ok(len)
}

fn main(rt: HostRuntime) -> io::Result<()> {
    let mut input = [0u8; 32768];
    read_full(&mut rt.stdin(), &mut input)?;
    answer_all(&rt, &input)
}
