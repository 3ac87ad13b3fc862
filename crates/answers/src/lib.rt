// The paper's number and values of each answer, and an answer as one number.
#![tactic(auto)]

ghost use Rattle.std.specs.Prelude.{◌≡◌, ℕ};
ghost use Rattle.model.specs.Answers.{
  run_number,
  run_verdict,
  run_length,
  run_steps,
  written_number,
  written_count,
  fields,
  written_word,
  run_word,
};
ghost use Rattle.model.specs.Refusal.{number};
ghost use Rattle.answers.specs.Refused.{unless_refused};

use model::{Outcome, Refusal};

// What a call is refused by has a number of eight bits. A `Refusal` has one of 13; the number alone may be any.
pub trait Numbered: Copy {
    ghost code: { Self → ℕ };

    fn code(self) -> u8
        ensures { result ≡ code self };
}

impl Numbered for Refusal {
    ghost code = { number };

    fn code(self) -> u8 {
        self.number()
    }
}

impl Numbered for u8 {
    ghost code = { λ n. n };

    fn code(self) -> Self {
        self
    }
}

// The number of the refusal, and 0 where there is none.
pub fn written_number<E: Numbered>(a: Result<u16, E>) -> u8
    ensures { result ≡ unless_refused written_number E.code a }
{
    a.err().map_or(0, |e| e.code())
}

// How many numbers, bytes, words or triangles were written, or the length of the layout that passes.
pub fn written_count<E: Numbered>(a: Result<u16, E>) -> u16
    ensures { result ≡ unless_refused written_count (λ e. 0) a }
{
    a.unwrap_or(0)
}

// The number of the refusal, 10 for none, and 0 otherwise.
pub fn run_number<E: Numbered>(a: Result<Outcome, E>) -> u8
    ensures { result ≡ unless_refused run_number E.code a }
{
    match a {
        Err(refusal) => refusal.code(),
        Ok(Outcome::Infeasible { .. }) => 10,
        Ok(_) => 0,
    }
}

// The length of the layout that is held, and 0 where none is.
pub fn run_length<E: Numbered>(a: Result<Outcome, E>) -> u16
    ensures { result ≡ unless_refused run_length (λ e. 0) a }
{
    match a {
        Ok(Outcome::Shortest { length, .. }) => length,
        Ok(Outcome::Stopped { held, .. }) => held.unwrap_or(0),
        _ => 0,
    }
}

// The steps taken, and 0 for a refusal.
pub fn run_steps<E: Numbered>(a: Result<Outcome, E>) -> u32
    ensures { result ≡ unless_refused run_steps (λ e. 0) a }
{
    match a {
        Ok(
            Outcome::Shortest { steps, .. }
            | Outcome::Stopped { steps, .. }
            | Outcome::Infeasible { steps },
        ) => steps,
        Err(_) => 0,
    }
}

// How the run ended: 0 finished or refused, 1 stopped with a layout, 2 stopped with nothing.
pub fn run_verdict<E: Numbered>(a: Result<Outcome, E>) -> u8
    ensures { result ≡ unless_refused run_verdict (λ e. 0) a }
{
    match a {
        Ok(Outcome::Stopped { held: Some(_), .. }) => 1,
        Ok(Outcome::Stopped { held: None, .. }) => 2,
        _ => 0,
    }
}

// The four fields of an answer in one number.
fn pack(number: u8, verdict: u8, length: u16, steps: u32) -> u64
    ensures { result ≡ fields number verdict length steps }
{
    u64::from(number)
        + 256 * u64::from(verdict)
        + 65536 * u64::from(length)
        + 4294967296 * u64::from(steps)
}

// An answer of read, save, row, cut or check as one number.
pub fn written_word<E: Numbered>(a: Result<u16, E>) -> u64
    ensures { result ≡ unless_refused written_word (λ e. fields (E.code e) 0 0 0) a }
{
    pack(written_number(a), 0, written_count(a), 0)
}

// An answer of run as one number.
pub fn run_word<E: Numbered>(a: Result<Outcome, E>) -> u64
    ensures { result ≡ unless_refused run_word (λ e. fields (E.code e) 0 0 0) a }
{
    pack(run_number(a), run_verdict(a), run_length(a), run_steps(a))
}
