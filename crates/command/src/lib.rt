// What the command program does between reading a job and writing its text.
#![tactic(auto)]

ghost use Rattle.std.specs.Prelude.{[], ◌++◌, ◌≡◌, ◌≤◌, length, drop};
ghost use Rattle.model.specs.Format.{content};
ghost use Rattle.model.specs.Output;
ghost use Rattle.model.specs.Output.{printed};
ghost use Rattle.model.specs.Problem.{under};
ghost use Rattle.model.specs.Services;
ghost use Rattle.command.specs.Shown.{Shown};

// The number of pieces of an accepted job; of a refused one none are shown.
fn pieces_shown(bytes: &[u8]) -> usize
    ensures { Shown bytes.now result }
{
    job::open(bytes).map_or(0, |view| view.pieces)
}

// (Seven parameters: what `run` of the C interface takes, and the text.)
// Runs a job under a margin and a budget, from the layout in a buffer or from none, and puts the text of its answer at the front of `text`; says how long the
// text is. Work words and answer numbers are enough for every job, so at the program's margin and budget, and from no layout, it is the program's text, whatever
// they hold.
pub fn respond(
    bytes: &[u8],
    margin: usize,
    budget: u32,
    layout: &[u8],
    work: &mut [u8],
    answer: &mut [u8],
    text: &mut [u8],
) -> usize
    requires { (49152 ≤ length work.old) × (96 ≤ length answer.old) × (512 ≤ length text.old) }
    ensures value { result ≡ length (printed (under margin (content bytes.now)) (Services.run bytes.now margin budget layout.now work.old answer.old)) }
    ensures text_after { text.new ≡ printed (under margin (content bytes.now)) (Services.run bytes.now margin budget layout.now work.old answer.old) ++ drop result text.old }
    ensures upper_bound { result ≤ 512 }
    ensures as_program { margin ≡ 0 → budget ≡ 1000000 → layout.now ≡ [] → printed (under margin (content bytes.now)) (Services.run bytes.now margin budget layout.now work.old answer.old) ≡ Output.program bytes.now }
    ensures work_after { work.new ≡ (Services.run bytes.now margin budget layout.now work.old answer.old).work }
    ensures answer_after { answer.new ≡ (Services.run bytes.now margin budget layout.now work.old answer.old).out }
{
    let pieces = pieces_shown(bytes);
    let a = search::run::run(bytes, margin, budget, layout, work, answer);
    report::render(a, answer, pieces, text)
}

// What the command program makes of the bytes that it read: "gives run a budget of 1,000,000 and prints", "m = 0", and no layout.
pub fn program(bytes: &[u8], text: &mut [u8]) -> usize
    requires { 512 ≤ length text.old }
    ensures value { result ≡ length (Output.program bytes.now) }
    ensures text_after { text.new ≡ Output.program bytes.now ++ drop result text.old }
    ensures upper_bound { result ≤ 512 }
{
    let mut work = [0u8; 49152];
    let mut answer = [0u8; 96];
    respond(bytes, 0, 1000000, &[], &mut work, &mut answer, text)
}
