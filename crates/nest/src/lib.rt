// The engine for programs in C: the six services on numbers and byte slices, each with its answer in one 64-bit number.
// include/nest.h declares them. A slice passes as a pointer and a length.
#![tactic(auto)]

ghost use Rattle.std.specs.Prelude.{◌≡◌};
ghost use Rattle.model.specs.Answers.{written_word, check_word, run_word};
ghost use Rattle.model.specs.Services;
ghost use Rattle.outlines.specs.Service as Outlines;

// "Read gives W, L, g, the classes by rising id, the types and N."
#[unsafe(no_mangle)]
pub extern "C" fn nest_read(job: &[u8], answer: &mut [u8]) -> u64
    ensures { (result ≡ written_word (Services.read job.now answer.old).answer) × (answer.new ≡ (Services.read job.now answer.old).buffer) }
{
    answers::written_word(reading::read(job, answer))
}

// "Writing .. tells how many it wrote": the bytes of the job, from the answer's first on.
#[unsafe(no_mangle)]
pub extern "C" fn nest_save(job: &[u8], answer: &mut [u8]) -> u64
    ensures { (result ≡ written_word (Services.save job.now answer.old).answer) × (answer.new ≡ (Services.save job.now answer.old).buffer) }
{
    answers::written_word(saving::save(job, answer))
}

// "Conflict row takes a candidate, given as its type and its number, and a second type."
#[unsafe(no_mangle)]
pub extern "C" fn nest_row(
    job: &[u8],
    margin: usize,
    kind: usize,
    number: usize,
    other: usize,
    row: &mut [u8],
) -> u64
    ensures { (result ≡ written_word (Services.conflict_row job.now margin kind number other row.old).answer) × (row.new ≡ (Services.conflict_row job.now margin kind number other row.old).buffer) }
{
    answers::written_word(rows::row(job, margin, kind, number, other, row))
}

// "Check gives a layout's length."
#[unsafe(no_mangle)]
pub extern "C" fn nest_check(job: &[u8], margin: usize, layout: &[u8]) -> u64
    ensures { result ≡ check_word (Services.check job.now margin layout.now) }
{
    answers::written_word(checking::check(job, margin, layout))
}

// The walk under a step budget, from the layout in the buffer, or from none if that has no bytes.
#[unsafe(no_mangle)]
pub extern "C" fn nest_run(
    job: &[u8],
    margin: usize,
    budget: u32,
    layout: &[u8],
    work: &mut [u8],
    answer: &mut [u8],
) -> u64
    ensures value { result ≡ run_word (Services.run job.now margin budget layout.now work.old answer.old).answer }
    ensures work_after { work.new ≡ (Services.run job.now margin budget layout.now work.old answer.old).work }
    ensures answer_after { answer.new ≡ (Services.run job.now margin budget layout.now work.old answer.old).out }
{
    answers::run_word(search::run::run(job, margin, budget, layout, work, answer))
}

// "A new service takes 3 to 8 corners anticlockwise, x and y as signed bytes, and gives at most 6 triangles in the order they are cut off, and their number ..".
#[unsafe(no_mangle)]
pub extern "C" fn nest_cut(outline: &[u8], answer: &mut [u8]) -> u64
    ensures { (result ≡ written_word (Outlines.cut outline.now answer.old).answer) × (answer.new ≡ (Outlines.cut outline.now answer.old).buffer) }
{
    answers::written_word(cutting::cut(outline, answer))
}
