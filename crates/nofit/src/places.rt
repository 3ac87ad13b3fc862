// Where the strings of the no-fit patterns stand in their table.
ghost use Rattle.std.specs.Prelude.{◌&&◌, ◌≡◌, ◌+◌, ◌*◌, ◌≤◌, ◌<◌, ltb};
ghost use Rattle.nofit.specs.Patterns.{above_string, below_string, string_start};
ghost use Rattle.nofit.specs.Places.{Sought};

// The table begins with the parities of the columns, in `first` words. Behind them stand strings of `size` words each,
// `held` of them: those of so many kinds on a board of so many rows. Pieces that stand `reach` columns apart, or
// further, are never in conflict.
#[derive(Clone, Copy)]
pub struct Nofit {
    pub kinds: usize,
    pub rows: usize,
    pub reach: usize,
    pub first: usize,
    pub size: usize,
    pub held: usize,
}

// The number of a string, by its line and its place in the table of pairs and the rotation.
fn string_at(nofit: Nofit, line: usize, place: usize, turn: usize) -> usize
    requires { (nofit.kinds ≤ 8) × ((line < nofit.kinds) × ((place ≤ nofit.kinds) × (turn < 4))) }
    ensures { (result ≡ (line * (nofit.kinds + 1) + place) * 4 + turn) × (result ≤ 400) }
{
    (line * (nofit.kinds + 1) + place) * 4 + turn
}

// The number of the string of kind t, turned q quarter turns, and kind u for the rows at or above the placed one's.
fn above_string(nofit: Nofit, t: usize, q: usize, u: usize) -> usize
    requires { Sought nofit t q u }
    ensures { (result ≡ above_string nofit t q u) × (result ≤ 400) }
{
    string_at(nofit, t, u + 1, q)
}

// The number of that for the rows under it.
fn below_string(nofit: Nofit, t: usize, q: usize, u: usize) -> usize
    requires { Sought nofit t q u }
    ensures { (result ≡ below_string nofit t q u) × (result ≤ 400) }
{
    string_at(nofit, u, t, q)
}

// Both strings are held.
pub fn holds(nofit: Nofit, t: usize, q: usize, u: usize) -> bool
    requires { Sought nofit t q u }
    ensures { result ≡ (ltb (above_string nofit t q u) nofit.held && ltb (below_string nofit t q u) nofit.held) }
{
    (above_string(nofit, t, q, u) < nofit.held) & (below_string(nofit, t, q, u) < nofit.held)
}

// The bit at which string i begins.
fn string_start(nofit: Nofit, i: usize) -> usize
    requires { (i ≤ 400) × ((nofit.first ≤ 200) × (nofit.size ≤ 200)) }
    ensures { (result ≡ string_start nofit i) × (result ≤ 6000000) }
{
    (nofit.first + i * nofit.size) * 64
}

// The bit at which the string for the rows at or above the placed one's begins.
pub fn above_start(nofit: Nofit, t: usize, q: usize, u: usize) -> usize
    requires { Sought nofit t q u }
    ensures { (result ≡ string_start nofit (above_string nofit t q u)) × (result ≤ 6000000) }
{
    string_start(nofit, above_string(nofit, t, q, u))
}

// The bit at which that for the rows under it begins.
pub fn below_start(nofit: Nofit, t: usize, q: usize, u: usize) -> usize
    requires { Sought nofit t q u }
    ensures { (result ≡ string_start nofit (below_string nofit t q u)) × (result ≤ 6000000) }
{
    string_start(nofit, below_string(nofit, t, q, u))
}
