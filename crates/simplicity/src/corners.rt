// The corners of an outline by their numbers.
ghost use Rattle.std.specs.Prelude.{◌≡◌, ◌<◌};
ghost use Rattle.simplicity.specs.Corners.{previous_of};

// The corner before corner i of n: the last one before the first.
pub fn previous(i: usize, n: usize) -> usize
    requires { i < n }
    ensures { (result ≡ previous_of n i) × (result < n) }
{
    if i == 0 { n - 1 } else { i - 1 }
}
