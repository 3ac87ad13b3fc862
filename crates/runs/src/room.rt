// Whether the buffers of a run are large enough. An incomplete last word or number does not count.
ghost use Rattle.std.specs.Prelude.{◌≡◌, ◌<◌, ◌/◌, ltb};

// Whether so many bytes are too few things of this size: words of 8 bytes, or numbers of 2.
pub fn lacks<const SIZE: usize>(bytes: usize, needed: usize) -> bool
    requires { 0 < SIZE }
    ensures { result ≡ ltb (bytes / SIZE) needed }
{
    bytes / SIZE < needed
}
