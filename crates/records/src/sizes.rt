// How many bytes a part and a type record take, where one can stand.
ghost use Rattle.std.specs.Prelude.{IfSome, ◌≡◌, ◌≤◌, ◌<◌, length};
ghost use Rattle.model.specs.Format.{many, read_part, read_kind, head_in_range};
ghost use Rattle.records.specs.Records.{taken};

use frame::fields;

// The part at the front of a piece of the type list that begins at the part: the number of its corners, then two bytes
// for each.
pub fn part_size(part: &[u8]) -> Option<usize>
    ensures value { result ≡ taken (read_part part.now) }
    ensures within { IfSome result (λ size. size ≤ length part.now) }
{
    let corners = usize::from(*part.first()?);
    let size = 1 + corners * 2;
    (fields::in_range(3, 8, corners) & (size <= part.len())).then_some(size)
}

// The n parts at the front.
fn parts_size(parts: &[u8], n: usize) -> Option<usize>
    requires { n < 256 }
    ensures value { result ≡ taken (many read_part n parts.now) }
    ensures within { IfSome result (λ size. size ≤ length parts.now) }
{
    let mut at = 0;
    for _ in 0..n {
        at += part_size(&parts[at..])?;
    }
    Some(at)
}

// The four fields in front of a type's parts are there and in range.
fn head_in_range(kind: &[u8]) -> bool
    ensures { result ≡ head_in_range kind.now }
{
    if kind.len() < 4 {
        return false;
    }
    fields::in_range(1, 12, fields::byte(kind, 0))
        & fields::in_range(1, 15, fields::byte(kind, 1))
        & fields::in_range(1, 6, fields::byte(kind, 3))
}

// The type record at the front.
pub fn kind_size(kind: &[u8]) -> Option<usize>
    ensures value { result ≡ taken (read_kind kind.now) }
    ensures within { IfSome result (λ size. size ≤ length kind.now) }
{
    if !head_in_range(kind) {
        return None;
    }
    let parts = parts_size(&kind[4..], fields::byte(kind, 3))?;
    Some(4 + parts)
}
