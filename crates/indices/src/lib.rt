// Indices: a byte as one, and the lesser of two.
#![tactic(auto)]

ghost use Rattle.std.specs.Prelude.{◌≡◌, ◌<◌, min};

// A byte as an index.
pub fn index(byte: u8) -> usize
    ensures { (result ≡ byte) × (result < 256) }
{
    usize::from(byte)
}

// The lesser of two indices, or of two numbers of elements.
pub fn lesser(one: usize, other: usize) -> usize
    ensures { result ≡ min one other }
{
    one.min(other)
}
