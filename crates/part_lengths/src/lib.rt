// How many bytes a part of a file has: the last one is cut.
// Assumes nothing.

#![tactic(auto)]

ghost use Rattle.std.specs.Prelude.{◌≡◌, ◌-◌};

// The lesser of two numbers.
pub fn least(a: usize, b: usize) -> usize
    ensures { result ≡ a - (a - b) }
{
    if a < b { a } else { b }
}
