//! Request A.2: the generator of the trial load, and the file that it draws.

#![tactic(auto)]

ghost use Rattle.std.specs.Prelude.{◌≡◌, ◌*◌, ◌%◌, length};
ghost use Rattle.generator.specs.Generator.{step, top_byte, after, emitted};

// The product of two words, modulo 2 to the 32.
fn wrapping_product(a: u32, b: u32) -> u32
    ensures { result ≡ (a * b) % 4294967296 }
{
    let product = (a as u64) * (b as u64);
    (product % 4294967296) as u32
}

// The state after a step.
pub fn step(state: u32) -> u32
    ensures { result ≡ step state }
{
    std::num::wrapping_add_u32(wrapping_product(state, 1664525), 1013904223)
}

// The byte that a state emits.
pub fn top_byte(state: u32) -> u8
    ensures { result ≡ top_byte state }
{
    (state / 16777216) as u8
}

// Fills the output with the first bytes emitted from this state on, and gives the state after them.
pub fn fill(seed: u32, out: &mut [u8]) -> u32
    ensures { (out.new ≡ emitted (length out.old) seed) × (result ≡ after (length out.old) seed) }
{
    let mut state = seed;
    for i in 0..out.len() {
        let next = step(state);
        out[i] = top_byte(next);
        state = next;
    }
    state
}
