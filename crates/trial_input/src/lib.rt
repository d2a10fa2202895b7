//! Request A.2: what the trial program reads. The eight lines of numbers, just these, or nothing is taken.

#![tactic(auto)]

ghost use Rattle.std.specs.Prelude.{◌≡◌};
ghost use Rattle.trial_spec.specs.Trial.{loaded};
ghost use Rattle.trial_input.specs.Steps.{line_of, sizes_at, numbers_at, loaded_in};

use sizes::Sizes;
use trial_limits::Numbers;

// The number of a line, and the place behind it.
#[derive(Clone, Copy)]
struct Line {
    value: usize,
    next: usize,
}

// The sizes, and the place behind their lines.
#[derive(Clone, Copy)]
struct Four {
    sizes: Sizes,
    next: usize,
}

// The numbers, and the place behind their lines.
#[derive(Clone, Copy)]
struct Eight {
    numbers: Numbers,
    next: usize,
}

// A load: the sizes, the capacity in stripes, the seed, the length of a file, how many calls.
#[derive(Clone, Copy)]
pub struct Load {
    pub sizes: Sizes,
    pub capacity: usize,
    pub seed: u32,
    pub length: usize,
    pub calls: u32,
}

// The line of a number at a place, where it stands there.
fn line_of(text: &[u8], at: usize, name: &[u8]) -> Option<Line>
    ensures { result ≡ line_of text.now at name.now }
{
    let told = line_places::line_at(text, at, name);
    if told.ok {
        Some(Line {
            value: told.value,
            next: told.next,
        })
    } else {
        None
    }
}

// The lines of the sizes.
fn sizes_at(text: &[u8]) -> Option<Four>
    ensures { result ≡ sizes_at text.now }
{
    let n = line_of(text, 0, b"n=")?;
    let k = line_of(text, n.next, b"k=")?;
    let d = line_of(text, k.next, b"d=")?;
    let r = line_of(text, d.next, b"r=")?;
    Some(Four {
        sizes: Sizes {
            n: n.value,
            k: k.value,
            d: d.value,
            r: r.value,
        },
        next: r.next,
    })
}

// The eight lines.
fn numbers_at(text: &[u8]) -> Option<Eight>
    ensures { result ≡ numbers_at text.now }
{
    let four = sizes_at(text)?;
    let capacity = line_of(text, four.next, b"C=")?;
    let seed = line_of(text, capacity.next, b"seed=")?;
    let length = line_of(text, seed.next, b"length=")?;
    let calls = line_of(text, length.next, b"calls=")?;
    let sizes = four.sizes;
    Some(Eight {
        numbers: Numbers {
            sizes: sizes,
            capacity: capacity.value,
            seed: seed.value,
            length: length.value,
            calls: calls.value,
        },
        next: calls.next,
    })
}

// The load that an input gives.
pub fn read_load(input: &[u8]) -> Option<Load>
    ensures { loaded_in result ≡ loaded input.now }
{
    let eight = numbers_at(input)?;
    if eight.next < input.len() {
        return None;
    }
    let numbers = eight.numbers;
    if !trial_limits::within(numbers) {
        return None;
    }
    let sizes = numbers.sizes;
    Some(Load {
        sizes: sizes,
        capacity: numbers.capacity,
        seed: numbers.seed as u32,
        length: numbers.length,
        calls: numbers.calls as u32,
    })
}
