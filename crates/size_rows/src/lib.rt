//! The lines of all legal combinations of sizes: one line, a run of lines, and the limit that is read.

#![tactic(auto)]

ghost use Rattle.std.specs.Prelude.{◌≡◌, true, ◌++◌, ◌+◌, ◌*◌, ◌≤◌, length, Some};
ghost use Rattle.sizes.specs.Sizing.{legal};
ghost use Rattle.board_spec.specs.Text.{decimal};
ghost use Rattle.text_lines.specs.Steps.{Wrote};
ghost use Rattle.size_list.specs.Combinations.{row, rows, limit};
ghost use Rattle.size_steps.specs.Steps.{met, after, LegalPlace};

use number_lines::Read;
use sizes::Sizes;

// A run of lines: how many bytes they have, and the place behind them.
#[derive(Clone, Copy)]
pub struct Run {
    pub count: usize,
    pub place: Option<Sizes>,
}

// The first combination.
pub fn first() -> Option<Sizes>
    ensures { result ≡ Some (record { n = 2; k = 1; d = 1; r = 1 }) }
{
    Some(Sizes {
        n: 2,
        k: 1,
        d: 1,
        r: 1,
    })
}

// A name and a number.
fn put_named(name: &[u8], x: usize, at: usize, out: &mut [u8]) -> usize
    requires { at + length (name.now ++ decimal x) ≤ length out.old }
    ensures { Wrote out.old at (name.now ++ decimal x) out.new result }
{
    let end = text_lines::put_bytes(name, at, out);
    text_lines::put_decimal(x, end, out)
}

// The line of a combination.
fn put_row(z: Sizes, at: usize, out: &mut [u8]) -> usize
    requires { (legal z ≡ true) × (at ≤ 163840) × (at + 40 ≤ length out.old) }
    ensures { Wrote out.old at (row z) out.new result }
{
    let k = put_named(b"n=", z.n, at, out);
    let d = put_named(b" k=", z.k, k, out);
    let r = put_named(b" d=", z.d, d, out);
    let share = put_named(b" r=", z.r, r, out);
    let stripe = put_named(b" share=", z.share_len(), share, out);
    let last = put_named(b" stripe=", z.stripe_len(), stripe, out);
    out[last] = b'\n';
    last + 1
}

// One step: the line of a place, from at on, and the place behind it.
fn step(most: usize, place: Option<Sizes>, at: usize, out: &mut [u8]) -> Run
    requires { LegalPlace place × (at ≤ 163840) × (at + 40 ≤ length out.old) }
    ensures wrote { Wrote out.old at (rows (met most 1 place)) out.new result.count }
    ensures place_value { result.place ≡ after most 1 place }
{
    match place {
        Some(z) => {
            let end = put_row(z, at, out);
            let behind = size_steps::next(z, most);
            Run {
                count: end,
                place: behind,
            }
        }
        None => Run {
            count: at,
            place: None,
        },
    }
}

// The lines of a walk of so many steps from a place, to the beginning of out.
pub fn fill(most: usize, place: Option<Sizes>, steps: usize, out: &mut [u8]) -> Run
    requires { (most ≤ 32) × LegalPlace place × (steps ≤ 4096) × (steps * 40 ≤ length out.old) }
    ensures wrote { Wrote out.old 0 (rows (met most steps place)) out.new result.count }
    ensures place_value { result.place ≡ after most steps place }
{
    let mut run = Run {
        count: 0,
        place: place,
    };
    for _ in 0..steps {
        let here = run.place;
        run = step(most, here, run.count, out);
    }
    run
}

// The limit that an input gives; 0 where it is refused.
pub fn limit(input: &[u8]) -> usize
    ensures { result ≡ limit input.now }
{
    let mut reader = number_lines::start();
    for (t, b) in input.iter().enumerate() {
        match number_lines::feed(reader, b"", 33, *b) {
            Read::More(next) => {
                reader = next;
            }
            Read::Whole(v) => {
                return size_steps::whole(v, input.len() - t - 1);
            }
            Read::Malformed => {
                return 0;
            }
        }
    }
    0
}
