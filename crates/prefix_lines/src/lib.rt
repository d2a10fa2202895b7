//! Request A.14: how far lines of numbers go along with those of an accepted text.

#![tactic(auto)]

ghost use Rattle.std.specs.Prelude.{◌≡◌, true, ◌≤◌, drop};
ghost use Rattle.text_in.specs.Steps.{name_of};
ghost use Rattle.prefix_spec.specs.Prefix.{name_on, digits_on, number_on, line_on};
ghost use Rattle.prefix_steps.specs.Steps.{Goes};
ghost use Rattle.prefix_lines.specs.Steps.{digit_next};

use prefix_steps::Went;

// A byte of a number: one more digit, the line's end, or neither.
#[derive(Clone, Copy)]
pub enum Digit {
    More(usize),
    End,
    Stop,
}

// A byte behind digits of which the number is v so far.
fn next_digit(lo: usize, hi: usize, v: usize, b: u8) -> Digit
    requires { v ≤ 4063232 }
    ensures { result ≡ digit_next lo hi v b }
{
    if b == 10 {
        if lo <= v {
            return Digit::End;
        }
        return Digit::Stop;
    }
    if !number_lines::is_digit(b) {
        return Digit::Stop;
    }
    let next = 10 * v + (b - 48) as usize;
    if prefix_steps::opens(lo, hi, next) {
        return Digit::More(next);
    }
    Digit::Stop
}

// More digits of a number from lo to hi, and byte 0A.
fn digits_on(text: &[u8], at: usize, lo: usize, hi: usize, first: usize) -> Went
    requires { (first ≤ hi) × (hi ≤ 4063232) }
    ensures { Goes text.now at (digits_on lo hi first (drop at text.now)) result × (result.ok ≡ true → (lo ≤ result.value) × (result.value ≤ hi)) }
{
    let mut v = first;
    for i in at..text.len() {
        match next_digit(lo, hi, v, text[i]) {
            Digit::More(next) => {
                v = next;
            }
            Digit::End => {
                return Went {
                    ok: true,
                    value: v,
                    at: i + 1,
                };
            }
            Digit::Stop => {
                return prefix_steps::stopped(i);
            }
        }
    }
    prefix_steps::stopped(at.max(text.len()))
}

// A number from lo to hi, and byte 0A.
fn number_on(text: &[u8], at: usize, lo: usize, hi: usize) -> Went
    requires { hi ≤ 4063232 }
    ensures { Goes text.now at (number_on lo hi (drop at text.now)) result × (result.ok ≡ true → (lo ≤ result.value) × (result.value ≤ hi)) }
{
    if text.len() <= at {
        return prefix_steps::stopped(at);
    }
    let b = text[at];
    if b == 48 {
        if lo != 0 {
            return prefix_steps::stopped(at);
        }
        return prefix_steps::name_on(text, at + 1, b"\n");
    }
    if !number_lines::is_digit(b) {
        return prefix_steps::stopped(at);
    }
    let first = (b - 48) as usize;
    if !prefix_steps::opens(lo, hi, first) {
        return prefix_steps::stopped(at);
    }
    digits_on(text, at + 1, lo, hi, first)
}

// The bytes before a number: 0 for n, 1 for k, 2 for d, 3 for r, 4 for node, else length.
fn head_on(text: &[u8], at: usize, which: u8) -> Went
    ensures { Goes text.now at (λ go. name_on (name_of which) (drop at text.now) (go 0)) result }
{
    match which {
        0 => prefix_steps::name_on(text, at, b"n="),
        1 => prefix_steps::name_on(text, at, b"k="),
        2 => prefix_steps::name_on(text, at, b"d="),
        3 => prefix_steps::name_on(text, at, b"r="),
        4 => prefix_steps::name_on(text, at, b"node="),
        _ => prefix_steps::name_on(text, at, b"length="),
    }
}

// A line of a number from lo to hi.
pub fn line_on(text: &[u8], at: usize, which: u8, lo: usize, hi: usize) -> Went
    requires { hi ≤ 4063232 }
    ensures { Goes text.now at (line_on lo hi (name_of which) (drop at text.now)) result × (result.ok ≡ true → (lo ≤ result.value) × (result.value ≤ hi)) }
{
    let name = head_on(text, at, which);
    if !name.ok {
        return name;
    }
    number_on(text, name.at, lo, hi)
}
