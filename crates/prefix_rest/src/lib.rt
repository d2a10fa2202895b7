//! Request A.14: how far the lines behind that of length go along with those of an accepted text: points= or not, and data=.

#![tactic(auto)]

ghost use Rattle.std.specs.Prelude.{◌≡◌, true, ◌+◌, ◌*◌, ◌≤◌, drop};
ghost use Rattle.sizes.specs.Sizing.{legal, B};
ghost use Rattle.prefix_spec.specs.Prefix.{points_on};
ghost use Rattle.prefix_rest.specs.Steps.{data_line, points_line};

use sizes::Sizes;

// How far data= goes: so many pairs, and nothing behind them.
fn data_line(text: &[u8], at: usize, count: usize) -> usize
    ensures { result ≡ at + data_line count (drop at text.now) }
{
    let name = prefix_steps::name_on(text, at, b"data=");
    if !name.ok {
        return name.at;
    }
    let data = prefix_pairs::data_on(text, name.at, count);
    data.at
}

// How far the line of points and data= go.
fn points_line(text: &[u8], at: usize, n: usize, count: usize) -> usize
    requires { n ≤ 32 }
    ensures { result ≡ at + points_line n count (drop at text.now) }
{
    let name = prefix_steps::name_on(text, at, b"points=");
    if !name.ok {
        return name.at;
    }
    let points = prefix_pairs::points_on(text, name.at, n);
    if !points.ok {
        return points.at;
    }
    data_line(text, points.at, count)
}

// From behind the line of length on.
pub fn rest_on(text: &[u8], at: usize, sizes: Sizes, length: usize) -> usize
    requires { (legal sizes ≡ true) × (length ≤ 4096 * B sizes) }
    ensures { result ≡ at + points_on sizes length (drop at text.now) }
{
    let count = board_lines::stripe_count(sizes, length) * sizes.share_len();
    if text.len() <= at {
        return data_line(text, at, count);
    }
    if text[at] == 112 {
        return points_line(text, at, sizes.n, count);
    }
    data_line(text, at, count)
}
