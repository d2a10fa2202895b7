//! Request A.14: how far pairs go along with those of an accepted text.

#![tactic(auto)]

ghost use Rattle.std.specs.Prelude.{true, [], ◌∷◌, ◌≤◌, length, drop};
ghost use Rattle.prefix_spec.specs.Prefix.{name_on, pairs_on, may_point};
ghost use Rattle.prefix_steps.specs.Steps.{Goes};
ghost use Rattle.prefix_pairs.specs.Steps.{PairGoes};

use prefix_steps::Went;

// The byte 0A.
fn end_on(text: &[u8], at: usize) -> Went
    ensures { Goes text.now at (λ go. name_on (0x0A ∷ []) (drop at text.now) (go 0)) result }
{
    prefix_steps::name_on(text, at, b"\n")
}

// So many pairs of any bytes, and byte 0A.
pub fn data_on(text: &[u8], at: usize, count: usize) -> Went
    ensures { Goes text.now at (λ go. pairs_on (λ m xs. true) count [] (drop at text.now) (go 0)) result }
{
    let mut i = at;
    for _ in 0..count {
        if !text_in::digit_at(text, i) {
            return prefix_steps::stopped(i);
        }
        if !text_in::digit_at(text, i + 1) {
            return prefix_steps::stopped(i + 1);
        }
        i += 2;
    }
    end_on(text, i)
}

// A pair at a place that may stand last, with so many pairs left behind it; it is put there.
fn pair_on(text: &[u8], at: usize, points: &mut [u8], left: usize) -> Went
    requires { 1 ≤ length points.old }
    ensures { PairGoes text.now at points.old left points.new result }
{
    if !text_in::digit_at(text, at) {
        return prefix_steps::stopped(at);
    }
    let high = point_lines::digit_value(text[at]);
    if !prefix_points::some_low(points, high, left) {
        return prefix_steps::stopped(at);
    }
    if !text_in::digit_at(text, at + 1) {
        return prefix_steps::stopped(at + 1);
    }
    let low = point_lines::digit_value(text[at + 1]);
    let byte = 16 * high + low;
    let last = points.len() - 1;
    points[last] = byte;
    if !prefix_points::may_point(points, left) {
        return prefix_steps::stopped(at + 1);
    }
    Went {
        ok: true,
        value: byte as usize,
        at: at + 2,
    }
}

// The pairs of n points, and byte 0A.
pub fn points_on(text: &[u8], at: usize, n: usize) -> Went
    requires { n ≤ 32 }
    ensures { Goes text.now at (λ go. pairs_on (may_point n) n [] (drop at text.now) (go 0)) result }
{
    let mut points = [0u8; 32];
    let mut i = at;
    for j in 0..n {
        let end = j + 1;
        let pair = pair_on(text, i, &mut points[0..end], n - end);
        if !pair.ok {
            return pair;
        }
        i = pair.at;
    }
    end_on(text, i)
}
