//! Request A.14: which bytes may stand next in a line of points.

#![tactic(auto)]

ghost use Rattle.std.specs.Prelude.{◌≡◌, ◌+◌, ◌*◌, ◌≤◌, ◌<◌, length};
ghost use Rattle.prefix_spec.specs.Prefix.{some, may_point};
ghost use Rattle.prefix_points.specs.Steps.{may_last, Kept};

// Whether these points may stand with so many pairs left: they are different, and the whole row is not in order.
pub fn may_point(points: &[u8], left: usize) -> bool
    ensures { result ≡ may_point (length points.now + left) left points.now }
{
    if !line_tests::points_differ(points) {
        return false;
    }
    if left == 0 {
        return !text_lines::in_order(points);
    }
    true
}

// Whether some byte with this first digit may stand last, with so many pairs left behind it. The last byte is used for it.
pub fn some_low(points: &mut [u8], high: u8, left: usize) -> bool
    requires { (1 ≤ length points.old) × (high < 16) }
    ensures { (result ≡ some 16 (λ low. may_last points.old left (16 * high + low))) × Kept points.old points.new }
{
    let last = points.len() - 1;
    for low in (0..16).rev() {
        points[last] = 16 * high + low;
        if may_point(points, left) {
            return true;
        }
    }
    false
}
