//! Request A.14: how far a share text still makes sense, line by line.

#![tactic(auto)]

ghost use Rattle.std.specs.Prelude.{◌≡◌};
ghost use Rattle.prefix_spec.specs.Prefix.{longest};

use sizes::Sizes;

// The length of the longest beginning that also begins some accepted text.
pub fn prefix(text: &[u8]) -> usize
    ensures { result ≡ longest text.now }
{
    let n = prefix_lines::line_on(text, 0, 0, 2, 32);
    if !n.ok {
        return n.at;
    }
    let k = prefix_lines::line_on(text, n.at, 1, 1, n.value - 1);
    if !k.ok {
        return k.at;
    }
    let d = prefix_lines::line_on(text, k.at, 2, k.value, n.value - 1);
    if !d.ok {
        return d.at;
    }
    let r = prefix_lines::line_on(text, d.at, 3, 1, n.value - d.value);
    if !r.ok {
        return r.at;
    }
    let node = prefix_lines::line_on(text, r.at, 4, 0, n.value - 1);
    if !node.ok {
        return node.at;
    }
    let sizes = Sizes {
        n: n.value,
        k: k.value,
        d: d.value,
        r: r.value,
    };
    let length = prefix_lines::line_on(
        text,
        node.at,
        5,
        0,
        Sizes::MAX_STRIPES * sizes.stripe_len(),
    );
    if !length.ok {
        return length.at;
    }
    prefix_rest::rest_on(text, length.at, sizes, length.value)
}
