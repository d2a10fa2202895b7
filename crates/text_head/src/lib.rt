//! A share text at a place of a lent slice: its head, line by line, and where the pairs of its share stand.

#![tactic(auto)]

ghost use Rattle.std.specs.Prelude.{◌≡◌, true, false, not, [], ◌∷◌, ◌+◌, ◌*◌, ◌≤◌, length, take};
ghost use Rattle.lists.specs.Tests.{alls};
ghost use Rattle.lists.specs.Lists.{fit};
ghost use Rattle.mbcr.specs.Share.{standard, pointed};
ghost use Rattle.text_lines.specs.Steps.{in_order};
ghost use Rattle.text_in.specs.Steps.{pairs_line_at, bytes_at};
ghost use Rattle.sizes.specs.Sizing.{legal};
ghost use Rattle.text_spec.specs.Texts.{admitted};
ghost use Rattle.text_head.specs.Steps.{six_at, unpointed, said_at, pointed_at, Stands};

use sizes::Sizes;

// The numbers of the six lines, and the place behind them.
#[derive(Clone, Copy)]
pub struct Six {
    pub ok: bool,
    pub sizes: Sizes,
    pub node: usize,
    pub length: usize,
    pub next: usize,
}

// The points, and the place behind their line.
#[derive(Clone, Copy)]
pub struct Pointed {
    pub ok: bool,
    pub points: [u8; 32],
    pub next: usize,
}

// What a text tells but its share; the share's bytes, and the place where its pairs begin; the place behind the text.
#[derive(Clone, Copy)]
pub struct Head {
    pub ok: bool,
    pub sizes: Sizes,
    pub points: [u8; 32],
    pub node: usize,
    pub length: usize,
    pub count: usize,
    pub place: usize,
    pub next: usize,
}

// The six lines of numbers.
fn six_at(text: &[u8], at: usize) -> Six
    ensures { result ≡ six_at text.now at }
{
    let n = text_cursor::number_from(text, at, 0);
    let k = text_cursor::number_from(text, n.next, 1);
    let d = text_cursor::number_from(text, k.next, 2);
    let r = text_cursor::number_from(text, d.next, 3);
    let node = text_cursor::number_from(text, r.next, 4);
    let length = text_cursor::number_from(text, node.next, 5);
    Six {
        ok: length.ok,
        sizes: Sizes {
            n: n.value,
            k: k.value,
            d: d.value,
            r: r.value,
        },
        node: node.value,
        length: length.value,
        next: length.next,
    }
}

// Whether a text may tell these sizes, this board and this length.
fn admitted(sizes: Sizes, node: usize, length: usize) -> bool
    ensures { result ≡ admitted sizes node length }
{
    if !sizes.legal() {
        return false;
    }
    if Sizes::MAX_STRIPES * sizes.stripe_len() < length {
        return false;
    }
    node < sizes.n
}

// No points.
fn unpointed() -> Pointed
    ensures { result ≡ unpointed }
{
    let points = [0u8; 32];
    Pointed {
        ok: false,
        points: points,
        next: 0,
    }
}

// Whether a line of points may give these: they are taken, and not in order.
fn tellable(sizes: Sizes, points: &[u8]) -> bool
    requires { legal sizes ≡ true }
    ensures { result ≡ alls (pointed sizes points.now ∷ not (in_order (take sizes.n points.now)) ∷ []) }
{
    if !line_checks::points_taken(sizes, points) {
        return false;
    }
    let n = sizes.n;
    !text_lines::in_order(&points[0..n])
}

// So many bytes that pairs spell, and 00 from there up.
fn filled(text: &[u8], at: usize, n: usize) -> [u8; 32]
    requires { (n ≤ 32) × (at + 2 * n ≤ length text.now) }
    ensures { result ≡ fit 32 (bytes_at text.now at n) }
{
    let mut points = [0u8; 32];
    text_in::fill_pairs(text, at, &mut points[0..n]);
    points
}

// The points that the line of points at a place gives.
fn said_at(text: &[u8], at: usize, sizes: Sizes) -> Pointed
    requires { legal sizes ≡ true }
    ensures { result ≡ said_at sizes (bytes_at text.now (pairs_line_at text.now at 0 sizes.n).value sizes.n) (pairs_line_at text.now at 0 sizes.n) }
{
    let n = sizes.n;
    let line = text_cursor::pairs_from(text, at, 0, n);
    if !line.ok {
        return unpointed();
    }
    let points = filled(text, line.value, n);
    if !tellable(sizes, &points) {
        return unpointed();
    }
    Pointed {
        ok: true,
        points: points,
        next: line.next,
    }
}

// The points in order, of a text without a line of points.
fn unsaid(sizes: Sizes, at: usize) -> Pointed
    ensures { result ≡ record { ok = true; points = standard sizes; next = at } }
{
    Pointed {
        ok: true,
        points: board_lines::standard_points(sizes),
        next: at,
    }
}

// The points of a text, from behind its line of length on.
fn points_at(text: &[u8], at: usize, sizes: Sizes) -> Pointed
    requires { legal sizes ≡ true }
    ensures { result ≡ pointed_at text.now at sizes }
{
    if text.len() <= at {
        return unsaid(sizes, at);
    }
    if text[at] == 112 {
        return said_at(text, at, sizes);
    }
    unsaid(sizes, at)
}

// No text.
fn nothing() -> Head
    ensures { result.ok ≡ false }
{
    let points = [0u8; 32];
    Head {
        ok: false,
        sizes: Sizes {
            n: 0,
            k: 0,
            d: 0,
            r: 0,
        },
        points: points,
        node: 0,
        length: 0,
        count: 0,
        place: 0,
        next: 0,
    }
}

// The head of the text that stands at a place.
pub fn head_at(text: &[u8], at: usize) -> Head
    ensures { Stands text.now at result }
{
    let six = six_at(text, at);
    if !six.ok {
        return nothing();
    }
    let sizes = six.sizes;
    if !admitted(sizes, six.node, six.length) {
        return nothing();
    }
    let pointed = points_at(text, six.next, sizes);
    if !pointed.ok {
        return nothing();
    }
    let count = board_lines::stripe_count(sizes, six.length) * sizes.share_len();
    let data = text_cursor::pairs_from(text, pointed.next, 1, count);
    let points = pointed.points;
    Head {
        ok: data.ok,
        sizes: sizes,
        points: points,
        node: six.node,
        length: six.length,
        count: count,
        place: data.value,
        next: data.next,
    }
}
