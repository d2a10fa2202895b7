// Whether k boards agree: f of each and g of each have one value where they meet.
// Assumes nothing.

#![tactic(auto)]

ghost use Rattle.std.specs.Prelude.{◌≡◌, true, ◌+◌, ◌-◌, ◌*◌, ◌<◌, ◌≤◌, length};
ghost use Rattle.lists.specs.Tests.{alls, below};
ghost use Rattle.lists.specs.Lists.{tabulate};
ghost use Rattle.sizes.specs.Sizing.{legal};
ghost use Rattle.mbcr.specs.Share.{DifferentPoints};
ghost use Rattle.decode_laws.specs.Steps.{value_at, board_meets, boards_meet, pairs_meet, factor_rows, held_at, Placed};

use sizes::Sizes;

// The value at boards[i] of the polynomial of boards[t], of which there is a row of c bytes.
fn value_at(
    n: usize,
    c: usize,
    m: usize,
    boards: &[usize],
    factors: &[u8],
    rows: &[u8],
    t: usize,
    i: usize,
) -> u8
    requires { (n ≤ 32) × (c ≤ n) × (m ≤ 32) × (length boards.now ≤ 32) × (below n boards.now ≡ true) × (length boards.now * ((n - c) * 32) ≤ length factors.now) × (length rows.now ≡ length boards.now * 32) × (t < length boards.now) × (i < length boards.now) }
    ensures { result ≡ value_at n c m boards.now boards.now factors.now rows.now t i }
{
    let o = kept_rows::offset(n, boards[t], boards[i]);
    let from = t * ((n - c) * 32);
    let row = t * 32;
    let end = row + 32;
    kept_rows::value(n, c, m, o, &factors[from..], &rows[row..end])
}

// Whether f of boards[i] and g of each board have one value where they meet: f has w bytes, g has d.
fn board_meets(
    n: usize,
    d: usize,
    w: usize,
    p: usize,
    m: usize,
    boards: &[usize],
    ff: &[u8],
    gf: &[u8],
    fs: &[u8],
    gs: &[u8],
    i: usize,
) -> bool
    requires { (n ≤ 32) × (d ≤ n) × (w ≤ n) × (p ≤ 32) × (m ≤ 32) × (length boards.now ≤ 32) × (below n boards.now ≡ true) × (length boards.now * ((n - w) * 32) ≤ length ff.now) × (length boards.now * ((n - d) * 32) ≤ length gf.now) × (length fs.now ≡ length boards.now * 32) × (length gs.now ≡ length boards.now * 32) × (i < length boards.now) }
    ensures { result ≡ board_meets n d w p m boards.now ff.now gf.now fs.now gs.now i }
{
    for j in 0..boards.len() {
        let f = value_at(n, w, m, boards, ff, fs, i, j);
        let g = value_at(n, d, p, boards, gf, gs, j, i);
        if f != g {
            return false;
        }
    }
    true
}

// Whether those of each board do.
fn boards_meet(
    n: usize,
    d: usize,
    w: usize,
    p: usize,
    m: usize,
    boards: &[usize],
    ff: &[u8],
    gf: &[u8],
    fs: &[u8],
    gs: &[u8],
) -> bool
    requires { (n ≤ 32) × (d ≤ n) × (w ≤ n) × (p ≤ 32) × (m ≤ 32) × (length boards.now ≤ 32) × (below n boards.now ≡ true) × (length boards.now * ((n - w) * 32) ≤ length ff.now) × (length boards.now * ((n - d) * 32) ≤ length gf.now) × (length fs.now ≡ length boards.now * 32) × (length gs.now ≡ length boards.now * 32) }
    ensures { result ≡ boards_meet n d w p m boards.now ff.now gf.now fs.now gs.now }
{
    let k = boards.len();
    for i in 0..k {
        if !board_meets(n, d, w, p, m, boards, ff, gf, fs, gs, i) {
            return false;
        }
    }
    true
}

// Whether the pairs of boards meet in stripe s: the bytes of boards[t] start at starts[t].
fn stripe_meets(
    sizes: Sizes,
    points: &[u8],
    boards: &[usize],
    starts: &[usize],
    bytes: &[u8],
    s: usize,
    ff: &[u8],
    gf: &[u8],
    fs: &mut [u8],
    gs: &mut [u8],
) -> bool
    requires { (legal sizes ≡ true) × DifferentPoints sizes points.now × (length boards.now ≡ sizes.k) × (below sizes.n boards.now ≡ true) × (length starts.now ≡ sizes.k) × Placed sizes starts.now bytes.now (s + 1) × (s < 4096) × (ff.now ≡ factor_rows sizes points.now (sizes.d + sizes.r) boards.now) × (gf.now ≡ factor_rows sizes points.now sizes.d boards.now) × (length fs.old ≡ sizes.k * 32) × (length gs.old ≡ sizes.k * 32) }
    ensures { result ≡ pairs_meet sizes points.now boards.now (held_at sizes starts.now bytes.now s) }
{
    let n = sizes.n;
    let d = sizes.d;
    let w = d + sizes.r;
    let at = s * (w + (d - 1));
    let p = row_values::whole_vectors(d);
    let m = row_values::whole_vectors(w);
    decode_values::rows_of(d, w, starts, at, bytes, fs, gs);
    boards_meet(n, d, w, p, m, boards, ff, gf, fs, gs)
}

// Whether they meet in each stripe.
pub fn stripes_meet(
    sizes: Sizes,
    points: &[u8],
    boards: &[usize],
    starts: &[usize],
    bytes: &[u8],
    stripes: usize,
    ff: &[u8],
    gf: &[u8],
    fs: &mut [u8],
    gs: &mut [u8],
) -> bool
    requires { (legal sizes ≡ true) × DifferentPoints sizes points.now × (length boards.now ≡ sizes.k) × (below sizes.n boards.now ≡ true) × (length starts.now ≡ sizes.k) × Placed sizes starts.now bytes.now stripes × (stripes ≤ 4096) × (ff.now ≡ factor_rows sizes points.now (sizes.d + sizes.r) boards.now) × (gf.now ≡ factor_rows sizes points.now sizes.d boards.now) × (length fs.old ≡ sizes.k * 32) × (length gs.old ≡ sizes.k * 32) }
    ensures { result ≡ alls (tabulate stripes (λ s. pairs_meet sizes points.now boards.now (held_at sizes starts.now bytes.now s))) }
{
    for s in 0..stripes {
        if !stripe_meets(sizes, points, boards, starts, bytes, s, ff, gf, fs, gs) {
            return false;
        }
    }
    true
}
