// Request A.10: what a board keeps once another board has a new point, worked out in place. At most two bytes of a stripe change: f at the new point where
// the moved board is among the d + r boards from its own on, g where it is among the d.
// Assumes nothing.

#![tactic(auto)]

ghost use Rattle.std.specs.Prelude.{◌≡◌, true, ◌+◌, ◌*◌, ◌<◌, ◌≤◌, length, take};
ghost use Rattle.lists.specs.Lists.{tabulate, join, piece};
ghost use Rattle.gf256.specs.Field.{inverse};
ghost use Rattle.sizes.specs.Sizing.{legal, α};
ghost use Rattle.mbcr.specs.Share.{DifferentPoints};
ghost use Rattle.lagrange_factors.specs.Steps.{dot_of};
ghost use Rattle.rekeep_stripes.specs.Steps.{patch_by, share_patched};

use sizes::Sizes;

// f at the new byte by its factors, from the w bytes of f that begin a stripe. row is for work.
fn first_in(w: usize, ff: &[u8], stripe: &[u8], row: &mut [u8]) -> u8
    requires { (w ≤ 32) × (w ≤ length stripe.now) × (length ff.now ≤ 32) × (row.old ≡ tabulate 32 (λ j. 0)) }
    ensures { result ≡ dot_of ff.now (take w stripe.now) }
{
    row_dots::copy(&stripe[0..w], &mut row[0..w]);
    row_dots::dot(ff, row)
}

// The bytes of one stripe, in place, by the factors of f and of g for the new byte; the moved board is the t-th after the board. From d on the board keeps
// f alone there, and g is not worked out.
fn patch(sizes: Sizes, t: usize, ff: &[u8], gf: &[u8], stripe: &mut [u8])
    requires { (legal sizes ≡ true) × (1 ≤ t) × (t < sizes.d + sizes.r) × (length ff.now ≤ 32) × (length gf.now ≤ 32) × (length stripe.old ≡ α sizes) }
    ensures { stripe.new ≡ patch_by sizes t ff.now gf.now stripe.old }
{
    let d = sizes.d;
    let w = d + sizes.r;
    if t >= d {
        let mut row = [0u8; 32];
        let v = first_in(w, ff, stripe, &mut row);
        stripe[t] = v;
        return;
    }
    let q = stripe_helper::helper_pair(d, w, ff, gf, stripe);
    stripe[t] = q.first;
    let at = w + t - 1;
    stripe[at] = q.second;
}

// Those of all stripes of a board.
fn patch_stripes(sizes: Sizes, t: usize, ff: &[u8], gf: &[u8], stripes: usize, held: &mut [u8])
    requires { (legal sizes ≡ true) × (1 ≤ t) × (t < sizes.d + sizes.r) × (length ff.now ≤ 32) × (length gf.now ≤ 32) × (stripes ≤ 4096) × (length held.old ≡ stripes * α sizes) }
    ensures { held.new ≡ join stripes (λ s. patch_by sizes t ff.now gf.now (piece (α sizes) s held.old)) }
{
    let a = 2 * sizes.d + sizes.r - 1;
    for s in 0..stripes {
        let from = s * a;
        let to = from + a;
        patch(sizes, t, ff, gf, &mut held[from..to]);
    }
}

// The stripes of board i for the new byte y of the t-th board after it. ff and gf are for work.
fn stripes_in(
    sizes: Sizes,
    points: &[u8],
    inverses: &[u8],
    stripes: usize,
    i: usize,
    t: usize,
    y: u8,
    held: &mut [u8],
    ff: &mut [u8],
    gf: &mut [u8],
)
    requires { (legal sizes ≡ true) × (length points.now ≡ 32) × DifferentPoints sizes points.now × (inverses.now ≡ tabulate 256 inverse) × (stripes ≤ 4096) × (i < sizes.n) × (1 ≤ t) × (t < sizes.d + sizes.r) × (length held.old ≡ stripes * α sizes) × (sizes.d + sizes.r ≤ length ff.old) × (length ff.old ≤ 32) × (sizes.d ≤ length gf.old) × (length gf.old ≤ 32) }
    ensures { held.new ≡ share_patched sizes points.now t y stripes i held.old }
{
    let d = sizes.d;
    let w = d + sizes.r;
    byte_factors::byte_factors_from(points, sizes.n, i, w, inverses, y, ff);
    byte_factors::byte_factors_from(points, sizes.n, i, d, inverses, y, gf);
    patch_stripes(sizes, t, ff, gf, stripes, held);
}

// The same, with space of its own; nothing is to do where the board keeps no value at the moved one.
pub fn rekeep_stripes(
    sizes: Sizes,
    points: &[u8],
    inverses: &[u8],
    stripes: usize,
    i: usize,
    t: usize,
    y: u8,
    held: &mut [u8],
)
    requires { (legal sizes ≡ true) × (length points.now ≡ 32) × DifferentPoints sizes points.now × (inverses.now ≡ tabulate 256 inverse) × (stripes ≤ 4096) × (i < sizes.n) × (1 ≤ t) × (length held.old ≡ stripes * α sizes) }
    ensures { held.new ≡ share_patched sizes points.now t y stripes i held.old }
{
    let d = sizes.d;
    let w = d + sizes.r;
    if t >= w {
        return;
    }
    let fl = row_values::whole_vectors(w);
    let gl = row_values::whole_vectors(d);
    let mut ff = [0u8; 32];
    let mut gf = [0u8; 32];
    stripes_in(
        sizes,
        points,
        inverses,
        stripes,
        i,
        t,
        y,
        held,
        &mut ff[0..fl],
        &mut gf[0..gl],
    );
}
