// Rebuilding, the first step of document 01: what a helper sends, worked out from its own share.
// The two bytes of a stripe are sums of the bytes that the helper keeps, times factors that depend on the two boards alone: these are made
// once. The definitions are those of the crate mbcr, over any bytes; the points of the boards differ.
// Assumes nothing.

#![tactic(auto)]

ghost use Rattle.std.specs.Prelude.{◌≡◌, true, [], ◌∷◌, ◌++◌, ◌+◌, ◌-◌, ◌*◌, ◌<◌, ◌≤◌, length, drop};
ghost use Rattle.lists.specs.Lists.{tabulate, join, piece};
ghost use Rattle.gf256.specs.Field.{inverse};
ghost use Rattle.sizes.specs.Sizing.{legal, α};
ghost use Rattle.mbcr.specs.Share.{DifferentPoints};
ghost use Rattle.mbcr.specs.Rebuild.{helper_packet};
ghost use Rattle.stripe_helper.specs.Steps.{pair_by};

use sizes::Sizes;

// The two bytes of a helper for a fresh board.
#[derive(Clone, Copy)]
pub struct Pair {
    pub first: u8,
    pub second: u8,
}

// The pair of a helper that keeps these bytes of a stripe, w of them of f, by its factors of f and of g. f and g are for work.
fn pair_in(
    d: usize,
    w: usize,
    ff: &[u8],
    gf: &[u8],
    held: &[u8],
    f: &mut [u8],
    g: &mut [u8],
) -> Pair
    requires { (1 ≤ d) × (1 ≤ w) × (length held.now ≡ w + d - 1) × (length ff.now ≤ 32) × (length gf.now ≤ 32) × (w ≤ 32) × (d ≤ 32) × (f.old ≡ tabulate 32 (λ j. 0)) × (g.old ≡ tabulate 32 (λ j. 0)) }
    ensures { result.first ∷ result.second ∷ [] ≡ pair_by w ff.now gf.now held.now }
{
    own_rows::own_rows(d, w, held, f, g);
    let a = row_dots::dot(ff, f);
    let b = row_dots::dot(gf, g);
    Pair {
        first: a,
        second: b,
    }
}

// The same, with space of its own.
pub fn helper_pair(d: usize, w: usize, ff: &[u8], gf: &[u8], held: &[u8]) -> Pair
    requires { (1 ≤ d) × (1 ≤ w) × (length held.now ≡ w + d - 1) × (length ff.now ≤ 32) × (length gf.now ≤ 32) × (w ≤ 32) × (d ≤ 32) }
    ensures { result.first ∷ result.second ∷ [] ≡ pair_by w ff.now gf.now held.now }
{
    let mut f = [0u8; 32];
    let mut g = [0u8; 32];
    pair_in(d, w, ff, gf, held, &mut f, &mut g)
}

// The pairs of all stripes of a helper that holds these bytes, to the beginning of out.
fn pairs(d: usize, w: usize, ff: &[u8], gf: &[u8], stripes: usize, held: &[u8], out: &mut [u8])
    requires { (1 ≤ d) × (1 ≤ w) × (length held.now ≡ stripes * (w + d - 1)) × (length ff.now ≤ 32) × (length gf.now ≤ 32) × (w ≤ 32) × (d ≤ 32) × (2 * stripes ≤ length out.old) }
    ensures { out.new ≡ join stripes (λ s. pair_by w ff.now gf.now (piece (w + d - 1) s held.now)) ++ drop (2 * stripes) out.old }
{
    let a = w + d - 1;
    for s in 0..stripes {
        let from = s * a;
        let to = from + a;
        let q = helper_pair(d, w, ff, gf, &held[from..to]);
        let at = s * 2;
        let next = at + 1;
        out[at] = q.first;
        out[next] = q.second;
    }
}

// The packet of helper j, which holds these bytes, for board i, to the beginning of out. ff and gf are for work.
fn packet_in(
    sizes: Sizes,
    points: &[u8],
    inverses: &[u8],
    stripes: usize,
    j: usize,
    i: usize,
    held: &[u8],
    ff: &mut [u8],
    gf: &mut [u8],
    out: &mut [u8],
)
    requires { (legal sizes ≡ true) × (length points.now ≡ 32) × DifferentPoints sizes points.now × (inverses.now ≡ tabulate 256 inverse) × (stripes ≤ 4096) × (j < sizes.n) × (i < sizes.n) × (length held.now ≡ stripes * α sizes) × (2 * stripes ≤ length out.old) × (sizes.d + sizes.r ≤ length ff.old) × (length ff.old ≤ 32) × (sizes.d ≤ length gf.old) × (length gf.old ≤ 32) }
    ensures { out.new ≡ helper_packet sizes points.now stripes j i held.now ++ drop (2 * stripes) out.old }
{
    let d = sizes.d;
    let w = d + sizes.r;
    lagrange_factors::factors_from(points, sizes.n, j, w, inverses, i, ff);
    lagrange_factors::factors_from(points, sizes.n, j, d, inverses, i, gf);
    pairs(d, w, ff, gf, stripes, held, out);
}

// The packet of helper j, which holds these bytes, for board i, to the beginning of out.
pub fn helper_packet(
    sizes: Sizes,
    points: &[u8],
    inverses: &[u8],
    stripes: usize,
    j: usize,
    i: usize,
    held: &[u8],
    out: &mut [u8],
)
    requires { (legal sizes ≡ true) × (length points.now ≡ 32) × DifferentPoints sizes points.now × (inverses.now ≡ tabulate 256 inverse) × (stripes ≤ 4096) × (j < sizes.n) × (i < sizes.n) × (length held.now ≡ stripes * α sizes) × (2 * stripes ≤ length out.old) }
    ensures { out.new ≡ helper_packet sizes points.now stripes j i held.now ++ drop (2 * stripes) out.old }
{
    let fl = row_values::whole_vectors(sizes.d + sizes.r);
    let gl = row_values::whole_vectors(sizes.d);
    let mut ff = [0u8; 32];
    let mut gf = [0u8; 32];
    packet_in(
        sizes,
        points,
        inverses,
        stripes,
        j,
        i,
        held,
        &mut ff[0..fl],
        &mut gf[0..gl],
        out,
    );
}
