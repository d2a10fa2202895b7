// Rebuilding, the last step of document 01: what a fresh board writes.
// A stripe is two sums of rows, which depend on the boards alone and are made once. The definitions are those of the crate mbcr, over any
// bytes; the points of the boards differ.
// Assumes nothing.

#![tactic(auto)]

ghost use Rattle.std.specs.Prelude.{◌≡◌, true, [], ◌∷◌, ◌++◌, ◌+◌, ◌-◌, ◌*◌, ◌<◌, ◌≤◌, length, drop};
ghost use Rattle.lists.specs.Tests.{below, different};
ghost use Rattle.lists.specs.Lists.{tabulate, join};
ghost use Rattle.gf256.specs.Field.{inverse};
ghost use Rattle.sizes.specs.Sizing.{legal, α};
ghost use Rattle.mbcr.specs.Share.{DifferentPoints};
ghost use Rattle.mbcr.specs.Rebuild.{received, finished_share};
ghost use Rattle.finish_bytes.specs.Steps.{stripe_by};

use sizes::Sizes;

// Stripe s of the share that board i writes, from the packets of its helpers and its partners, by its rows. The other slices are for work.
fn stripe_by(
    sizes: Sizes,
    i: usize,
    rows: &[u8],
    stripes: usize,
    s: usize,
    packets: &[u8],
    exchanges: &[u8],
    firsts: &mut [u8],
    got: &mut [u8],
    g: &mut [u8],
    f: &mut [u8],
    out: &mut [u8],
)
    requires { (legal sizes ≡ true) × (i < sizes.n) × (s < stripes) × (stripes ≤ 4096) × (length rows.now ≡ (sizes.d + (sizes.d + sizes.r)) * 32) × (length packets.now ≡ sizes.d * (2 * stripes)) × (length exchanges.now ≡ (sizes.r - 1) * stripes) × (length firsts.old ≡ sizes.d) × (length got.old ≡ sizes.d + sizes.r) × (sizes.n ≤ length f.old) × (length f.old ≤ 32) × (length g.old ≡ length f.old) × (length out.old ≡ α sizes) }
    ensures { out.new ≡ stripe_by sizes i (length f.old) rows.now stripes s packets.now exchanges.now }
{
    let m = sizes.d * 32;
    stripe_exchange::received(sizes, stripes, 0, s, packets, firsts);
    finish_bytes::gather(sizes, stripes, s, packets, exchanges, got);
    row_values::row_sums(firsts, &rows[0..m], g);
    stripe_finish::finish(sizes.n, i, &rows[m..], g, got, f, out);
}

// The share that board i writes, to the beginning of out, by its rows. The other slices are for work.
fn share_by(
    sizes: Sizes,
    i: usize,
    lanes: usize,
    rows: &[u8],
    stripes: usize,
    packets: &[u8],
    exchanges: &[u8],
    firsts: &mut [u8],
    got: &mut [u8],
    g: &mut [u8],
    f: &mut [u8],
    out: &mut [u8],
)
    requires { (legal sizes ≡ true) × (i < sizes.n) × (stripes ≤ 4096) × (length rows.now ≡ (sizes.d + (sizes.d + sizes.r)) * 32) × (length packets.now ≡ sizes.d * (2 * stripes)) × (length exchanges.now ≡ (sizes.r - 1) * stripes) × (length firsts.old ≡ sizes.d) × (length got.old ≡ sizes.d + sizes.r) × (sizes.n ≤ lanes) × (lanes ≤ 32) × (length f.old ≡ lanes) × (length g.old ≡ lanes) × (stripes * α sizes ≤ length out.old) }
    ensures { out.new ≡ join stripes (λ s. stripe_by sizes i lanes rows.now stripes s packets.now exchanges.now) ++ drop (stripes * α sizes) out.old }
{
    let a = 2 * sizes.d + sizes.r - 1;
    for s in 0..stripes {
        let from = s * a;
        let to = from + a;
        stripe_by(
            sizes,
            i,
            rows,
            stripes,
            s,
            packets,
            exchanges,
            firsts,
            got,
            g,
            f,
            &mut out[from..to],
        );
    }
}

// The same, with space of its own, so many bytes of a row at a time.
fn share_work(
    sizes: Sizes,
    i: usize,
    lanes: usize,
    rows: &[u8],
    stripes: usize,
    packets: &[u8],
    exchanges: &[u8],
    out: &mut [u8],
)
    requires { (legal sizes ≡ true) × (i < sizes.n) × (stripes ≤ 4096) × (length rows.now ≡ (sizes.d + (sizes.d + sizes.r)) * 32) × (length packets.now ≡ sizes.d * (2 * stripes)) × (length exchanges.now ≡ (sizes.r - 1) * stripes) × (sizes.n ≤ lanes) × (lanes ≤ 32) × (stripes * α sizes ≤ length out.old) }
    ensures { out.new ≡ join stripes (λ s. stripe_by sizes i lanes rows.now stripes s packets.now exchanges.now) ++ drop (stripes * α sizes) out.old }
{
    let d = sizes.d;
    let w = d + sizes.r;
    let mut firsts = [0u8; 32];
    let mut got = [0u8; 32];
    let mut g = [0u8; 32];
    let mut f = [0u8; 32];
    share_by(
        sizes,
        i,
        lanes,
        rows,
        stripes,
        packets,
        exchanges,
        &mut firsts[0..d],
        &mut got[0..w],
        &mut g[0..lanes],
        &mut f[0..lanes],
        out,
    );
}

// The share of board i, from d helpers with their packets and r − 1 partners with theirs, to the beginning of out. The other slices are for work.
fn share_in(
    sizes: Sizes,
    points: &[u8],
    inverses: &[u8],
    stripes: usize,
    i: usize,
    helpers: &[usize],
    packets: &[u8],
    partners: &[usize],
    exchanges: &[u8],
    all: &mut [usize],
    rows: &mut [u8],
    out: &mut [u8],
)
    requires { (legal sizes ≡ true) × (length points.now ≡ 32) × DifferentPoints sizes points.now × (inverses.now ≡ tabulate 256 inverse) × (stripes ≤ 4096) × (length packets.now ≡ sizes.d * (2 * stripes)) × (length exchanges.now ≡ (sizes.r - 1) * stripes) × (length helpers.now ≡ sizes.d) × (length partners.now ≡ sizes.r - 1) × (below sizes.n (helpers.now ++ partners.now ++ (i ∷ [])) ≡ true) × (different (helpers.now ++ partners.now ++ (i ∷ [])) ≡ true) × (stripes * α sizes ≤ length out.old) × (length all.old ≡ sizes.d + sizes.r) × (length rows.old ≡ (sizes.d + (sizes.d + sizes.r)) * 32) }
    ensures { out.new ≡ finished_share sizes points.now stripes i helpers.now packets.now partners.now exchanges.now ++ drop (stripes * α sizes) out.old }
{
    let lanes = row_values::whole_vectors(sizes.n);
    stripe_finish::board_rows(points, helpers, partners, i, inverses, all, rows);
    share_work(sizes, i, lanes, rows, stripes, packets, exchanges, out);
}

// The share of board i, from d helpers with their packets and r − 1 partners with theirs, to the beginning of out.
pub fn finished_share(
    sizes: Sizes,
    points: &[u8],
    inverses: &[u8],
    stripes: usize,
    i: usize,
    helpers: &[usize],
    packets: &[u8],
    partners: &[usize],
    exchanges: &[u8],
    out: &mut [u8],
)
    requires { (legal sizes ≡ true) × (length points.now ≡ 32) × DifferentPoints sizes points.now × (inverses.now ≡ tabulate 256 inverse) × (stripes ≤ 4096) × (length packets.now ≡ sizes.d * (2 * stripes)) × (length exchanges.now ≡ (sizes.r - 1) * stripes) × (length helpers.now ≡ sizes.d) × (length partners.now ≡ sizes.r - 1) × (below sizes.n (helpers.now ++ partners.now ++ (i ∷ [])) ≡ true) × (different (helpers.now ++ partners.now ++ (i ∷ [])) ≡ true) × (stripes * α sizes ≤ length out.old) }
    ensures { out.new ≡ finished_share sizes points.now stripes i helpers.now packets.now partners.now exchanges.now ++ drop (stripes * α sizes) out.old }
{
    let w = sizes.d + sizes.r;
    let m = (sizes.d + w) * 32;
    let mut all = [0usize; 32];
    let mut rows = [0u8; 2048];
    share_in(
        sizes,
        points,
        inverses,
        stripes,
        i,
        helpers,
        packets,
        partners,
        exchanges,
        &mut all[0..w],
        &mut rows[0..m],
        out,
    );
}
