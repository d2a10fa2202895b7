// The share that a fresh board of a started repair writes, stripe by stripe from the packets that lie for it, by its rows.
// Assumes nothing.

#![tactic(auto)]

ghost use Rattle.std.specs.Prelude.{◌≡◌, true, ◌++◌, ◌+◌, ◌-◌, ◌*◌, ◌<◌, ◌≤◌, length, take, drop};
ghost use Rattle.lists.specs.Lists.{join};
ghost use Rattle.sizes.specs.Sizing.{legal, α};
ghost use Rattle.row_values.specs.Steps.{row_sums};
ghost use Rattle.stripe_finish.specs.Steps.{finished_by};
ghost use Rattle.finish_bytes.specs.Steps.{stripe_by};

use sizes::Sizes;

// A stripe that board i writes, by its rows, from what it heard. g and f are for work.
fn finish_stripe(
    sizes: Sizes,
    i: usize,
    rows: &[u8],
    firsts: &[u8],
    got: &mut [u8],
    g: &mut [u8],
    f: &mut [u8],
    out: &mut [u8],
)
    requires { (legal sizes ≡ true) × (i < sizes.n) × (length rows.now ≡ (sizes.d + (sizes.d + sizes.r)) * 32) × (length firsts.now ≡ sizes.d) × (length got.old ≡ sizes.d + sizes.r) × (sizes.n ≤ length f.old) × (length f.old ≤ 32) × (length g.old ≡ length f.old) × (length out.old ≡ α sizes) }
    ensures { out.new ≡ finished_by sizes.n i (length f.old) (sizes.d - 1) (drop (sizes.d * 32) rows.now) (row_sums (length f.old) firsts.now (take (sizes.d * 32) rows.now)) (take (length got.old - 1) got.old) }
{
    let m = sizes.d * 32;
    row_values::row_sums(firsts, &rows[0..m], g);
    stripe_finish::finish(sizes.n, i, &rows[m..], g, got, f, out);
}

// The share that board i writes, by its rows, where e stand-ins sent it packets. The slices from firsts to f are for work.
fn share_by(
    sizes: Sizes,
    i: usize,
    lanes: usize,
    rows: &[u8],
    stripes: usize,
    e: usize,
    packets: &[u8],
    stood: &[u8],
    exchanges: &[u8],
    firsts: &mut [u8],
    got: &mut [u8],
    g: &mut [u8],
    f: &mut [u8],
    out: &mut [u8],
)
    requires { (legal sizes ≡ true) × (i < sizes.n) × (e < sizes.r) × (stripes ≤ 4096) × (length rows.now ≡ (sizes.d + (sizes.d + sizes.r)) * 32) × (length packets.now ≡ sizes.d * (2 * stripes)) × (length stood.now ≡ e * stripes) × (length exchanges.now ≡ (sizes.r - 1 - e) * stripes) × (length firsts.old ≡ sizes.d) × (length got.old ≡ sizes.d + sizes.r) × (sizes.n ≤ lanes) × (lanes ≤ 32) × (length g.old ≡ lanes) × (length f.old ≡ lanes) × (length out.old ≡ stripes * α sizes) }
    ensures { out.new ≡ join stripes (λ s. stripe_by sizes i lanes rows.now stripes s packets.now (stood.now ++ exchanges.now)) }
{
    let a = 2 * sizes.d + sizes.r - 1;
    for s in 0..stripes {
        let from = s * a;
        let to = from + a;
        step_bytes::hear(sizes, stripes, s, e, packets, stood, exchanges, firsts, got);
        finish_stripe(sizes, i, rows, firsts, got, g, f, &mut out[from..to]);
    }
}

// The same, with space of its own, so many bytes of a row at a time.
pub fn share_work(
    sizes: Sizes,
    i: usize,
    lanes: usize,
    rows: &[u8],
    stripes: usize,
    e: usize,
    packets: &[u8],
    stood: &[u8],
    exchanges: &[u8],
    out: &mut [u8],
)
    requires { (legal sizes ≡ true) × (i < sizes.n) × (e < sizes.r) × (stripes ≤ 4096) × (length rows.now ≡ (sizes.d + (sizes.d + sizes.r)) * 32) × (length packets.now ≡ sizes.d * (2 * stripes)) × (length stood.now ≡ e * stripes) × (length exchanges.now ≡ (sizes.r - 1 - e) * stripes) × (sizes.n ≤ lanes) × (lanes ≤ 32) × (length out.old ≡ stripes * α sizes) }
    ensures { out.new ≡ join stripes (λ s. stripe_by sizes i lanes rows.now stripes s packets.now (stood.now ++ exchanges.now)) }
{
    let d = sizes.d;
    let w = d + sizes.r;
    let mut firsts = [0u8; 32];
    let mut got = [0u8; 32];
    let mut g = [0u8; 32];
    let mut f = [0u8; 32];
    share_by(
        sizes,
        i,
        lanes,
        rows,
        stripes,
        e,
        packets,
        stood,
        exchanges,
        &mut firsts[0..d],
        &mut got[0..w],
        &mut g[0..lanes],
        &mut f[0..lanes],
        out,
    );
}
