// A stripe from k boards: the coefficients of their f and g from values at the same boards for all, then the stripe's own by sums of rows.
// Assumes nothing.

#![tactic(auto)]

ghost use Rattle.std.specs.Prelude.{◌≡◌, true, List, ℕ, ◌+◌, ◌-◌, ◌*◌, ◌<◌, ◌≤◌, length, get_or, take};
ghost use Rattle.lists.specs.Tests.{below, different};
ghost use Rattle.lists.specs.Lists.{join, fit};
ghost use Rattle.sizes.specs.Sizing.{legal, B};
ghost use Rattle.mbcr.specs.Share.{DifferentPoints, points as points_of};
ghost use Rattle.mbcr.specs.Rebuild.{own_f, own_g};
ghost use Rattle.mbcr.specs.Read.{decoded_stripe};
ghost use Rattle.decode_laws.specs.Steps.{factor_rows, unit_rows, top_rows, held_at, Placed};
ghost use Rattle.decode_rows.specs.Steps.{TabledRows};
ghost use Rattle.decode_stripe.specs.Steps.{Asked, Targets, Tables, Work};

use sizes::Sizes;

// f of each board, from stripe s of its bytes: its coefficients, a row each, and the coefficients of X^k, .. of g of each, for each power. Work on
// f and on g takes turns, so that neither waits for a sum of the other's.
fn coefficients(
    sizes: Sizes,
    points: &[u8],
    boards: &[usize],
    targets: &[usize],
    starts: &[usize],
    bytes: &[u8],
    s: usize,
    ff: &[u8],
    gf: &[u8],
    vc: &[u8],
    tr: &[u8],
    fs: &mut [u8],
    gs: &mut [u8],
    vf: &mut [u8],
    vg: &mut [u8],
    cf: &mut [u8],
    tp: &mut [u8],
)
    requires { (legal sizes ≡ true) × DifferentPoints sizes points.now × (length boards.now ≡ sizes.k) × (below sizes.n boards.now ≡ true) × (length targets.now ≡ sizes.d + sizes.r) × (below sizes.n targets.now ≡ true) × (different targets.now ≡ true) × (length starts.now ≡ sizes.k) × Placed sizes starts.now bytes.now (s + 1) × (s < 4096) × (ff.now ≡ factor_rows sizes points.now (sizes.d + sizes.r) boards.now) × (gf.now ≡ factor_rows sizes points.now sizes.d boards.now) × (length vc.now ≡ (sizes.d + sizes.r) * 512) × TabledRows (sizes.d + sizes.r) (unit_rows (points_of points.now targets.now)) vc.now × (tr.now ≡ top_rows sizes.k (points_of points.now (take sizes.d targets.now))) × (length fs.old ≡ sizes.k * 32) × (length gs.old ≡ sizes.k * 32) × (length vf.old ≡ sizes.k * (sizes.d + sizes.r)) × (length vg.old ≡ 1024) × (length cf.old ≡ sizes.k * 32) × (length tp.old ≡ (sizes.d - sizes.k) * sizes.k) }
    ensures { (cf.new ≡ join sizes.k (λ t. fit 32 (own_f sizes points.now (get_or boards.now t 0) (held_at sizes starts.now bytes.now s t)))) × ((i t : ℕ) → i < sizes.d - sizes.k → t < sizes.k → get_or tp.new (i * sizes.k + t) 0 ≡ get_or (own_g sizes points.now (get_or boards.now t 0) (held_at sizes starts.now bytes.now s t)) (sizes.k + i) 0) }
{
    let n = sizes.n;
    let k = sizes.k;
    let d = sizes.d;
    let w = d + sizes.r;
    let at = s * (w + (d - 1));
    let q = k * d;
    let m = row_values::whole_vectors(w);
    let p = row_values::whole_vectors(d);
    decode_values::rows_of(d, w, starts, at, bytes, fs, gs);
    decode_values::values(n, d, p, boards, &targets[0..d], gf, gs, &mut vg[0..q]);
    decode_values::values(n, w, m, boards, targets, ff, fs, vf);
    decode_values::tops(d - k, k, d, p, tr, vg, tp);
    decode_rows::by_rows(k, w, vf, vc, cf);
}

// Stripe s of the file.
pub fn decode_stripe(
    sizes: Sizes,
    points: &[u8],
    boards: &[usize],
    targets: &[usize],
    starts: &[usize],
    bytes: &[u8],
    s: usize,
    ff: &[u8],
    gf: &[u8],
    vc: &[u8],
    tr: &[u8],
    et: &[u8],
    fs: &mut [u8],
    gs: &mut [u8],
    vf: &mut [u8],
    vg: &mut [u8],
    tp: &mut [u8],
    rows: &mut [u8],
    columns: &mut [u8],
    u: &mut [u8],
)
    requires { Asked sizes points.now boards.now × Targets sizes targets.now × (length starts.now ≡ sizes.k) × Placed sizes starts.now bytes.now (s + 1) × (s < 4096) × Tables sizes points.now boards.now targets.now ff.now gf.now vc.now tr.now et.now × Work sizes fs.old gs.old vf.old vg.old tp.old rows.old columns.old × (length u.old ≡ B sizes) }
    ensures { u.new ≡ decoded_stripe sizes points.now boards.now (held_at sizes starts.now bytes.now s) }
{
    let q = sizes.k * 32;
    coefficients(
        sizes,
        points,
        boards,
        targets,
        starts,
        bytes,
        s,
        ff,
        gf,
        vc,
        tr,
        fs,
        gs,
        vf,
        vg,
        &mut rows[0..q],
        tp,
    );
    decode_columns::stripe_of(sizes, et, tp, rows, columns, u);
}
