// Stripes of a file, one after another, the last one cut.
// Assumes nothing.

#![tactic(auto)]

ghost use Rattle.std.specs.Prelude.{◌≡◌, ◌+◌, ◌-◌, ◌*◌, ◌<◌, ◌≤◌, length, take};
ghost use Rattle.lists.specs.Lists.{join};
ghost use Rattle.sizes.specs.Sizing.{B};
ghost use Rattle.decode_laws.specs.Steps.{Placed};
ghost use Rattle.decode_stripe.specs.Steps.{Asked, Targets, Tables, Work};
ghost use Rattle.stripes_cut.specs.Steps.{stripe_at};

use sizes::Sizes;

// The bytes of count stripes from the first on, as many as out has. The arrays between et and out are for work; u is one stripe's coefficients.
pub fn stripes_in(
    sizes: Sizes,
    points: &[u8],
    boards: &[usize],
    targets: &[usize],
    starts: &[usize],
    bytes: &[u8],
    first: usize,
    count: usize,
    ff: &[u8],
    gf: &[u8],
    vc: &[u8],
    tr: &[u8],
    et: &[u8],
    fs: &mut [u8],
    gs: &mut [u8],
    vf: &mut [u8],
    vg: &mut [u8],
    tp: &mut [u8],
    rows: &mut [u8],
    columns: &mut [u8],
    u: &mut [u8],
    out: &mut [u8],
)
    requires { Asked sizes points.now boards.now × Targets sizes targets.now × (length starts.now ≡ sizes.k) × Placed sizes starts.now bytes.now (first + count) × (first + count ≤ 4096) × Tables sizes points.now boards.now targets.now ff.now gf.now vc.now tr.now et.now × Work sizes fs.old gs.old vf.old vg.old tp.old rows.old columns.old × (length u.old ≡ B sizes) × (length out.old ≤ count * B sizes) × (count * B sizes ≤ length out.old + B sizes) }
    ensures { out.new ≡ take (length out.old) (join count (λ s. stripe_at sizes points.now boards.now starts.now bytes.now (first + s))) }
{
    let b = u.len();
    let len = out.len();
    for s in 0..count {
        let at = s * b;
        let m = part_lengths::least(b, len - at);
        let end = at + m;
        let q = first + s;
        decode_stripe::decode_stripe(
            sizes, points, boards, targets, starts, bytes, q, ff, gf, vc, tr, et, fs, gs, vf, vg,
            tp, rows, columns, u,
        );
        row_dots::copy(u, &mut out[at..end]);
    }
}
