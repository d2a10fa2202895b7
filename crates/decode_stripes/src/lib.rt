// Stripes of a file from k boards, one after another, each by way of the working array of one stripe's coefficients.
// Assumes nothing.

#![tactic(auto)]

ghost use Rattle.std.specs.Prelude.{◌≡◌, ◌+◌, ◌-◌, ◌*◌, ◌≤◌, length, take};
ghost use Rattle.lists.specs.Lists.{join};
ghost use Rattle.sizes.specs.Sizing.{B};
ghost use Rattle.decode_laws.specs.Steps.{Placed};
ghost use Rattle.decode_stripe.specs.Steps.{Asked, Targets, Tables};
ghost use Rattle.decode_setup.specs.Steps.{Made};
ghost use Rattle.stripes_cut.specs.Steps.{stripe_at};

use sizes::Sizes;

// The same, with arrays for work.
fn stripes_by(
    sizes: Sizes,
    points: &[u8],
    boards: &[usize],
    targets: &[usize],
    starts: &[usize],
    bytes: &[u8],
    first: usize,
    count: usize,
    ff: &[u8],
    gf: &[u8],
    vc: &[u8],
    tr: &[u8],
    et: &[u8],
    out: &mut [u8],
)
    requires { Asked sizes points.now boards.now × Targets sizes targets.now × (length starts.now ≡ sizes.k) × Placed sizes starts.now bytes.now (first + count) × (first + count ≤ 4096) × Tables sizes points.now boards.now targets.now ff.now gf.now vc.now tr.now et.now × (length out.old ≤ count * B sizes) × (count * B sizes ≤ length out.old + B sizes) }
    ensures { out.new ≡ take (length out.old) (join count (λ s. stripe_at sizes points.now boards.now starts.now bytes.now (first + s))) }
{
    let k = sizes.k;
    let d = sizes.d;
    let w = d + sizes.r;
    let b = sizes.stripe_len();
    let kept = k * 32;
    let values = k * w;
    let tops = (d - k) * k;
    let high = d * 32;
    let wide = w * 32;
    let mut fs = [0u8; 992];
    let mut gs = [0u8; 992];
    let mut vf = [0u8; 992];
    let mut vg = [0u8; 1024];
    let mut tp = [0u8; 256];
    let mut rows = [0u8; 992];
    let mut columns = [0u8; 1024];
    let mut u = [0u8; 992];
    stripes_cut::stripes_in(
        sizes,
        points,
        boards,
        targets,
        starts,
        bytes,
        first,
        count,
        ff,
        gf,
        vc,
        tr,
        et,
        &mut fs[0..kept],
        &mut gs[0..kept],
        &mut vf[0..values],
        &mut vg,
        &mut tp[0..tops],
        &mut rows[0..high],
        &mut columns[0..wide],
        &mut u[0..b],
        out,
    );
}

// The bytes of count stripes from the first on, as many as out has.
pub fn stripes(
    sizes: Sizes,
    points: &[u8],
    boards: &[usize],
    starts: &[usize],
    bytes: &[u8],
    first: usize,
    count: usize,
    tables: &[u8],
    out: &mut [u8],
)
    requires { Asked sizes points.now boards.now × (length starts.now ≡ sizes.k) × Placed sizes starts.now bytes.now (first + count) × (first + count ≤ 4096) × Made sizes points.now boards.now tables.now × (length out.old ≤ count * B sizes) × (count * B sizes ≤ length out.old + B sizes) }
    ensures { out.new ≡ take (length out.old) (join count (λ s. stripe_at sizes points.now boards.now starts.now bytes.now (first + s))) }
{
    let k = sizes.k;
    let d = sizes.d;
    let w = d + sizes.r;
    let f_end = k * ((sizes.n - w) * 32);
    let g = 7680;
    let g_end = g + k * ((sizes.n - d) * 32);
    let unit = 15872;
    let unit_end = unit + w * 512;
    let seed = 32256;
    let seed_end = seed + d * 512;
    let top = 48128;
    let top_end = top + (d - k) * 32;
    let mut targets = [0usize; 32];
    lagrange_factors::boards_from(sizes.n, boards[0], &mut targets[0..w]);
    stripes_by(
        sizes,
        points,
        boards,
        &targets[0..w],
        starts,
        bytes,
        first,
        count,
        &tables[0..f_end],
        &tables[g..g_end],
        &tables[unit..unit_end],
        &tables[top..top_end],
        &tables[seed..seed_end],
        out,
    );
}
