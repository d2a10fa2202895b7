// A repair, stripe by stripe in the lent area: what depends on the boards alone is made once, and there is room for one stripe's bytes.
// Assumes nothing.

#![tactic(auto)]

ghost use Rattle.std.specs.Prelude.{◌≡◌, true, ◌+◌, ◌*◌, ◌≤◌, length, get_or, drop};
ghost use Rattle.lists.specs.Lists.{tabulate, join, piece};
ghost use Rattle.lists.specs.Tests.{below, different, apart};
ghost use Rattle.gf256.specs.Field.{inverse};
ghost use Rattle.sizes.specs.Sizing.{legal, α};
ghost use Rattle.mbcr.specs.Share.{DifferentPoints};
ghost use Rattle.area_puts.specs.Steps.{puts};
ghost use Rattle.repair_hear.specs.Steps.{Naming};
ghost use Rattle.repair_stripe.specs.Steps.{DifferentRuns, rebuilt, rebuilt_by};

use sizes::Sizes;

// The same, with space of its own.
fn repair_work(
    sizes: Sizes,
    fl: usize,
    gl: usize,
    lanes: usize,
    ff: &[u8],
    gf: &[u8],
    rows: &[u8],
    part: usize,
    stripes: usize,
    fresh: &[usize],
    c: usize,
    named: &[usize],
    area: &mut [u8],
)
    requires { (legal sizes ≡ true) × (fl ≤ 32) × (gl ≤ 32) × (sizes.n ≤ lanes) × (lanes ≤ 32) × (length ff.now ≡ length fresh.now * c * 32) × (length gf.now ≡ length fresh.now * c * 32) × (length rows.now ≡ length fresh.now * ((sizes.d + (sizes.d + sizes.r)) * 32)) × (part ≤ 253952) × (stripes * α sizes ≤ part) × (stripes ≤ 4096) × Naming sizes (length fresh.now) c × (below sizes.n fresh.now ≡ true) × (length named.now ≡ length fresh.now * c) × (below sizes.n named.now ≡ true) × (different fresh.now ≡ true) × (apart fresh.now named.now ≡ true) × (length area.old ≡ sizes.n * part) }
    ensures { area.new ≡ puts (λ a. get_or fresh.now a 0 * part) (λ a. join stripes (λ s. rebuilt_by sizes fl gl lanes ff.now gf.now rows.now (λ j. piece (α sizes) s (drop (j * part) area.old)) fresh.now c named.now a)) (length fresh.now) area.old }
{
    let m = named.len();
    let e = fresh.len() * lanes;
    let w = sizes.d + sizes.r;
    let mut firsts = [0u8; 256];
    let mut seconds = [0u8; 256];
    let mut gs = [0u8; 1024];
    let mut got = [0u8; 32];
    let mut f = [0u8; 32];
    repair_stripe::repair_stripes(
        sizes,
        fl,
        gl,
        lanes,
        ff,
        gf,
        rows,
        part,
        stripes,
        fresh,
        c,
        named,
        &mut firsts[0..m],
        &mut seconds[0..m],
        &mut gs[0..e],
        &mut got[0..w],
        &mut f[0..lanes],
        area,
    );
}

// All stripes of the fresh boards, each to its place in the area, from the same stripe of the c boards that it names. ff, gf and rows are for work.
fn repair_in(
    sizes: Sizes,
    points: &[u8],
    inverses: &[u8],
    part: usize,
    stripes: usize,
    fresh: &[usize],
    c: usize,
    named: &[usize],
    ff: &mut [u8],
    gf: &mut [u8],
    rows: &mut [u8],
    area: &mut [u8],
)
    requires { (legal sizes ≡ true) × (length points.now ≡ 32) × DifferentPoints sizes points.now × (inverses.now ≡ tabulate 256 inverse) × (part ≤ 253952) × (stripes * α sizes ≤ part) × (stripes ≤ 4096) × Naming sizes (length fresh.now) c × (below sizes.n fresh.now ≡ true) × (length named.now ≡ length fresh.now * c) × (below sizes.n named.now ≡ true) × (different fresh.now ≡ true) × (apart fresh.now named.now ≡ true) × DifferentRuns c fresh.now named.now × (length ff.old ≡ length fresh.now * c * 32) × (length gf.old ≡ length fresh.now * c * 32) × (length rows.old ≡ length fresh.now * ((sizes.d + (sizes.d + sizes.r)) * 32)) × (length area.old ≡ sizes.n * part) }
    ensures { area.new ≡ puts (λ a. get_or fresh.now a 0 * part) (λ a. join stripes (λ s. rebuilt sizes points.now (λ j. piece (α sizes) s (drop (j * part) area.old)) fresh.now c named.now a)) (length fresh.now) area.old }
{
    let n = sizes.n;
    let d = sizes.d;
    let w = d + sizes.r;
    let fl = row_values::whole_vectors(w);
    let gl = row_values::whole_vectors(d);
    let lanes = row_values::whole_vectors(n);
    repair_factors::all_pair_rows(n, c, w, points, fresh, named, inverses, ff);
    repair_factors::all_pair_rows(n, c, d, points, fresh, named, inverses, gf);
    repair_rows::all_rows(sizes, points, inverses, fresh, c, named, rows);
    repair_work(
        sizes, fl, gl, lanes, ff, gf, rows, part, stripes, fresh, c, named, area,
    );
}

// All stripes of the fresh boards, each to its place in the area, from the same stripe of the c boards that it names.
pub fn repair_area(
    sizes: Sizes,
    capacity: usize,
    points: &[u8],
    inverses: &[u8],
    stripes: usize,
    fresh: &[usize],
    c: usize,
    named: &[usize],
    area: &mut [u8],
)
    requires { (legal sizes ≡ true) × (length points.now ≡ 32) × DifferentPoints sizes points.now × (inverses.now ≡ tabulate 256 inverse) × Naming sizes (length fresh.now) c × (below sizes.n fresh.now ≡ true) × (length named.now ≡ length fresh.now * c) × (below sizes.n named.now ≡ true) × (different fresh.now ≡ true) × (apart fresh.now named.now ≡ true) × DifferentRuns c fresh.now named.now × (capacity ≤ 4096) × (stripes ≤ capacity) × (length area.old ≡ sizes.n * (capacity * α sizes)) }
    ensures { area.new ≡ puts (λ a. get_or fresh.now a 0 * (capacity * α sizes)) (λ a. join stripes (λ s. rebuilt sizes points.now (λ j. piece (α sizes) s (drop (j * (capacity * α sizes)) area.old)) fresh.now c named.now a)) (length fresh.now) area.old }
{
    let part = capacity * (2 * sizes.d + sizes.r - 1);
    let m = named.len() * 32;
    let e = fresh.len() * ((sizes.d + (sizes.d + sizes.r)) * 32);
    let mut ff = [0u8; 8192];
    let mut gf = [0u8; 8192];
    let mut rows = [0u8; 32768];
    repair_in(
        sizes,
        points,
        inverses,
        part,
        stripes,
        fresh,
        c,
        named,
        &mut ff[0..m],
        &mut gf[0..m],
        &mut rows[0..e],
        area,
    );
}
