// The stripes of a repair, one after another.
// Assumes nothing.

#![tactic(auto)]

ghost use Rattle.std.specs.Prelude.{◌≡◌, true, ◌+◌, ◌*◌, ◌<◌, ◌≤◌, length, get_or, drop};
ghost use Rattle.lists.specs.Lists.{join, piece};
ghost use Rattle.lists.specs.Tests.{below, different, apart};
ghost use Rattle.sizes.specs.Sizing.{legal, α};
ghost use Rattle.area_puts.specs.Steps.{puts};
ghost use Rattle.repair_hear.specs.Steps.{Naming};
ghost use Rattle.repair_stripe.specs.Steps.{rebuilt_by};

use sizes::Sizes;

// Stripe s of each fresh board, to its place in the area, from the same stripe of the c boards that it names, d helpers and
// then its stand-ins: by the factors ff and gf of these, of which
// fl and gl bytes of a row count, and the rows of the fresh boards, of which `lanes` do. firsts, seconds, gs, got and f are for work.
pub fn repair_stripe(
    sizes: Sizes,
    fl: usize,
    gl: usize,
    lanes: usize,
    ff: &[u8],
    gf: &[u8],
    rows: &[u8],
    part: usize,
    s: usize,
    fresh: &[usize],
    c: usize,
    named: &[usize],
    firsts: &mut [u8],
    seconds: &mut [u8],
    gs: &mut [u8],
    got: &mut [u8],
    f: &mut [u8],
    area: &mut [u8],
)
    requires { (legal sizes ≡ true) × (fl ≤ 32) × (gl ≤ 32) × (sizes.n ≤ lanes) × (lanes ≤ 32) × (length ff.now ≡ length fresh.now * c * 32) × (length gf.now ≡ length fresh.now * c * 32) × (length rows.now ≡ length fresh.now * ((sizes.d + (sizes.d + sizes.r)) * 32)) × (part ≤ 253952) × (s * α sizes + α sizes ≤ part) × Naming sizes (length fresh.now) c × (below sizes.n fresh.now ≡ true) × (length named.now ≡ length fresh.now * c) × (below sizes.n named.now ≡ true) × (length firsts.old ≡ length fresh.now * c) × (length seconds.old ≡ length fresh.now * c) × (length gs.old ≡ length fresh.now * lanes) × (length got.old ≡ sizes.d + sizes.r) × (length f.old ≡ lanes) × (length area.old ≡ sizes.n * part) }
    ensures { area.new ≡ puts (λ a. get_or fresh.now a 0 * part + s * α sizes) (rebuilt_by sizes fl gl lanes ff.now gf.now rows.now (λ j. piece (α sizes) s (drop (j * part) area.old)) fresh.now c named.now) (length fresh.now) area.old }
{
    repair_hear::hear(sizes, fl, gl, ff, gf, area, part, s, named, firsts, seconds);
    repair_finish::all_g(sizes, lanes, fresh.len(), c, rows, firsts, gs);
    repair_put::put_stripes(
        sizes, lanes, rows, part, s, fresh, c, seconds, gs, got, f, area,
    );
}

// So many stripes of each fresh board.
pub fn repair_stripes(
    sizes: Sizes,
    fl: usize,
    gl: usize,
    lanes: usize,
    ff: &[u8],
    gf: &[u8],
    rows: &[u8],
    part: usize,
    stripes: usize,
    fresh: &[usize],
    c: usize,
    named: &[usize],
    firsts: &mut [u8],
    seconds: &mut [u8],
    gs: &mut [u8],
    got: &mut [u8],
    f: &mut [u8],
    area: &mut [u8],
)
    requires { (legal sizes ≡ true) × (fl ≤ 32) × (gl ≤ 32) × (sizes.n ≤ lanes) × (lanes ≤ 32) × (length ff.now ≡ length fresh.now * c * 32) × (length gf.now ≡ length fresh.now * c * 32) × (length rows.now ≡ length fresh.now * ((sizes.d + (sizes.d + sizes.r)) * 32)) × (part ≤ 253952) × (stripes * α sizes ≤ part) × (stripes ≤ 4096) × Naming sizes (length fresh.now) c × (below sizes.n fresh.now ≡ true) × (length named.now ≡ length fresh.now * c) × (below sizes.n named.now ≡ true) × (different fresh.now ≡ true) × (apart fresh.now named.now ≡ true) × (length firsts.old ≡ length fresh.now * c) × (length seconds.old ≡ length fresh.now * c) × (length gs.old ≡ length fresh.now * lanes) × (length got.old ≡ sizes.d + sizes.r) × (length f.old ≡ lanes) × (length area.old ≡ sizes.n * part) }
    ensures { area.new ≡ puts (λ a. get_or fresh.now a 0 * part) (λ a. join stripes (λ s. rebuilt_by sizes fl gl lanes ff.now gf.now rows.now (λ j. piece (α sizes) s (drop (j * part) area.old)) fresh.now c named.now a)) (length fresh.now) area.old }
{
    for s in 0..stripes {
        repair_stripe(
            sizes, fl, gl, lanes, ff, gf, rows, part, s, fresh, c, named, firsts, seconds, gs, got,
            f, area,
        );
    }
}
