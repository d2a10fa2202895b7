// What the fresh boards of a repair finish of one stripe, from the bytes that all of them heard.
// Assumes nothing.

#![tactic(auto)]

ghost use Rattle.std.specs.Prelude.{◌≡◌, true, ◌+◌, ◌*◌, ◌<◌, ◌≤◌, length};
ghost use Rattle.lists.specs.Tests.{below};
ghost use Rattle.sizes.specs.Sizing.{legal, α};
ghost use Rattle.repair_hear.specs.Steps.{Naming};
ghost use Rattle.repair_sent.specs.Steps.{g_rows, stripe_by};

use sizes::Sizes;

// The values of the g of each of t fresh boards at the points of all boards, a row each, from the first bytes of its helpers, d of the c that it names.
pub fn all_g(
    sizes: Sizes,
    lanes: usize,
    t: usize,
    c: usize,
    rows: &[u8],
    firsts: &[u8],
    gs: &mut [u8],
)
    requires { (legal sizes ≡ true) × (lanes ≤ 32) × (length rows.now ≡ t * ((sizes.d + (sizes.d + sizes.r)) * 32)) × (length firsts.now ≡ t * c) × (length gs.old ≡ t * lanes) × Naming sizes t c }
    ensures { gs.new ≡ g_rows sizes t c lanes rows.now firsts.now }
{
    let d = sizes.d;
    let one = (d + (d + sizes.r)) * 32;
    for a in 0..t {
        let from = a * c;
        let to = from + d;
        let at = a * one;
        let mid = at + d * 32;
        let left = a * lanes;
        let right = left + lanes;
        row_values::row_sums(&firsts[from..to], &rows[at..mid], &mut gs[left..right]);
    }
}

// The stripe that the a-th fresh board finishes, where each names c boards. got and f are for work.
pub fn finish(
    sizes: Sizes,
    lanes: usize,
    c: usize,
    rows: &[u8],
    fresh: &[usize],
    seconds: &[u8],
    gs: &[u8],
    a: usize,
    got: &mut [u8],
    f: &mut [u8],
    out: &mut [u8],
)
    requires { (legal sizes ≡ true) × (sizes.n ≤ lanes) × (lanes ≤ 32) × (length rows.now ≡ length fresh.now * ((sizes.d + (sizes.d + sizes.r)) * 32)) × Naming sizes (length fresh.now) c × (below sizes.n fresh.now ≡ true) × (length seconds.now ≡ length fresh.now * c) × (length gs.now ≡ length fresh.now * lanes) × (a < length fresh.now) × (length got.old ≡ sizes.d + sizes.r) × (length f.old ≡ lanes) × (length out.old ≡ α sizes) }
    ensures { out.new ≡ stripe_by sizes c lanes rows.now fresh.now seconds.now gs.now a }
{
    let one = (sizes.d + (sizes.d + sizes.r)) * 32;
    let at = a * one;
    let mid = at + sizes.d * 32;
    let end = at + one;
    let left = a * lanes;
    let right = left + lanes;
    let i = fresh[a];
    repair_sent::gather(sizes, lanes, fresh.len(), c, seconds, gs, i, a, got);
    stripe_finish::finish(sizes.n, i, &rows[mid..end], &gs[left..right], got, f, out);
}
