// A rebuilt stripe of each fresh board, to its place in the area.
// Assumes nothing.

#![tactic(auto)]

ghost use Rattle.std.specs.Prelude.{◌≡◌, true, ◌+◌, ◌*◌, ◌<◌, ◌≤◌, length, get_or};
ghost use Rattle.lists.specs.Tests.{below};
ghost use Rattle.sizes.specs.Sizing.{legal, α};
ghost use Rattle.area_puts.specs.Steps.{puts};
ghost use Rattle.repair_hear.specs.Steps.{Naming};
ghost use Rattle.repair_sent.specs.Steps.{stripe_by};

use sizes::Sizes;

// Stripe s of each fresh board, to its place in the area, from what all of them heard. got and f are for work.
pub fn put_stripes(
    sizes: Sizes,
    lanes: usize,
    rows: &[u8],
    part: usize,
    s: usize,
    fresh: &[usize],
    c: usize,
    seconds: &[u8],
    gs: &[u8],
    got: &mut [u8],
    f: &mut [u8],
    area: &mut [u8],
)
    requires { (legal sizes ≡ true) × (sizes.n ≤ lanes) × (lanes ≤ 32) × (length rows.now ≡ length fresh.now * ((sizes.d + (sizes.d + sizes.r)) * 32)) × (part ≤ 253952) × (s * α sizes + α sizes ≤ part) × Naming sizes (length fresh.now) c × (below sizes.n fresh.now ≡ true) × (length seconds.now ≡ length fresh.now * c) × (length gs.now ≡ length fresh.now * lanes) × (length got.old ≡ sizes.d + sizes.r) × (length f.old ≡ lanes) × (length area.old ≡ sizes.n * part) }
    ensures { area.new ≡ puts (λ a. get_or fresh.now a 0 * part + s * α sizes) (stripe_by sizes c lanes rows.now fresh.now seconds.now gs.now) (length fresh.now) area.old }
{
    let w = 2 * sizes.d + sizes.r - 1;
    for a in 0..fresh.len() {
        let from = fresh[a] * part + s * w;
        let to = from + w;
        repair_finish::finish(
            sizes,
            lanes,
            c,
            rows,
            fresh,
            seconds,
            gs,
            a,
            got,
            f,
            &mut area[from..to],
        );
    }
}
