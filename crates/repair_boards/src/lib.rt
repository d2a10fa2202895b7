// A repair by its lists: each fresh board's helpers and stand-ins are put in one list, and the stripes rebuilt from the boards named there.
// Assumes nothing.

#![tactic(auto)]

ghost use Rattle.std.specs.Prelude.{◌≡◌, true, ◌++◌, ◌+◌, ◌-◌, ◌*◌, ◌<◌, ◌≤◌, length, get_or, drop};
ghost use Rattle.lists.specs.Lists.{tabulate, join, piece};
ghost use Rattle.lists.specs.Tests.{below, different, apart};
ghost use Rattle.gf256.specs.Field.{inverse};
ghost use Rattle.sizes.specs.Sizing.{legal, α};
ghost use Rattle.mbcr.specs.Share.{DifferentPoints};
ghost use Rattle.area_puts.specs.Steps.{puts};
ghost use Rattle.repair_hear.specs.Steps.{Naming};
ghost use Rattle.repair_stripe.specs.Steps.{DifferentRuns, rebuilt};

use sizes::Sizes;

// All stripes of the fresh boards, each to its place in the area, where each names c boards. named is for work.
pub fn repair_lists(
    sizes: Sizes,
    capacity: usize,
    points: &[u8],
    inverses: &[u8],
    stripes: usize,
    fresh: &[usize],
    c: usize,
    helpers: &[usize],
    standins: &[usize],
    named: &mut [usize],
    area: &mut [u8],
)
    requires { (legal sizes ≡ true) × (length points.now ≡ 32) × DifferentPoints sizes points.now × (inverses.now ≡ tabulate 256 inverse) × Naming sizes (length fresh.now) c × (below sizes.n fresh.now ≡ true) × (length helpers.now ≡ length fresh.now * sizes.d) × (below sizes.n helpers.now ≡ true) × (length standins.now ≡ length fresh.now * (c - sizes.d)) × (below sizes.n standins.now ≡ true) × (different fresh.now ≡ true) × (apart fresh.now helpers.now ≡ true) × (apart fresh.now standins.now ≡ true) × DifferentRuns c fresh.now (join (length fresh.now) (λ a. piece sizes.d a helpers.now ++ piece (c - sizes.d) a standins.now)) × (capacity ≤ 4096) × (stripes ≤ capacity) × (length named.old ≡ length fresh.now * c) × (length area.old ≡ sizes.n * (capacity * α sizes)) }
    ensures { area.new ≡ puts (λ a. get_or fresh.now a 0 * (capacity * α sizes)) (λ a. join stripes (λ s. rebuilt sizes points.now (λ j. piece (α sizes) s (drop (j * (capacity * α sizes)) area.old)) fresh.now c (join (length fresh.now) (λ b. piece sizes.d b helpers.now ++ piece (c - sizes.d) b standins.now)) a)) (length fresh.now) area.old }
{
    let t = fresh.len();
    let d = sizes.d;
    let e = c - d;
    named_boards::name_boards(t, d, e, helpers, standins, named);
    store_repair::repair_area(
        sizes, capacity, points, inverses, stripes, fresh, c, named, area,
    );
}

// All stripes of the fresh boards, each to its place in the area, from its d helpers and its r − t stand-ins, where t boards are fresh.
pub fn repair_shares(
    sizes: Sizes,
    capacity: usize,
    points: &[u8],
    inverses: &[u8],
    stripes: usize,
    fresh: &[usize],
    helpers: &[usize],
    standins: &[usize],
    area: &mut [u8],
)
    requires { (legal sizes ≡ true) × (length points.now ≡ 32) × DifferentPoints sizes points.now × (inverses.now ≡ tabulate 256 inverse) × (1 ≤ length fresh.now) × (length fresh.now ≤ sizes.r) × (below sizes.n fresh.now ≡ true) × (length helpers.now ≡ length fresh.now * sizes.d) × (below sizes.n helpers.now ≡ true) × (length standins.now ≡ length fresh.now * (sizes.r - length fresh.now)) × (below sizes.n standins.now ≡ true) × (different fresh.now ≡ true) × (apart fresh.now helpers.now ≡ true) × (apart fresh.now standins.now ≡ true) × DifferentRuns (sizes.d + (sizes.r - length fresh.now)) fresh.now (join (length fresh.now) (λ a. piece sizes.d a helpers.now ++ piece (sizes.r - length fresh.now) a standins.now)) × (capacity ≤ 4096) × (stripes ≤ capacity) × (length area.old ≡ sizes.n * (capacity * α sizes)) }
    ensures { area.new ≡ puts (λ a. get_or fresh.now a 0 * (capacity * α sizes)) (λ a. join stripes (λ s. rebuilt sizes points.now (λ j. piece (α sizes) s (drop (j * (capacity * α sizes)) area.old)) fresh.now (sizes.d + (sizes.r - length fresh.now)) (join (length fresh.now) (λ b. piece sizes.d b helpers.now ++ piece (sizes.r - length fresh.now) b standins.now)) a)) (length fresh.now) area.old }
{
    let t = fresh.len();
    let c = sizes.d + (sizes.r - t);
    let m = t * c;
    let mut named = [0usize; 256];
    repair_lists(
        sizes,
        capacity,
        points,
        inverses,
        stripes,
        fresh,
        c,
        helpers,
        standins,
        &mut named[0..m],
        area,
    );
}
