// The packets of a started repair by kind, each to its place in the packet area: the p-th helper packet, stand-in's packet and exchange.
// Assumes nothing.

#![tactic(auto)]

ghost use Rattle.std.specs.Prelude.{◌≡◌, true, ◌+◌, ◌-◌, ◌*◌, ◌<◌, ◌≤◌, length};
ghost use Rattle.lists.specs.Lists.{tabulate, put};
ghost use Rattle.gf256.specs.Field.{inverse};
ghost use Rattle.sizes.specs.Sizing.{legal, α};
ghost use Rattle.mbcr.specs.Share.{DifferentPoints};
ghost use Rattle.step_laws.specs.Steps.{Served, DifferentEach, helper_at, stand_in_at, exchange_at};

use sizes::Sizes;

// The p-th helper packet, to place `at`.
pub fn carry_helper(
    sizes: Sizes,
    points: &[u8],
    inverses: &[u8],
    capacity: usize,
    stripes: usize,
    fresh: &[usize],
    helpers: &[usize],
    area: &[u8],
    p: usize,
    at: usize,
    packets: &mut [u8],
)
    requires { (legal sizes ≡ true) × (length points.now ≡ 32) × DifferentPoints sizes points.now × (inverses.now ≡ tabulate 256 inverse) × (capacity ≤ 4096) × (stripes ≤ capacity) × Served sizes.n sizes.d fresh.now helpers.now × (length area.now ≡ sizes.n * (capacity * α sizes)) × (p < length helpers.now) × (at + 2 * stripes ≤ length packets.old) }
    ensures { packets.new ≡ put packets.old at (helper_at sizes points.now capacity stripes fresh.now helpers.now area.now p) }
{
    let a = p / sizes.d;
    step_sent::helper_at(
        sizes, points, inverses, capacity, stripes, helpers[p], fresh[a], area, at, packets,
    );
}

// The p-th stand-in's packet, to place `at`.
pub fn carry_stand_in(
    sizes: Sizes,
    points: &[u8],
    inverses: &[u8],
    capacity: usize,
    stripes: usize,
    fresh: &[usize],
    standins: &[usize],
    area: &[u8],
    p: usize,
    at: usize,
    packets: &mut [u8],
)
    requires { (legal sizes ≡ true) × (length points.now ≡ 32) × DifferentPoints sizes points.now × (inverses.now ≡ tabulate 256 inverse) × (capacity ≤ 4096) × (stripes ≤ capacity) × (length fresh.now ≤ sizes.r) × Served sizes.n (sizes.r - length fresh.now) fresh.now standins.now × (length area.now ≡ sizes.n * (capacity * α sizes)) × (p < length standins.now) × (at + stripes ≤ length packets.old) }
    ensures { packets.new ≡ put packets.old at (stand_in_at sizes points.now capacity stripes fresh.now standins.now area.now p) }
{
    let a = p / (sizes.r - fresh.len());
    step_sent::stand_in_at(
        sizes,
        points,
        inverses,
        capacity,
        stripes,
        standins[p],
        fresh[a],
        area,
        at,
        packets,
    );
}

// The p-th exchange, to place `at`.
pub fn carry_exchange(
    sizes: Sizes,
    points: &[u8],
    inverses: &[u8],
    stripes: usize,
    fresh: &[usize],
    helpers: &[usize],
    p: usize,
    at: usize,
    packets: &mut [u8],
)
    requires { (legal sizes ≡ true) × (length points.now ≡ 32) × DifferentPoints sizes points.now × (inverses.now ≡ tabulate 256 inverse) × (stripes ≤ 4096) × (length fresh.now ≤ 32) × Served sizes.n sizes.d fresh.now helpers.now × DifferentEach sizes.d fresh.now helpers.now × (p < length fresh.now * (length fresh.now - 1)) × (length fresh.now * (sizes.d * (2 * stripes)) ≤ at) × (at + stripes ≤ length packets.old) }
    ensures { packets.new ≡ put packets.old at (exchange_at sizes points.now stripes fresh.now helpers.now packets.old p) }
{
    let m = fresh.len() - 1;
    let hears = p / m;
    let sends = repair_rows::past(hears, p % m);
    let d = sizes.d;
    let start = sends * d;
    let end = start + d;
    let from = sends * (d * (2 * stripes));
    step_exchange::exchange_at(
        sizes,
        points,
        inverses,
        stripes,
        &helpers[start..end],
        from,
        fresh[hears],
        at,
        packets,
    );
}
