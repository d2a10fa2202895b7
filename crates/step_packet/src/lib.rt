// What a step of a started repair carries: packet after packet, each made of what the boards hold then or of the packets lying there, to its place in
// the packet area.
// Assumes nothing.

#![tactic(auto)]

ghost use Rattle.std.specs.Prelude.{◌≡◌, true, List, ℕ, ◌+◌, ◌-◌, ◌*◌, ◌<◌, ◌≤◌, min, length};
ghost use Rattle.lists.specs.Lists.{tabulate, put};
ghost use Rattle.gf256.specs.Field.{inverse};
ghost use Rattle.sizes.specs.Sizing.{legal, α};
ghost use Rattle.mbcr.specs.Share.{DifferentPoints};
ghost use Rattle.store_spec.specs.Record.{Record, stripe_count};
ghost use Rattle.beside_spec.specs.Lying.{carry};
ghost use Rattle.step_laws.specs.Steps.{Listed, place_at, packet_at, carry_at};

use sizes::Sizes;

// Where packet q begins, where the first h have two bytes for each stripe and all others one.
fn place(h: usize, stripes: usize, q: usize) -> usize
    requires { (h ≤ 1024) × (q ≤ 2048) × (stripes ≤ 4096) }
    ensures { result ≡ (q + min q h) * stripes }
{
    if q < h {
        (q + q) * stripes
    } else {
        (q + h) * stripes
    }
}

// Packet q, to place `at`.
fn carry_packet(
    sizes: Sizes,
    points: &[u8],
    inverses: &[u8],
    capacity: usize,
    stripes: usize,
    fresh: &[usize],
    helpers: &[usize],
    standins: &[usize],
    area: &[u8],
    q: usize,
    at: usize,
    packets: &mut [u8],
)
    requires { (legal sizes ≡ true) × (length points.now ≡ 32) × DifferentPoints sizes points.now × (inverses.now ≡ tabulate 256 inverse) × Listed sizes fresh.now helpers.now standins.now × (capacity ≤ 4096) × (stripes ≤ capacity) × (length area.now ≡ sizes.n * (capacity * α sizes)) × (q < length fresh.now * (sizes.d + sizes.r - 1)) × (at ≡ place_at sizes stripes (length fresh.now) q) × (length packets.old ≡ stripes * length fresh.now * α sizes) }
    ensures { packets.new ≡ put packets.old at (packet_at sizes points.now capacity stripes fresh.now helpers.now standins.now area.now q packets.old) }
{
    let h = helpers.len();
    let e = standins.len();
    if q < h {
        step_kinds::carry_helper(
            sizes, points, inverses, capacity, stripes, fresh, helpers, area, q, at, packets,
        );
        return;
    }
    let p = q - h;
    if p < e {
        step_kinds::carry_stand_in(
            sizes, points, inverses, capacity, stripes, fresh, standins, area, p, at, packets,
        );
        return;
    }
    step_kinds::carry_exchange(
        sizes,
        points,
        inverses,
        stripes,
        fresh,
        helpers,
        p - e,
        at,
        packets,
    );
}

// So many packets, from one on.
fn carry_all(
    sizes: Sizes,
    points: &[u8],
    inverses: &[u8],
    capacity: usize,
    stripes: usize,
    fresh: &[usize],
    helpers: &[usize],
    standins: &[usize],
    area: &[u8],
    from: usize,
    count: usize,
    packets: &mut [u8],
)
    requires { (legal sizes ≡ true) × (length points.now ≡ 32) × DifferentPoints sizes points.now × (inverses.now ≡ tabulate 256 inverse) × Listed sizes fresh.now helpers.now standins.now × (capacity ≤ 4096) × (stripes ≤ capacity) × (length area.now ≡ sizes.n * (capacity * α sizes)) × (from + count ≤ length fresh.now * (sizes.d + sizes.r - 1)) × (length packets.old ≡ stripes * length fresh.now * α sizes) }
    ensures { packets.new ≡ carry_at sizes points.now capacity stripes fresh.now helpers.now standins.now area.now from count packets.old }
{
    let h = helpers.len();
    let end = from + count;
    for q in from..end {
        let at = place(h, stripes, q);
        carry_packet(
            sizes, points, inverses, capacity, stripes, fresh, helpers, standins, area, q, at,
            packets,
        );
    }
}

// So many packets, from one on, of the repair of the fresh boards by these lists: each is made of what the boards hold in the area, or of the packets
// lying there, and put at its place.
pub fn carry_packets(
    sizes: Sizes,
    points: &[u8],
    capacity: usize,
    stripes: usize,
    fresh: &[usize],
    helpers: &[usize],
    standins: &[usize],
    area: &[u8],
    from: usize,
    count: usize,
    packets: &mut [u8],
)
    requires { (legal sizes ≡ true) × (length points.now ≡ 32) × DifferentPoints sizes points.now × Listed sizes fresh.now helpers.now standins.now × (capacity ≤ 4096) × (stripes ≤ capacity) × (length area.now ≡ sizes.n * (capacity * α sizes)) × (from + count ≤ length fresh.now * (sizes.d + sizes.r - 1)) × (length packets.old ≡ stripes * length fresh.now * α sizes) }
    ensures { (s : Record) → s.sizes ≡ sizes → s.points ≡ points.now → s.capacity ≡ capacity → stripe_count s ≡ stripes → packets.new ≡ carry s fresh.now helpers.now standins.now area.now from count packets.old }
{
    let mut inverses = [0u8; 256];
    inverses::fill_inverses(&mut inverses);
    carry_all(
        sizes, points, &inverses, capacity, stripes, fresh, helpers, standins, area, from, count,
        packets,
    );
}
