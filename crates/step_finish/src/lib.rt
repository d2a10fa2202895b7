// The shares that the last step of a started repair writes: each fresh board's from the packets that lie for it in the packet area, to its place in the
// area.
// Assumes nothing.

#![tactic(auto)]

ghost use Rattle.std.specs.Prelude.{◌≡◌, true, List, ℕ, ◌+◌, ◌*◌, ◌<◌, ◌≤◌, length, get_or};
ghost use Rattle.lists.specs.Lists.{tabulate, put};
ghost use Rattle.gf256.specs.Field.{inverse};
ghost use Rattle.sizes.specs.Sizing.{legal, α};
ghost use Rattle.mbcr.specs.Share.{DifferentPoints};
ghost use Rattle.area_puts.specs.Steps.{puts};
ghost use Rattle.store_spec.specs.Record.{Record, stripe_count, put_shares};
ghost use Rattle.beside_spec.specs.Lying.{share_lying};
ghost use Rattle.step_laws.specs.Steps.{Listed, share_at};

use sizes::Sizes;

// The share of the a-th fresh board, to its place.
fn finish_board(
    sizes: Sizes,
    points: &[u8],
    inverses: &[u8],
    capacity: usize,
    stripes: usize,
    fresh: &[usize],
    helpers: &[usize],
    standins: &[usize],
    packets: &[u8],
    a: usize,
    area: &mut [u8],
)
    requires { (legal sizes ≡ true) × (length points.now ≡ 32) × DifferentPoints sizes points.now × (inverses.now ≡ tabulate 256 inverse) × Listed sizes fresh.now helpers.now standins.now × (capacity ≤ 4096) × (stripes ≤ capacity) × (length packets.now ≡ stripes * length fresh.now * α sizes) × (length area.old ≡ sizes.n * (capacity * α sizes)) × (a < length fresh.now) }
    ensures { area.new ≡ put area.old (get_or fresh.now a 0 * (capacity * α sizes)) (share_at sizes points.now stripes fresh.now helpers.now standins.now packets.now a) }
{
    let w = 2 * sizes.d + sizes.r - 1;
    let d = sizes.d;
    let e = sizes.r - fresh.len();
    let from = a * d;
    let to = from + d;
    let start = a * e;
    let end = start + e;
    let board = fresh[a];
    let at = board * (capacity * w);
    let next = at + stripes * w;
    step_board::share_of(
        sizes,
        points,
        inverses,
        stripes,
        fresh,
        &helpers[from..to],
        &standins[start..end],
        a,
        packets,
        &mut area[at..next],
    );
}

// The shares of all fresh boards, each to its place.
fn finish_all(
    sizes: Sizes,
    points: &[u8],
    inverses: &[u8],
    capacity: usize,
    stripes: usize,
    fresh: &[usize],
    helpers: &[usize],
    standins: &[usize],
    packets: &[u8],
    area: &mut [u8],
)
    requires { (legal sizes ≡ true) × (length points.now ≡ 32) × DifferentPoints sizes points.now × (inverses.now ≡ tabulate 256 inverse) × Listed sizes fresh.now helpers.now standins.now × (capacity ≤ 4096) × (stripes ≤ capacity) × (length packets.now ≡ stripes * length fresh.now * α sizes) × (length area.old ≡ sizes.n * (capacity * α sizes)) }
    ensures { area.new ≡ puts (λ a. get_or fresh.now a 0 * (capacity * α sizes)) (share_at sizes points.now stripes fresh.now helpers.now standins.now packets.now) (length fresh.now) area.old }
{
    for a in 0..fresh.len() {
        finish_board(
            sizes, points, inverses, capacity, stripes, fresh, helpers, standins, packets, a, area,
        );
    }
}

// The share of each fresh board by these lists, of just the packets that lie in the packet area, to its place in the area.
pub fn finish_shares(
    sizes: Sizes,
    points: &[u8],
    capacity: usize,
    stripes: usize,
    fresh: &[usize],
    helpers: &[usize],
    standins: &[usize],
    packets: &[u8],
    area: &mut [u8],
)
    requires { (legal sizes ≡ true) × (length points.now ≡ 32) × DifferentPoints sizes points.now × Listed sizes fresh.now helpers.now standins.now × (capacity ≤ 4096) × (stripes ≤ capacity) × (length packets.now ≡ stripes * length fresh.now * α sizes) × (length area.old ≡ sizes.n * (capacity * α sizes)) }
    ensures { (s : Record) → s.sizes ≡ sizes → s.points ≡ points.now → s.capacity ≡ capacity → stripe_count s ≡ stripes → area.new ≡ put_shares s (share_lying s fresh.now helpers.now standins.now packets.now) fresh.now area.old }
{
    let mut inverses = [0u8; 256];
    inverses::fill_inverses(&mut inverses);
    finish_all(
        sizes, points, &inverses, capacity, stripes, fresh, helpers, standins, packets, area,
    );
}
