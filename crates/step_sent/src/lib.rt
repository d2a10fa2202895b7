// The packets of one board of a started repair, from what it holds in the area to a place in the packet area.
// Assumes nothing.

#![tactic(auto)]

ghost use Rattle.std.specs.Prelude.{◌≡◌, true, ◌+◌, ◌*◌, ◌<◌, ◌≤◌, length};
ghost use Rattle.lists.specs.Lists.{tabulate, put};
ghost use Rattle.gf256.specs.Field.{inverse};
ghost use Rattle.sizes.specs.Sizing.{legal, α};
ghost use Rattle.mbcr.specs.Share.{DifferentPoints};
ghost use Rattle.mbcr.specs.Rebuild.{helper_packet, stand_in_packet};
ghost use Rattle.step_laws.specs.Steps.{held_at};

use sizes::Sizes;

// The packet of helper j for board i, to place `at`.
pub fn helper_at(
    sizes: Sizes,
    points: &[u8],
    inverses: &[u8],
    capacity: usize,
    stripes: usize,
    j: usize,
    i: usize,
    area: &[u8],
    at: usize,
    packets: &mut [u8],
)
    requires { (legal sizes ≡ true) × (length points.now ≡ 32) × DifferentPoints sizes points.now × (inverses.now ≡ tabulate 256 inverse) × (capacity ≤ 4096) × (stripes ≤ capacity) × (j < sizes.n) × (i < sizes.n) × (length area.now ≡ sizes.n * (capacity * α sizes)) × (at + 2 * stripes ≤ length packets.old) }
    ensures { packets.new ≡ put packets.old at (helper_packet sizes points.now stripes j i (held_at sizes capacity stripes area.now j)) }
{
    let w = 2 * sizes.d + sizes.r - 1;
    let from = j * (capacity * w);
    let to = from + stripes * w;
    let end = at + 2 * stripes;
    stripe_helper::helper_packet(
        sizes,
        points,
        inverses,
        stripes,
        j,
        i,
        &area[from..to],
        &mut packets[at..end],
    );
}

// The packet of stand-in j for board i, to place `at`.
pub fn stand_in_at(
    sizes: Sizes,
    points: &[u8],
    inverses: &[u8],
    capacity: usize,
    stripes: usize,
    j: usize,
    i: usize,
    area: &[u8],
    at: usize,
    packets: &mut [u8],
)
    requires { (legal sizes ≡ true) × (length points.now ≡ 32) × DifferentPoints sizes points.now × (inverses.now ≡ tabulate 256 inverse) × (capacity ≤ 4096) × (stripes ≤ capacity) × (j < sizes.n) × (i < sizes.n) × (length area.now ≡ sizes.n * (capacity * α sizes)) × (at + stripes ≤ length packets.old) }
    ensures { packets.new ≡ put packets.old at (stand_in_packet sizes points.now stripes j i (held_at sizes capacity stripes area.now j)) }
{
    let w = 2 * sizes.d + sizes.r - 1;
    let from = j * (capacity * w);
    let to = from + stripes * w;
    let end = at + stripes;
    stand_in::stand_in_packet(
        sizes,
        points,
        inverses,
        stripes,
        j,
        i,
        &area[from..to],
        &mut packets[at..end],
    );
}
