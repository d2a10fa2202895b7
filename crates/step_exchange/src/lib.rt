// An exchange packet of a started repair, made inside the packet area: from the helper packets of its sender that lie there, to its own place.
// Assumes nothing.

#![tactic(auto)]

ghost use Rattle.std.specs.Prelude.{◌≡◌, true, ◌+◌, ◌*◌, ◌<◌, ◌≤◌, length, take, drop};
ghost use Rattle.lists.specs.Tests.{below, different};
ghost use Rattle.lists.specs.Lists.{tabulate, put};
ghost use Rattle.gf256.specs.Field.{inverse};
ghost use Rattle.sizes.specs.Sizing.{legal};
ghost use Rattle.mbcr.specs.Share.{DifferentPoints};
ghost use Rattle.mbcr.specs.Rebuild.{received, exchange_packet};
ghost use Rattle.lagrange_factors.specs.Steps.{dot_of};

use sizes::Sizes;

// The bytes of all stripes that a fresh board sends, by the factors of its helpers: their packets begin at `from`, and the bytes go to `at`.
fn bytes_at(sizes: Sizes, ff: &[u8], stripes: usize, from: usize, at: usize, packets: &mut [u8])
    requires { (sizes.d ≤ 32) × (length ff.now ≤ 32) × (stripes ≤ 4096) × (from + sizes.d * (2 * stripes) ≤ at) × (at + stripes ≤ length packets.old) }
    ensures { packets.new ≡ put packets.old at (tabulate stripes (λ s. dot_of ff.now (received sizes stripes 0 s (take (sizes.d * (2 * stripes)) (drop from packets.old))))) }
{
    let to = from + sizes.d * (2 * stripes);
    for s in 0..stripes {
        let b = stripe_exchange::exchange_byte(sizes, ff, stripes, s, &packets[from..to]);
        packets[at + s] = b;
    }
}

// The exchange packet for board m of a fresh board with these helpers, whose packets begin at `from`, to place `at`. ff is for work.
fn exchange_in(
    sizes: Sizes,
    points: &[u8],
    inverses: &[u8],
    stripes: usize,
    helpers: &[usize],
    from: usize,
    m: usize,
    at: usize,
    ff: &mut [u8],
    packets: &mut [u8],
)
    requires { (legal sizes ≡ true) × (length points.now ≡ 32) × DifferentPoints sizes points.now × (inverses.now ≡ tabulate 256 inverse) × (stripes ≤ 4096) × (length helpers.now ≡ sizes.d) × (below sizes.n helpers.now ≡ true) × (different helpers.now ≡ true) × (m < sizes.n) × (from + sizes.d * (2 * stripes) ≤ at) × (at + stripes ≤ length packets.old) × (sizes.d ≤ length ff.old) × (length ff.old ≤ 32) }
    ensures { packets.new ≡ put packets.old at (exchange_packet sizes points.now stripes helpers.now (take (sizes.d * (2 * stripes)) (drop from packets.old)) m) }
{
    lagrange_factors::factors(points, helpers, inverses, m, ff);
    bytes_at(sizes, ff, stripes, from, at, packets);
}

// The exchange packet for board m of a fresh board with these helpers, whose packets begin at `from`, to place `at`.
pub fn exchange_at(
    sizes: Sizes,
    points: &[u8],
    inverses: &[u8],
    stripes: usize,
    helpers: &[usize],
    from: usize,
    m: usize,
    at: usize,
    packets: &mut [u8],
)
    requires { (legal sizes ≡ true) × (length points.now ≡ 32) × DifferentPoints sizes points.now × (inverses.now ≡ tabulate 256 inverse) × (stripes ≤ 4096) × (length helpers.now ≡ sizes.d) × (below sizes.n helpers.now ≡ true) × (different helpers.now ≡ true) × (m < sizes.n) × (from + sizes.d * (2 * stripes) ≤ at) × (at + stripes ≤ length packets.old) }
    ensures { packets.new ≡ put packets.old at (exchange_packet sizes points.now stripes helpers.now (take (sizes.d * (2 * stripes)) (drop from packets.old)) m) }
{
    let gl = row_values::whole_vectors(sizes.d);
    let mut ff = [0u8; 32];
    exchange_in(
        sizes,
        points,
        inverses,
        stripes,
        helpers,
        from,
        m,
        at,
        &mut ff[0..gl],
        packets,
    );
}
