// Rebuilding, the second step of document 01: what fresh boards send each other.
// A byte is the sum of the first bytes of the helpers, times factors that depend on the boards alone: these are made once. The definitions are
// those of the crate mbcr, over any bytes; the points of the boards differ.
// Assumes nothing.

#![tactic(auto)]

ghost use Rattle.std.specs.Prelude.{◌≡◌, true, ◌++◌, ◌+◌, ◌-◌, ◌*◌, ◌<◌, ◌≤◌, length, drop};
ghost use Rattle.lists.specs.Tests.{below, different};
ghost use Rattle.lists.specs.Lists.{tabulate};
ghost use Rattle.gf256.specs.Field.{inverse};
ghost use Rattle.sizes.specs.Sizing.{legal};
ghost use Rattle.mbcr.specs.Share.{DifferentPoints};
ghost use Rattle.mbcr.specs.Rebuild.{received, exchanged, exchange_packet};
ghost use Rattle.lagrange_factors.specs.Steps.{dot_of};

use sizes::Sizes;

// Byte b of the pair for stripe s in each of d helper packets.
pub fn received(sizes: Sizes, stripes: usize, b: usize, s: usize, packets: &[u8], out: &mut [u8])
    requires { (b < 2) × (s < stripes) × (stripes ≤ 4096) × (length packets.now ≡ sizes.d * (2 * stripes)) × (length out.old ≡ sizes.d) }
    ensures { out.new ≡ received sizes stripes b s packets.now }
{
    let w = 2 * stripes;
    for t in 0..sizes.d {
        let at = t * w + (s * 2 + b);
        out[t] = packets[at];
    }
}

// Byte s of each of r − 1 exchange packets.
pub fn exchanged(sizes: Sizes, stripes: usize, s: usize, exchanges: &[u8], out: &mut [u8])
    requires { (1 ≤ sizes.r) × (s < stripes) × (stripes ≤ 4096) × (length exchanges.now ≡ (sizes.r - 1) * stripes) × (length out.old ≡ sizes.r - 1) }
    ensures { out.new ≡ exchanged sizes stripes s exchanges.now }
{
    for t in 0..sizes.r - 1 {
        let at = t * stripes + s;
        out[t] = exchanges[at];
    }
}

// The byte of stripe s that a fresh board with these packets sends, by the factors of its helpers. vs is for work.
fn byte_in(sizes: Sizes, ff: &[u8], stripes: usize, s: usize, packets: &[u8], vs: &mut [u8]) -> u8
    requires { (sizes.d ≤ 32) × (length ff.now ≤ 32) × (s < stripes) × (stripes ≤ 4096) × (length packets.now ≡ sizes.d * (2 * stripes)) × (vs.old ≡ tabulate 32 (λ j. 0)) }
    ensures { result ≡ dot_of ff.now (received sizes stripes 0 s packets.now) }
{
    let d = sizes.d;
    received(sizes, stripes, 0, s, packets, &mut vs[0..d]);
    row_dots::dot(ff, vs)
}

// The same, with space of its own.
pub fn exchange_byte(sizes: Sizes, ff: &[u8], stripes: usize, s: usize, packets: &[u8]) -> u8
    requires { (sizes.d ≤ 32) × (length ff.now ≤ 32) × (s < stripes) × (stripes ≤ 4096) × (length packets.now ≡ sizes.d * (2 * stripes)) }
    ensures { result ≡ dot_of ff.now (received sizes stripes 0 s packets.now) }
{
    let mut vs = [0u8; 32];
    byte_in(sizes, ff, stripes, s, packets, &mut vs)
}

// Those bytes of all stripes, to the beginning of out.
fn exchange_bytes(sizes: Sizes, ff: &[u8], stripes: usize, packets: &[u8], out: &mut [u8])
    requires { (sizes.d ≤ 32) × (length ff.now ≤ 32) × (stripes ≤ 4096) × (length packets.now ≡ sizes.d * (2 * stripes)) × (stripes ≤ length out.old) }
    ensures { out.new ≡ tabulate stripes (λ s. dot_of ff.now (received sizes stripes 0 s packets.now)) ++ drop stripes out.old }
{
    for s in 0..stripes {
        out[s] = exchange_byte(sizes, ff, stripes, s, packets);
    }
}

// The exchange packet of a fresh board with these helpers and their packets for board m, to the beginning of out. ff is for work.
fn packet_in(
    sizes: Sizes,
    points: &[u8],
    inverses: &[u8],
    stripes: usize,
    helpers: &[usize],
    packets: &[u8],
    m: usize,
    ff: &mut [u8],
    out: &mut [u8],
)
    requires { (legal sizes ≡ true) × (length points.now ≡ 32) × DifferentPoints sizes points.now × (inverses.now ≡ tabulate 256 inverse) × (stripes ≤ 4096) × (length helpers.now ≡ sizes.d) × (below sizes.n helpers.now ≡ true) × (different helpers.now ≡ true) × (length packets.now ≡ sizes.d * (2 * stripes)) × (m < sizes.n) × (stripes ≤ length out.old) × (sizes.d ≤ length ff.old) × (length ff.old ≤ 32) }
    ensures { out.new ≡ exchange_packet sizes points.now stripes helpers.now packets.now m ++ drop stripes out.old }
{
    lagrange_factors::factors(points, helpers, inverses, m, ff);
    exchange_bytes(sizes, ff, stripes, packets, out);
}

// The exchange packet of a fresh board with these helpers and their packets for board m, to the beginning of out.
pub fn exchange_packet(
    sizes: Sizes,
    points: &[u8],
    inverses: &[u8],
    stripes: usize,
    helpers: &[usize],
    packets: &[u8],
    m: usize,
    out: &mut [u8],
)
    requires { (legal sizes ≡ true) × (length points.now ≡ 32) × DifferentPoints sizes points.now × (inverses.now ≡ tabulate 256 inverse) × (stripes ≤ 4096) × (length helpers.now ≡ sizes.d) × (below sizes.n helpers.now ≡ true) × (different helpers.now ≡ true) × (length packets.now ≡ sizes.d * (2 * stripes)) × (m < sizes.n) × (stripes ≤ length out.old) }
    ensures { out.new ≡ exchange_packet sizes points.now stripes helpers.now packets.now m ++ drop stripes out.old }
{
    let gl = row_values::whole_vectors(sizes.d);
    let mut ff = [0u8; 32];
    packet_in(
        sizes,
        points,
        inverses,
        stripes,
        helpers,
        packets,
        m,
        &mut ff[0..gl],
        out,
    );
}
