// Rebuilding with stand-ins: what a stand-in sends, the second bytes of its helper packet.
// A byte is a sum of the bytes that the stand-in keeps, times factors that depend on the two boards alone: these are made once. The definitions
// are those of the crate mbcr, over any bytes; the points of the boards differ.
// Assumes nothing.

#![tactic(auto)]

ghost use Rattle.std.specs.Prelude.{◌≡◌, true, ◌++◌, ◌+◌, ◌-◌, ◌*◌, ◌<◌, ◌≤◌, length, take, drop};
ghost use Rattle.lists.specs.Lists.{tabulate, piece};
ghost use Rattle.gf256.specs.Field.{inverse};
ghost use Rattle.sizes.specs.Sizing.{legal, α};
ghost use Rattle.mbcr.specs.Share.{DifferentPoints};
ghost use Rattle.mbcr.specs.Rebuild.{stand_in_packet};
ghost use Rattle.lagrange_factors.specs.Steps.{dot_of};

use sizes::Sizes;

// The byte of a stand-in that keeps these bytes of a stripe, w of them of f, by its factors of g. f and g are for work.
fn byte_in(d: usize, w: usize, gf: &[u8], held: &[u8], f: &mut [u8], g: &mut [u8]) -> u8
    requires { (1 ≤ d) × (1 ≤ w) × (length held.now ≡ w + d - 1) × (length gf.now ≤ 32) × (w ≤ 32) × (d ≤ 32) × (f.old ≡ tabulate 32 (λ j. 0)) × (g.old ≡ tabulate 32 (λ j. 0)) }
    ensures { result ≡ dot_of gf.now (take 1 held.now ++ drop w held.now) }
{
    own_rows::own_rows(d, w, held, f, g);
    row_dots::dot(gf, g)
}

// The same, with space of its own.
fn second_byte(d: usize, w: usize, gf: &[u8], held: &[u8]) -> u8
    requires { (1 ≤ d) × (1 ≤ w) × (length held.now ≡ w + d - 1) × (length gf.now ≤ 32) × (w ≤ 32) × (d ≤ 32) }
    ensures { result ≡ dot_of gf.now (take 1 held.now ++ drop w held.now) }
{
    let mut f = [0u8; 32];
    let mut g = [0u8; 32];
    byte_in(d, w, gf, held, &mut f, &mut g)
}

// The bytes of all stripes of a stand-in that holds these bytes, to the beginning of out.
fn second_bytes(d: usize, w: usize, gf: &[u8], stripes: usize, held: &[u8], out: &mut [u8])
    requires { (1 ≤ d) × (1 ≤ w) × (length held.now ≡ stripes * (w + d - 1)) × (length gf.now ≤ 32) × (w ≤ 32) × (d ≤ 32) × (stripes ≤ length out.old) }
    ensures { out.new ≡ tabulate stripes (λ s. dot_of gf.now (take 1 (piece (w + d - 1) s held.now) ++ drop w (piece (w + d - 1) s held.now))) ++ drop stripes out.old }
{
    let a = w + d - 1;
    for s in 0..stripes {
        let from = s * a;
        let to = from + a;
        out[s] = second_byte(d, w, gf, &held[from..to]);
    }
}

// The packet of stand-in j, which holds these bytes, for board i, to the beginning of out. gf is for work.
fn packet_in(
    sizes: Sizes,
    points: &[u8],
    inverses: &[u8],
    stripes: usize,
    j: usize,
    i: usize,
    held: &[u8],
    gf: &mut [u8],
    out: &mut [u8],
)
    requires { (legal sizes ≡ true) × (length points.now ≡ 32) × DifferentPoints sizes points.now × (inverses.now ≡ tabulate 256 inverse) × (stripes ≤ 4096) × (j < sizes.n) × (i < sizes.n) × (length held.now ≡ stripes * α sizes) × (stripes ≤ length out.old) × (sizes.d ≤ length gf.old) × (length gf.old ≤ 32) }
    ensures { out.new ≡ stand_in_packet sizes points.now stripes j i held.now ++ drop stripes out.old }
{
    let d = sizes.d;
    let w = d + sizes.r;
    lagrange_factors::factors_from(points, sizes.n, j, d, inverses, i, gf);
    second_bytes(d, w, gf, stripes, held, out);
}

// The packet of stand-in j, which holds these bytes, for board i, to the beginning of out.
pub fn stand_in_packet(
    sizes: Sizes,
    points: &[u8],
    inverses: &[u8],
    stripes: usize,
    j: usize,
    i: usize,
    held: &[u8],
    out: &mut [u8],
)
    requires { (legal sizes ≡ true) × (length points.now ≡ 32) × DifferentPoints sizes points.now × (inverses.now ≡ tabulate 256 inverse) × (stripes ≤ 4096) × (j < sizes.n) × (i < sizes.n) × (length held.now ≡ stripes * α sizes) × (stripes ≤ length out.old) }
    ensures { out.new ≡ stand_in_packet sizes points.now stripes j i held.now ++ drop stripes out.old }
{
    let gl = row_values::whole_vectors(sizes.d);
    let mut gf = [0u8; 32];
    packet_in(
        sizes,
        points,
        inverses,
        stripes,
        j,
        i,
        held,
        &mut gf[0..gl],
        out,
    );
}
