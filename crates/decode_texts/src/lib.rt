//! A file from k shares that pairs of a text spell, stripe by stripe: whether there is one, and its bytes. No share stands anywhere whole: a stripe of
//! k boards has at most 1,922 bytes.

#![tactic(auto)]

ghost use Rattle.std.specs.Prelude.{◌≡◌, ◌++◌, ◌+◌, ◌*◌, ◌-◌, ◌<◌, ◌≤◌, length, drop};
ghost use Rattle.lists.specs.Tests.{alls, given};
ghost use Rattle.lists.specs.Lists.{tabulate, join};
ghost use Rattle.sizes.specs.Sizing.{α, B, stripes as stripesOf};
ghost use Rattle.mbcr.specs.Read.{decoded_file, read_file};
ghost use Rattle.decode_stripe.specs.Steps.{Asked};
ghost use Rattle.decode_setup.specs.Steps.{Made};
ghost use Rattle.text_stripes.specs.Steps.{spelled, Spelled, part_of, stripe_starts};

use sizes::Sizes;

// How many bytes of a file of len bytes stand from a place on, at most b.
fn part_from(len: usize, at: usize, b: usize) -> usize
    requires { at ≤ len }
    ensures { result ≡ (len - at) - ((len - at) - b) }
{
    let left = len - at;
    if left < b { left } else { b }
}

// Whether each stripe is that of its part of a file of len bytes.
fn stripes_agree(
    text: &[u8],
    sizes: Sizes,
    points: &[u8],
    len: usize,
    stripes: usize,
    boards: &[usize],
    places: &[usize],
    starts: &[usize],
    tables: &[u8],
    held: &mut [u8],
) -> bool
    requires { Asked sizes points.now boards.now × Made sizes points.now boards.now tables.now × (stripes ≤ 4096) × (stripes ≡ stripesOf sizes len) × (length places.now ≡ sizes.k) × Spelled text.now places.now 0 (stripes * α sizes) × (starts.now ≡ stripe_starts sizes) × (length held.old ≡ sizes.k * α sizes) }
    ensures { result ≡ given (read_file sizes points.now len boards.now (spelled text.now places.now 0 (stripes * α sizes))) }
{
    let b = sizes.stripe_len();
    let share = sizes.share_len();
    for s in 0..stripes {
        let part = part_from(len, s * b, b);
        let from = 2 * (s * share);
        if !text_stripes::stripe_agrees(
            text, sizes, points, part, from, boards, places, starts, tables, held,
        ) {
            return false;
        }
    }
    true
}

// Whether there is a file of len bytes with the shares that are spelled from these places on.
pub fn agrees(
    text: &[u8],
    sizes: Sizes,
    points: &[u8],
    len: usize,
    stripes: usize,
    boards: &[usize],
    places: &[usize],
    tables: &[u8],
) -> bool
    requires { Asked sizes points.now boards.now × Made sizes points.now boards.now tables.now × (stripes ≤ 4096) × (stripes ≡ stripesOf sizes len) × (length places.now ≡ sizes.k) × Spelled text.now places.now 0 (stripes * α sizes) }
    ensures { result ≡ given (read_file sizes points.now len boards.now (spelled text.now places.now 0 (stripes * α sizes))) }
{
    let k = sizes.k;
    let share = sizes.share_len();
    let all = k * share;
    let mut starts = [0usize; 32];
    decode_shares::starts(share, &mut starts[0..k]);
    let mut held = [0u8; 1922];
    stripes_agree(
        text,
        sizes,
        points,
        len,
        stripes,
        boards,
        places,
        &starts[0..k],
        tables,
        &mut held[0..all],
    )
}

// The parts of a file that the stripes decode to, one after another, as many bytes as out has.
fn stripes_file(
    text: &[u8],
    sizes: Sizes,
    points: &[u8],
    stripes: usize,
    boards: &[usize],
    places: &[usize],
    starts: &[usize],
    tables: &[u8],
    held: &mut [u8],
    out: &mut [u8],
)
    requires { Asked sizes points.now boards.now × Made sizes points.now boards.now tables.now × (stripes ≤ 4096) × (stripes ≡ stripesOf sizes (length out.old)) × (length places.now ≡ sizes.k) × Spelled text.now places.now 0 (stripes * α sizes) × (starts.now ≡ stripe_starts sizes) × (length held.old ≡ sizes.k * α sizes) }
    ensures { out.new ≡ decoded_file sizes points.now (length out.old) boards.now (spelled text.now places.now 0 (stripes * α sizes)) }
{
    let b = sizes.stripe_len();
    let share = sizes.share_len();
    let len = out.len();
    for s in 0..stripes {
        let at = s * b;
        let end = at + part_from(len, at, b);
        let from = 2 * (s * share);
        text_stripes::stripe_file(
            text,
            sizes,
            points,
            from,
            boards,
            places,
            starts,
            tables,
            held,
            &mut out[at..end],
        );
    }
}

// The file of len bytes that the shares which are spelled from these places on decode to, to the beginning of out.
pub fn write_file(
    text: &[u8],
    sizes: Sizes,
    points: &[u8],
    len: usize,
    stripes: usize,
    boards: &[usize],
    places: &[usize],
    tables: &[u8],
    out: &mut [u8],
)
    requires { Asked sizes points.now boards.now × Made sizes points.now boards.now tables.now × (stripes ≤ 4096) × (stripes ≡ stripesOf sizes len) × (length places.now ≡ sizes.k) × Spelled text.now places.now 0 (stripes * α sizes) × (len ≤ length out.old) }
    ensures { out.new ≡ decoded_file sizes points.now len boards.now (spelled text.now places.now 0 (stripes * α sizes)) ++ drop len out.old }
{
    let k = sizes.k;
    let share = sizes.share_len();
    let all = k * share;
    let mut starts = [0usize; 32];
    decode_shares::starts(share, &mut starts[0..k]);
    let mut held = [0u8; 1922];
    stripes_file(
        text,
        sizes,
        points,
        stripes,
        boards,
        places,
        &starts[0..k],
        tables,
        &mut held[0..all],
        &mut out[0..len],
    );
}
