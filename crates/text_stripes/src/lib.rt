//! One stripe of shares that pairs of a text spell: whether it is that of a part of a file, and the part.

#![tactic(auto)]

ghost use Rattle.std.specs.Prelude.{◌≡◌, ◌+◌, ◌*◌, ◌-◌, ◌<◌, ◌≤◌, length};
ghost use Rattle.lists.specs.Tests.{given};
ghost use Rattle.sizes.specs.Sizing.{α, B};
ghost use Rattle.mbcr.specs.Read.{decoded_file, read_file};
ghost use Rattle.decode_stripe.specs.Steps.{Asked};
ghost use Rattle.decode_setup.specs.Steps.{Made};
ghost use Rattle.text_stripes.specs.Steps.{spelled, Spelled, stripe_starts};

use sizes::Sizes;

// The bytes of a stripe of each board, one board's after another: its pairs begin so far behind these places.
fn stripe_bytes(text: &[u8], places: &[usize], from: usize, share: usize, out: &mut [u8])
    requires { Spelled text.now places.now from share × (length out.old ≡ length places.now * share) }
    ensures { out.new ≡ spelled text.now places.now from share }
{
    for t in 0..places.len() {
        let at = t * share;
        let end = at + share;
        let place = places[t] + from;
        text_in::fill_pairs(text, place, &mut out[at..end]);
    }
}

// Whether there are part bytes of a file with this stripe. The stripe's bytes go to held.
pub fn stripe_agrees(
    text: &[u8],
    sizes: Sizes,
    points: &[u8],
    part: usize,
    from: usize,
    boards: &[usize],
    places: &[usize],
    starts: &[usize],
    tables: &[u8],
    held: &mut [u8],
) -> bool
    requires { Asked sizes points.now boards.now × Made sizes points.now boards.now tables.now × (0 < part) × (part ≤ B sizes) × (length places.now ≡ sizes.k) × Spelled text.now places.now from (α sizes) × (starts.now ≡ stripe_starts sizes) × (length held.old ≡ sizes.k * α sizes) }
    ensures { result ≡ given (read_file sizes points.now part boards.now (spelled text.now places.now from (α sizes))) }
{
    let share = sizes.share_len();
    stripe_bytes(text, places, from, share, held);
    decode_file::agrees(sizes, points, part, 1, boards, starts, held, tables)
}

// The part of a file that this stripe decodes to, as many bytes as out has. The stripe's bytes go to held.
pub fn stripe_file(
    text: &[u8],
    sizes: Sizes,
    points: &[u8],
    from: usize,
    boards: &[usize],
    places: &[usize],
    starts: &[usize],
    tables: &[u8],
    held: &mut [u8],
    out: &mut [u8],
)
    requires { Asked sizes points.now boards.now × Made sizes points.now boards.now tables.now × (0 < length out.old) × (length out.old ≤ B sizes) × (length places.now ≡ sizes.k) × Spelled text.now places.now from (α sizes) × (starts.now ≡ stripe_starts sizes) × (length held.old ≡ sizes.k * α sizes) }
    ensures { out.new ≡ decoded_file sizes points.now (length out.old) boards.now (spelled text.now places.now from (α sizes)) }
{
    let share = sizes.share_len();
    let part = out.len();
    stripe_bytes(text, places, from, share, held);
    decode_file::write_file(sizes, points, part, 1, boards, starts, held, tables, out);
}
