// The stripes of a file that an edit reaches, one after another. Boards that are read are changed too: a stripe is decoded before the first board
// of that stripe is.
// Assumes nothing.

#![tactic(auto)]

ghost use Rattle.std.specs.Prelude.{◌≡◌, true, ◌+◌, ◌-◌, ◌*◌, ◌/◌, ◌<◌, ◌≤◌, length};
ghost use Rattle.lists.specs.Tests.{below, different};
ghost use Rattle.sizes.specs.Sizing.{α, B, stripes};
ghost use Rattle.decode_laws.specs.Steps.{Placed};
ghost use Rattle.decode_stripe.specs.Steps.{Asked};
ghost use Rattle.decode_setup.specs.Steps.{Made};
ghost use Rattle.edit_laws.specs.Steps.{stripe_edited, stripes_edited};

use sizes::Sizes;

// Stripe s. What is for work in it stands in a frame of its own, beside that of the decoder, and not in the whole edit's.
fn edit_one(
    sizes: Sizes,
    points: &[u8],
    boards: &[usize],
    starts: &[usize],
    tables: &[u8],
    part: usize,
    s: usize,
    offset: usize,
    bytes: &[u8],
    on: &[usize],
    area: &mut [u8],
)
    requires { Asked sizes points.now boards.now × (length starts.now ≡ sizes.k) × Placed sizes starts.now area.old (s + 1) × (s + 1 ≤ 4096) × Made sizes points.now boards.now tables.now × (length points.now ≡ 32) × (part ≤ 253952) × (s * α sizes + α sizes ≤ part) × (below sizes.n on.now ≡ true) × (different on.now ≡ true) × (length area.old ≡ sizes.n * part) }
    ensures { area.new ≡ stripe_edited sizes points.now boards.now starts.now part on.now offset bytes.now s area.old }
{
    let b = sizes.stripe_len();
    let mut u = [0u8; 1024];
    edit_stripe::changed_stripe(
        sizes,
        points,
        boards,
        starts,
        area,
        s,
        tables,
        offset,
        bytes,
        &mut u[0..b],
    );
    edit_stripe::add_stripe(sizes, points, part, s, &mut u, on, area);
}

// The stripes from first on, up to stop: the first, and those behind it.
fn edit_stripes(
    sizes: Sizes,
    points: &[u8],
    boards: &[usize],
    starts: &[usize],
    tables: &[u8],
    part: usize,
    first: usize,
    stop: usize,
    offset: usize,
    bytes: &[u8],
    on: &[usize],
    area: &mut [u8],
)
    requires { Asked sizes points.now boards.now × (length starts.now ≡ sizes.k) × Placed sizes starts.now area.old stop × (stop ≤ 4096) × Made sizes points.now boards.now tables.now × (length points.now ≡ 32) × (part ≤ 253952) × (first < stop) × (stop * α sizes ≤ part) × (below sizes.n on.now ≡ true) × (different on.now ≡ true) × (length area.old ≡ sizes.n * part) }
    ensures { area.new ≡ stripes_edited sizes points.now boards.now starts.now part on.now offset bytes.now first (stop - first) area.old }
{
    edit_one(
        sizes, points, boards, starts, tables, part, first, offset, bytes, on, area,
    );
    for s in first + 1..stop {
        edit_one(
            sizes, points, boards, starts, tables, part, s, offset, bytes, on, area,
        );
    }
}

// The stripes that bytes at an offset reach. The boards that are read start at starts, on are the boards that are changed, and a board's part
// has `part` bytes.
pub fn edit_reached(
    sizes: Sizes,
    points: &[u8],
    boards: &[usize],
    starts: &[usize],
    tables: &[u8],
    part: usize,
    offset: usize,
    bytes: &[u8],
    on: &[usize],
    area: &mut [u8],
)
    requires { Asked sizes points.now boards.now × (length starts.now ≡ sizes.k) × Placed sizes starts.now area.old (stripes sizes (offset + length bytes.now)) × (offset + length bytes.now ≤ 4096 * B sizes) × Made sizes points.now boards.now tables.now × (length points.now ≡ 32) × (part ≤ 253952) × (stripes sizes (offset + length bytes.now) * α sizes ≤ part) × (below sizes.n on.now ≡ true) × (different on.now ≡ true) × (length area.old ≡ sizes.n * part) }
    ensures { area.new ≡ stripes_edited sizes points.now boards.now starts.now part on.now offset bytes.now (offset / B sizes) (stripes sizes (offset + length bytes.now) - offset / B sizes) area.old }
{
    let b = sizes.stripe_len();
    let end = offset + bytes.len();
    let first = offset / b;
    let stop = board_lines::stripe_count(sizes, end);
    if first < stop {
        edit_stripes(
            sizes, points, boards, starts, tables, part, first, stop, offset, bytes, on, area,
        );
    }
}
