// What boards keep of a stripe, added to what they hold of it.
// Assumes nothing.

#![tactic(auto)]

ghost use Rattle.std.specs.Prelude.{◌≡◌, true, ◌+◌, ◌*◌, ◌<◌, ◌≤◌, length};
ghost use Rattle.lists.specs.Tests.{below, different};
ghost use Rattle.polynomial.specs.Polynomial.{plus};
ghost use Rattle.sizes.specs.Sizing.{legal, α};
ghost use Rattle.edit_put.specs.Steps.{kept_by, added};

use sizes::Sizes;

// What board i keeps of a stripe, out of the rows of values by board, added to the bytes that it holds.
fn add_kept(sizes: Sizes, i: usize, values: &[u8], out: &mut [u8])
    requires { (legal sizes ≡ true) × (i < sizes.n) × (sizes.n * 32 ≤ length values.now) × (length out.old ≡ α sizes) }
    ensures { out.new ≡ plus out.old (kept_by sizes values.now i) }
{
    let w = out.len();
    let mut kept = [0u8; 64];
    kept_bytes::keep(sizes, i, values, &mut kept[0..w]);
    edit_rows::add_row(&kept[0..w], out);
}

// The same for each of these boards, in its place: a board's part has `part` bytes, and the stripe starts at `at`.
pub fn add_boards(
    sizes: Sizes,
    part: usize,
    at: usize,
    values: &[u8],
    boards: &[usize],
    area: &mut [u8],
)
    requires { (legal sizes ≡ true) × (part ≤ 253952) × (at + α sizes ≤ part) × (sizes.n * 32 ≤ length values.now) × (below sizes.n boards.now ≡ true) × (different boards.now ≡ true) × (length area.old ≡ sizes.n * part) }
    ensures { area.new ≡ added (α sizes) part at (kept_by sizes values.now) boards.now area.old }
{
    let w = 2 * sizes.d + sizes.r - 1;
    for a in 0..boards.len() {
        let i = boards[a];
        let from = i * part + at;
        let to = from + w;
        add_kept(sizes, i, values, &mut area[from..to]);
    }
}
