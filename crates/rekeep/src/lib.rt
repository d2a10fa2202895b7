// Request A.10: every other board works out its kept values afresh from f and g, in its place in the area, once a board has a new point.
// Assumes nothing.

#![tactic(auto)]

ghost use Rattle.std.specs.Prelude.{◌≡◌, true, ◌*◌, ◌<◌, ◌≤◌, length};
ghost use Rattle.lists.specs.Lists.{tabulate};
ghost use Rattle.gf256.specs.Field.{inverse};
ghost use Rattle.sizes.specs.Sizing.{legal, α};
ghost use Rattle.mbcr.specs.Share.{DifferentPoints};
ghost use Rattle.store_spec.specs.Record.{sound, area_len, stripe_count};
ghost use Rattle.store_spec.specs.Move.{afresh_area};
ghost use Rattle.record.specs.Records.{record_of};
ghost use Rattle.rekeep.specs.Steps.{board_patched, rekept};

use record::Kept;
use sizes::Sizes;

// Board i in its place in the area, a part of `part` bytes; the board that moves keeps its bytes.
fn rekeep_at(
    sizes: Sizes,
    points: &[u8],
    inverses: &[u8],
    part: usize,
    stripes: usize,
    board: usize,
    y: u8,
    i: usize,
    area: &mut [u8],
)
    requires { (legal sizes ≡ true) × (length points.now ≡ 32) × DifferentPoints sizes points.now × (inverses.now ≡ tabulate 256 inverse) × (part ≤ 253952) × (stripes ≤ 4096) × (stripes * α sizes ≤ part) × (board < sizes.n) × (i < sizes.n) × (length area.old ≡ sizes.n * part) }
    ensures { area.new ≡ board_patched sizes points.now part stripes board y i area.old }
{
    if i == board {
        return;
    }
    let t = kept_rows::offset(sizes.n, i, board);
    let from = i * part;
    let to = from + stripes * (2 * sizes.d + sizes.r - 1);
    rekeep_stripes::rekeep_stripes(
        sizes,
        points,
        inverses,
        stripes,
        i,
        t,
        y,
        &mut area[from..to],
    );
}

// All boards.
fn rekeep_boards(
    sizes: Sizes,
    points: &[u8],
    inverses: &[u8],
    part: usize,
    stripes: usize,
    board: usize,
    y: u8,
    area: &mut [u8],
)
    requires { (legal sizes ≡ true) × (length points.now ≡ 32) × DifferentPoints sizes points.now × (inverses.now ≡ tabulate 256 inverse) × (part ≤ 253952) × (stripes ≤ 4096) × (stripes * α sizes ≤ part) × (board < sizes.n) × (length area.old ≡ sizes.n * part) }
    ensures { area.new ≡ rekept sizes points.now part stripes board y sizes.n area.old }
{
    let n = sizes.n;
    for i in 0..n {
        rekeep_at(sizes, points, inverses, part, stripes, board, y, i, area);
    }
}

// Every board but the one that moves to a new byte works out its kept values afresh from f and g, in its place in the area.
pub fn rekeep(kept: Kept, stripes: usize, inverses: &[u8], board: usize, point: u8, area: &mut [u8])
    requires { (sound (record_of kept) ≡ true) × (stripes ≡ stripe_count (record_of kept)) × (inverses.now ≡ tabulate 256 inverse) × (board < kept.sizes.n) × (length area.old ≡ area_len (record_of kept)) }
    ensures { area.new ≡ afresh_area (record_of kept) area.old board point }
{
    let sizes = kept.sizes;
    let points = kept.points;
    let part = kept.capacity * (2 * sizes.d + sizes.r - 1);
    rekeep_boards(sizes, &points, inverses, part, stripes, board, point, area);
}
