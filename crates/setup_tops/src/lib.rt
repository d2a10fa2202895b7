// The coefficients of the highest powers, for the boards at which a read takes values.
// Assumes nothing.

#![tactic(auto)]

ghost use Rattle.std.specs.Prelude.{◌≡◌, true, ◌+◌, ◌≤◌, length, get_or, take};
ghost use Rattle.lists.specs.Tests.{below};
ghost use Rattle.lists.specs.Lists.{tabulate, put};
ghost use Rattle.gf256.specs.Field.{inverse};
ghost use Rattle.sizes.specs.Sizing.{legal};
ghost use Rattle.mbcr.specs.Share.{points as points_of, neighbours};
ghost use Rattle.decode_laws.specs.Steps.{top_rows};

use sizes::Sizes;

// Those of the powers from the k-th on, for d boards from the first board read on.
pub fn tops_at(
    sizes: Sizes,
    points: &[u8],
    inverses: &[u8],
    boards: &[usize],
    at: usize,
    out: &mut [u8],
)
    requires { (legal sizes ≡ true) × (length boards.now ≡ sizes.k) × (below sizes.n boards.now ≡ true) × (inverses.now ≡ tabulate 256 inverse) × (length points.now ≡ 32) × (at + 1024 ≤ length out.old) }
    ensures { out.new ≡ put out.old at (top_rows sizes.k (points_of points.now (take sizes.d (neighbours sizes (get_or boards.now 0 0) (sizes.d + sizes.r))))) }
{
    let d = sizes.d;
    let w = d + sizes.r;
    let mut targets = [0usize; 32];
    lagrange_factors::boards_from(sizes.n, boards[0], &mut targets[0..w]);
    setup_rows::top_table(points, inverses, &targets[0..d], sizes.k, at, out);
}
