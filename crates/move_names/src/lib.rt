//! The check of what a move names (request A.10): its lines behind BUSY, in their order.

#![tactic(auto)]

ghost use Rattle.std.specs.Prelude.{◌≡◌, true, length};
ghost use Rattle.sizes.specs.Sizing.{legal};
ghost use Rattle.sizes.specs.Refusals.{first, store_order};
ghost use Rattle.move_names.specs.Steps.{named_lines};

use sizes::{Refusal, Sizes};

// 4 COUNT, 5 NODE, 6 REPEAT and 9 DOWN: the boards named, the new point, and every board's mark.
pub fn check_named(
    sizes: Sizes,
    points: &[u8],
    marks: &[bool],
    board: usize,
    point: u8,
    helpers: &[usize],
    partners: &[usize],
) -> Result<(), Refusal>
    requires { (legal sizes ≡ true) × (length points.now ≡ 32) }
    ensures { result ≡ first store_order (named_lines sizes points.now marks.now board point helpers.now partners.now) }
{
    let want = sizes.r - 1;
    board_lines::check_counts(helpers.len(), sizes.d, partners.len(), want)?;
    move_tests::check_known(sizes, board, helpers, partners)?;
    move_tests::check_new(sizes.n, points, board, point, helpers, partners)?;
    move_tests::check_up(sizes.n, marks)
}
