//! The check of a move (request A.10): its lines in their order.

#![tactic(auto)]

ghost use Rattle.std.specs.Prelude.{◌≡◌};
ghost use Rattle.sizes.specs.Refusals.{first, store_order};
ghost use Rattle.beside_spec.specs.Both.{move_lines_both};
ghost use Rattle.record.specs.Records.{record_of, running_in};

use record::{Kept, Running};
use sizes::Refusal;

// The first refusal of a move of a board to a new point by these helpers and partners, in an area of so many bytes.
#[tactic(auto, unfolding(beside_spec::specs::Both::move_lines_both, store_spec::specs::Move::move_lines))]
pub fn check_move(
    kept: Kept,
    running: Running,
    lent: usize,
    board: usize,
    point: u8,
    helpers: &[usize],
    partners: &[usize],
) -> Result<(), Refusal>
    ensures { result ≡ first store_order (move_lines_both (record_of kept) (running_in running) lent board point helpers.now partners.now) }
{
    let sizes = kept.sizes;
    let points = kept.points;
    let marks = kept.marks;
    check_begin::check_area(kept, running, lent)?;
    store_lines::check_written(kept.written)?;
    store_lines::check_busy(running.running)?;
    move_names::check_named(sizes, &points, &marks, board, point, helpers, partners)
}
