//! The checks of the two calls that are lent no bytes, setting up and losing: their lines in document 01's order.

#![tactic(auto)]

ghost use Rattle.std.specs.Prelude.{◌≡◌, [], ◌∷◌};
ghost use Rattle.sizes.specs.Refusals.{first, store_order};
ghost use Rattle.store_spec.specs.Record.{new_record};
ghost use Rattle.store_spec.specs.Calls.{record_line};
ghost use Rattle.beside_spec.specs.Both.{lose_lines_both};
ghost use Rattle.record.specs.Records.{record_of, running_in};

use record::{Kept, Running};
use sizes::{Refusal, Sizes};

// The first refusal of setting up a store of these sizes, these points and this capacity.
pub fn check_set_up(sizes: Sizes, points: [u8; 32], capacity: usize) -> Result<(), Refusal>
    ensures { result ≡ first store_order (record_line (new_record sizes points capacity) ∷ []) }
{
    let kept = record::new_kept(sizes, points, capacity);
    store_lines::check_record(kept)
}

// The first refusal of losing this board.
#[tactic(auto, unfolding(beside_spec::specs::Both::lose_lines_both, store_spec::specs::Calls::lose_lines))]
pub fn check_lose(kept: Kept, running: Running, board: usize) -> Result<(), Refusal>
    ensures { result ≡ first store_order (lose_lines_both (record_of kept) (running_in running) board) }
{
    running::check_both(kept, running)?;
    let sizes = kept.sizes;
    line_checks::check_node(sizes, board)
}
