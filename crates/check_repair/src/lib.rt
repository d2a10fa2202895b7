//! The check of a repair, and of a start (request A.8), which asks the same: its lines in document 01's order.

#![tactic(auto)]

ghost use Rattle.std.specs.Prelude.{◌≡◌};
ghost use Rattle.sizes.specs.Refusals.{first, store_order};
ghost use Rattle.beside_spec.specs.Both.{repair_lines_both};
ghost use Rattle.record.specs.Records.{record_of, running_in};

use record::{Kept, Running};
use sizes::Refusal;

// The first refusal of a repair, or a start, of these fresh boards by these helpers and stand-ins, to an area of so many bytes.
#[tactic(auto, unfolding(beside_spec::specs::Both::repair_lines_both, store_spec::specs::Calls::repair_lines, store_spec::specs::Calls::list_lines))]
pub fn check_repair(
    kept: Kept,
    running: Running,
    lent: usize,
    fresh: &[usize],
    helpers: &[usize],
    standins: &[usize],
) -> Result<(), Refusal>
    ensures { result ≡ first store_order (repair_lines_both (record_of kept) (running_in running) lent fresh.now helpers.now standins.now) }
{
    let sizes = kept.sizes;
    let marks = kept.marks;
    check_begin::check_area(kept, running, lent)?;
    store_lines::check_written(kept.written)?;
    store_lines::check_busy(running.running)?;
    check_lists::check_lists(sizes, &marks, fresh, helpers, standins)
}
