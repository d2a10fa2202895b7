//! The check of an edit (request A.6): its lines in their order, up to DOWN.
//! DISAGREE, which is behind them all, is asked by `decode_area`.

#![tactic(auto)]

ghost use Rattle.std.specs.Prelude.{◌≡◌};
ghost use Rattle.sizes.specs.Refusals.{first, store_order};
ghost use Rattle.record.specs.Records.{record_of, running_in};
ghost use Rattle.check_edit.specs.Steps.{asked_lines};

use record::{Kept, Running};
use sizes::Refusal;

// The first refusal of an edit of so many bytes at an offset, with these boards to read from, DISAGREE aside, to an area of so many bytes.
pub fn check_edit(
    kept: Kept,
    running: Running,
    lent: usize,
    offset: usize,
    count: usize,
    boards: &[usize],
) -> Result<(), Refusal>
    ensures { result ≡ first store_order (asked_lines (record_of kept) (running_in running) lent offset count boards.now) }
{
    let sizes = kept.sizes;
    let marks = kept.marks;
    check_begin::check_area(kept, running, lent)?;
    store_lines::check_written(kept.written)?;
    store_lines::check_busy(running.running)?;
    check_range::check_range(kept.length, offset, count)?;
    check_begin::check_boards(sizes, sizes.k, &marks, boards)
}
