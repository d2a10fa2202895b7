//! The check of a read: its lines in document 01's order, up to SHORT. DISAGREE,
//! which is behind them all, is asked by `decode_area`.

#![tactic(auto)]

ghost use Rattle.std.specs.Prelude.{◌≡◌};
ghost use Rattle.sizes.specs.Refusals.{first, store_order};
ghost use Rattle.record.specs.Records.{record_of, running_in};
ghost use Rattle.check_read.specs.Steps.{asked_lines};

use record::{Kept, Running};
use sizes::Refusal;

// The first refusal of a read from these boards, DISAGREE aside, of an area of so many bytes.
pub fn check_read(
    kept: Kept,
    running: Running,
    lent: usize,
    boards: &[usize],
    out: &[u8],
) -> Result<(), Refusal>
    ensures { result ≡ first store_order (asked_lines (record_of kept) (running_in running) lent boards.now out.now) }
{
    let sizes = kept.sizes;
    let marks = kept.marks;
    check_begin::check_area(kept, running, lent)?;
    store_lines::check_written(kept.written)?;
    check_begin::check_boards(sizes, sizes.k, &marks, boards)?;
    line_checks::check_room(out, kept.length)
}
