//! The check of a careful read (request A.11): its lines in their order, up to SHORT.
//! DISAGREE, which is behind them all, is asked by `careful_tries`.

#![tactic(auto)]

ghost use Rattle.std.specs.Prelude.{◌≡◌};
ghost use Rattle.sizes.specs.Refusals.{first, store_order};
ghost use Rattle.record.specs.Records.{record_of, running_in};
ghost use Rattle.check_careful.specs.Steps.{careful_board_lines, asked_lines};

use record::{Kept, Running};
use sizes::{Refusal, Sizes};

// 4 COUNT, 5 NODE, 6 REPEAT and 9 DOWN, of k + 2 boards, which may be more than there are.
fn check_many(sizes: Sizes, marks: &[bool], boards: &[usize]) -> Result<(), Refusal>
    ensures { result ≡ first store_order (careful_board_lines sizes marks.now boards.now) }
{
    if sizes.n < 2 {
        return Err(Refusal::Count);
    }
    if sizes.n - 2 < sizes.k {
        return Err(Refusal::Count);
    }
    check_begin::check_boards(sizes, sizes.k + 2, marks, boards)
}

// The first refusal of a careful read of these boards, DISAGREE aside, of an area of so many bytes.
pub fn check_careful(
    kept: Kept,
    running: Running,
    lent: usize,
    boards: &[usize],
    out: &[u8],
) -> Result<(), Refusal>
    ensures { result ≡ first store_order (asked_lines (record_of kept) (running_in running) lent boards.now out.now) }
{
    let sizes = kept.sizes;
    let marks = kept.marks;
    check_begin::check_area(kept, running, lent)?;
    store_lines::check_written(kept.written)?;
    check_many(sizes, &marks, boards)?;
    line_checks::check_room(out, kept.length)
}
