//! The checks that several calls of the store begin with: both records and the area, and the boards that it is to read from. Each asks in document 01's
//! order and answers the first refusal.

#![tactic(auto)]

ghost use Rattle.std.specs.Prelude.{◌≡◌, true, length};
ghost use Rattle.sizes.specs.Refusals.{first, store_order};
ghost use Rattle.record.specs.Records.{record_of, running_in};
ghost use Rattle.check_begin.specs.Steps.{area_lines, board_lines};

use record::{Kept, Running};
use sizes::{Refusal, Sizes};

// 1 SIZE and 2 AREA, of both records and an area of so many bytes.
pub fn check_area(kept: Kept, running: Running, lent: usize) -> Result<(), Refusal>
    ensures { result ≡ first store_order (area_lines (record_of kept) (running_in running) lent) }
{
    running::check_both(kept, running)?;
    let sizes = kept.sizes;
    let part_len = kept.capacity * sizes.share_len();
    board_lines::check_lent(lent, sizes.n * part_len)
}

// 4 COUNT, 5 NODE, 6 REPEAT and 9 DOWN, of the boards that a call reads from.
pub fn check_boards(
    sizes: Sizes,
    want: usize,
    marks: &[bool],
    boards: &[usize],
) -> Result<(), Refusal>
    ensures { result ≡ first store_order (board_lines sizes want marks.now boards.now) }
{
    board_lines::check_count(boards.len(), want)?;
    board_lines::check_nodes(sizes, boards)?;
    line_checks::check_repeat(boards)?;
    store_lines::check_service(marks, boards)
}
