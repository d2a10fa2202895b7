//! The check of a write: its lines in document 01's order, and BUSY behind them (request A.8).

#![tactic(auto)]

ghost use Rattle.std.specs.Prelude.{◌≡◌};
ghost use Rattle.sizes.specs.Refusals.{first, store_order};
ghost use Rattle.beside_spec.specs.Both.{write_lines_both};
ghost use Rattle.record.specs.Records.{record_of, running_in};

use record::{Kept, Running};
use sizes::Refusal;

// The first refusal of a write of this file, to an area of so many bytes.
#[tactic(auto, unfolding(beside_spec::specs::Both::write_lines_both, store_spec::specs::Calls::write_lines))]
pub fn check_write(kept: Kept, running: Running, lent: usize, file: &[u8]) -> Result<(), Refusal>
    ensures { result ≡ first store_order (write_lines_both (record_of kept) (running_in running) lent file.now) }
{
    check_begin::check_area(kept, running, lent)?;
    let sizes = kept.sizes;
    store_lines::check_fits(sizes, kept.capacity, file.len())?;
    store_lines::check_busy(running.running)
}
