//! The check of a step (request A.8): its lines in their order.

#![tactic(auto)]

ghost use Rattle.std.specs.Prelude.{◌≡◌, true, not, eqb, length};
ghost use Rattle.lists.specs.Tests.{pick};
ghost use Rattle.sizes.specs.declared.Refusal.TheVariants.{Area};
ghost use Rattle.sizes.specs.Refusals.{◌when◌, first, store_order};
ghost use Rattle.store_spec.specs.Record.{sound};
ghost use Rattle.beside_spec.specs.Running.{fresh_of, packets_len, sound_beside};
ghost use Rattle.beside_spec.specs.Both.{step_lines};
ghost use Rattle.line_checks.specs.Steps.{asked};
ghost use Rattle.record.specs.Records.{record_of, running_in};

use record::{Kept, Running};
use sizes::Refusal;

// 2 AREA, of a packet area of so many bytes: "with none running its length is not checked".
fn check_packets(kept: Kept, running: Running, lent: usize) -> Result<(), Refusal>
    requires { (sound (record_of kept) ≡ true) × (sound_beside (record_of kept) (running_in running) ≡ true) }
    ensures { result ≡ asked (Area when not (pick running.running (eqb lent (packets_len (record_of kept) (length (fresh_of (running_in running))))) true)) }
{
    if !running.running {
        return Ok(());
    }
    let sizes = kept.sizes;
    let stripes = board_lines::stripe_count(sizes, kept.length);
    let all = stripes * running.count;
    board_lines::check_lent(lent, all * sizes.share_len())
}

// The first refusal of a step, on an area and a packet area of so many bytes.
#[tactic(auto, unfolding(beside_spec::specs::Both::step_lines))]
pub fn check_step(kept: Kept, running: Running, lent: usize, packets: usize) -> Result<(), Refusal>
    ensures { result ≡ first store_order (step_lines (record_of kept) (running_in running) lent packets) }
{
    check_begin::check_area(kept, running, lent)?;
    check_packets(kept, running, packets)?;
    store_lines::check_written(kept.written)?;
    store_lines::check_idle(running.running)
}
