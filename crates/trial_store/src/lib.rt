//! Request A.2: the store that the trial load begins with.

#![tactic(auto)]

ghost use Rattle.std.specs.Prelude.{◌≡◌};
ghost use Rattle.mbcr.specs.Share.{standard};
ghost use Rattle.beside_spec.specs.Running.{idle};
ghost use Rattle.beside_spec.specs.Both.{set_up_both};
ghost use Rattle.record.specs.Records.{running_in};
ghost use Rattle.store.specs.Handing.{record_in};
ghost use Rattle.trial_spec.specs.Trial.{new_store};
ghost use Rattle.trial_input.specs.Steps.{load_in};

use store::{Handed, Store};
use trial_input::Load;

// The store of a load, newly set up, at document 01's points, and the record of no repair beside it.
pub fn set_up(load: Load) -> Handed
    ensures store_value { record_in result.store ≡ (set_up_both (new_store (load_in load)) idle load.sizes (standard load.sizes) load.capacity).handed }
    ensures running_value { running_in result.running ≡ (set_up_both (new_store (load_in load)) idle load.sizes (standard load.sizes) load.capacity).running }
{
    let sizes = load.sizes;
    let points = board_lines::standard_points(sizes);
    let kept = record::new_kept(sizes, points, load.capacity);
    let old = Store { record: kept };
    let none = record::idle();
    old.set_up(none, sizes, points, load.capacity)
}
