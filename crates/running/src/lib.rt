//! The check of a started repair's record (request A.8): whether it may stand beside the store's.

#![tactic(auto)]

ghost use Rattle.std.specs.Prelude.{◌≡◌, true, not, [], ◌∷◌, ◌-◌, ◌*◌, take};
ghost use Rattle.sizes.specs.declared.Refusal.TheVariants.{Size};
ghost use Rattle.sizes.specs.Sizing.{legal};
ghost use Rattle.sizes.specs.Refusals.{◌when◌, first, store_order};
ghost use Rattle.store_spec.specs.Calls.{list_lines};
ghost use Rattle.beside_spec.specs.Running.{sound_beside};
ghost use Rattle.beside_spec.specs.Both.{both_line};
ghost use Rattle.line_checks.specs.Steps.{asked};
ghost use Rattle.list_tests.specs.Steps.{named};
ghost use Rattle.record.specs.Records.{record_of, running_in};
ghost use Rattle.running_lists.specs.Steps.{Arrays};

use record::{Kept, Running};
use sizes::{Refusal, Sizes};

// The first refusal of the lists of t fresh boards that begin these arrays, on a record of these sizes and marks.
fn check_arrays(
    sizes: Sizes,
    marks: &[bool],
    t: usize,
    fresh: &[u8],
    helpers: &[u8],
    standins: &[u8],
) -> Result<(), Refusal>
    requires { Arrays sizes t fresh.now helpers.now standins.now }
    ensures { result ≡ first store_order (list_lines (named sizes marks.now) (take t fresh.now) (take (t * sizes.d) helpers.now) (take (t * (sizes.r - t)) standins.now)) }
{
    let mut a = [0usize; 32];
    let mut b = [0usize; 256];
    let mut c = [0usize; 256];
    running_lists::boards_of(fresh, &mut a);
    running_lists::boards_of(helpers, &mut b);
    running_lists::boards_of(standins, &mut c);
    let h = t * sizes.d;
    let e = t * (sizes.r - t);
    check_lists::check_lists(sizes, marks, &a[..t], &b[..h], &c[..e])
}

// Whether the record of a repair may stand beside a store's with legal sizes.
fn sound_beside(kept: Kept, running: Running) -> bool
    requires { legal kept.sizes ≡ true }
    ensures { result ≡ sound_beside (record_of kept) (running_in running) }
{
    let sizes = kept.sizes;
    let marks = kept.marks;
    let fresh = running.fresh;
    let helpers = running.helpers;
    let standins = running.stand_ins;
    let t = running.count;
    if !running.running {
        return true;
    }
    if sizes.r < t {
        return false;
    }
    if check_arrays(sizes, &marks, t, &fresh, &helpers, &standins).is_err() {
        return false;
    }
    running.carried < t * (sizes.d + sizes.r - 1)
}

// 1 SIZE, by the record of a repair.
pub fn check_running(kept: Kept, running: Running) -> Result<(), Refusal>
    requires { legal kept.sizes ≡ true }
    ensures { result ≡ first store_order (Size when not (sound_beside (record_of kept) (running_in running)) ∷ []) }
{
    if sound_beside(kept, running) {
        return Ok(());
    }
    Err(Refusal::Size)
}

// 1 SIZE, by either record.
pub fn check_both(kept: Kept, running: Running) -> Result<(), Refusal>
    ensures { result ≡ asked (both_line (record_of kept) (running_in running)) }
{
    store_lines::check_record(kept)?;
    check_running(kept, running)
}
