//! The check of the lists of a repair: who is named fresh, who helps and who stands in, in document 01's order.

#![tactic(auto)]

ghost use Rattle.std.specs.Prelude.{◌≡◌, true, false, not, ◌++◌, ◌-◌, ◌*◌, get_or};
ghost use Rattle.lists.specs.Tests.{every, alls, different, apart};
ghost use Rattle.sizes.specs.declared.Refusal.TheVariants.{Repeat, Down, Serving};
ghost use Rattle.sizes.specs.Sizing.{legal};
ghost use Rattle.sizes.specs.Refusals.{◌when◌, first, store_order};
ghost use Rattle.board_spec.specs.Calls.{node_line};
ghost use Rattle.store_spec.specs.Packets.{hear_named};
ghost use Rattle.store_spec.specs.Calls.{list_lines};
ghost use Rattle.line_checks.specs.Steps.{asked};
ghost use Rattle.list_tests.specs.Steps.{Runs, named, repeat_tests};

use sizes::{Refusal, Sizes};

// 5 NODE of three lists.
pub fn check_three_lists(
    sizes: Sizes,
    boards: &[usize],
    others: &[usize],
    more: &[usize],
) -> Result<(), Refusal>
    ensures { result ≡ asked (node_line sizes (boards.now ++ (others.now ++ more.now))) }
{
    if line_tests::below(sizes.n, boards) {
        return store_lines::check_two_lists(sizes, others, more);
    }
    Err(Refusal::Node)
}

// Whether no board stands twice among the d helpers and e stand-ins of one fresh board.
fn runs_differ(d: usize, e: usize, fresh: &[usize], helpers: &[usize], standins: &[usize]) -> bool
    requires { Runs d e fresh.now helpers.now standins.now }
    ensures { result ≡ every (λ h. different h.senders) (hear_named d e fresh.now helpers.now standins.now) }
{
    for a in 0..fresh.len() {
        let from = a * d;
        let start = a * e;
        if !list_tests::both_differ(&helpers[from..from + d], &standins[start..start + e]) {
            return false;
        }
    }
    true
}

// 6 REPEAT of a repair.
pub fn check_named(
    d: usize,
    e: usize,
    fresh: &[usize],
    helpers: &[usize],
    standins: &[usize],
) -> Result<(), Refusal>
    requires { Runs d e fresh.now helpers.now standins.now }
    ensures { result ≡ asked (Repeat when not (alls (repeat_tests d e fresh.now helpers.now standins.now))) }
{
    if line_tests::different(fresh) {
        if runs_differ(d, e, fresh, helpers, standins) {
            if line_tests::apart(fresh, helpers) {
                if line_tests::apart(fresh, standins) {
                    return Ok(());
                }
            }
        }
    }
    Err(Refusal::Repeat)
}

// Whether each board is out of service.
fn all_out(marks: &[bool], boards: &[usize]) -> bool
    ensures { result ≡ every (λ i. not (get_or marks.now i false)) boards.now }
{
    for board in boards {
        if store_lines::mark_of(marks, *board) {
            return false;
        }
    }
    true
}

// 14 SERVING.
pub fn check_out(marks: &[bool], boards: &[usize]) -> Result<(), Refusal>
    ensures { result ≡ asked (Serving when not (every (λ i. not (get_or marks.now i false)) boards.now)) }
{
    if all_out(marks, boards) {
        Ok(())
    } else {
        Err(Refusal::Serving)
    }
}

// 9 DOWN of two lists.
pub fn check_both_service(marks: &[bool], boards: &[usize], others: &[usize]) -> Result<(), Refusal>
    ensures { result ≡ asked (Down when not (every (λ i. get_or marks.now i false) (boards.now ++ others.now))) }
{
    if store_lines::all_on(marks, boards) {
        return store_lines::check_service(marks, others);
    }
    Err(Refusal::Down)
}

// The first refusal of the lists of a repair, on a record of these sizes and marks.
#[tactic(auto, unfolding(store_spec::specs::Calls::list_lines))]
pub fn check_lists(
    sizes: Sizes,
    marks: &[bool],
    fresh: &[usize],
    helpers: &[usize],
    standins: &[usize],
) -> Result<(), Refusal>
    requires { legal sizes ≡ true }
    ensures { result ≡ first store_order (list_lines (named sizes marks.now) fresh.now helpers.now standins.now) }
{
    list_tests::check_named_counts(sizes, fresh.len(), helpers.len(), standins.len())?;
    check_three_lists(sizes, fresh, helpers, standins)?;
    let each = sizes.r - fresh.len();
    check_named(sizes.d, each, fresh, helpers, standins)?;
    check_out(marks, fresh)?;
    check_both_service(marks, helpers, standins)
}
