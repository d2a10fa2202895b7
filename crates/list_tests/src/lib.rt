// How many boards a repair names, and whether two lists are apart.
// Assumes nothing.

#![tactic(auto)]

ghost use Rattle.std.specs.Prelude.{◌≡◌, true, false, not, ◌++◌, ◌-◌, ◌*◌};
ghost use Rattle.lists.specs.Tests.{alls, different, apart};
ghost use Rattle.sizes.specs.declared.Refusal.TheVariants.{Count};
ghost use Rattle.sizes.specs.Sizing.{legal};
ghost use Rattle.sizes.specs.Refusals.{◌when◌};
ghost use Rattle.line_checks.specs.Steps.{asked};
ghost use Rattle.list_tests.specs.Steps.{count_tests};

use sizes::{Refusal, Sizes};

// 4 COUNT of a repair: t fresh boards, 1 ≤ t ≤ r, and for each d helpers and r − t stand-ins.
pub fn check_named_counts(
    sizes: Sizes,
    fresh: usize,
    helpers: usize,
    standins: usize,
) -> Result<(), Refusal>
    requires { legal sizes ≡ true }
    ensures { result ≡ asked (Count when not (alls (count_tests sizes fresh helpers standins))) }
{
    if fresh < 1 {
        return Err(Refusal::Count);
    }
    if sizes.r < fresh {
        return Err(Refusal::Count);
    }
    let each = sizes.r - fresh;
    board_lines::check_counts(helpers, fresh * sizes.d, standins, fresh * each)
}

// Whether no board stands twice in two lists.
pub fn both_differ(boards: &[usize], others: &[usize]) -> bool
    ensures { result ≡ different (boards.now ++ others.now) }
{
    if line_tests::different(boards) {
        if line_tests::different(others) {
            return line_tests::apart(others, boards);
        }
    }
    false
}
