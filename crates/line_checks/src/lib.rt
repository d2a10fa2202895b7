// Checks of a line that wrong programs are tried on: points, one board, repeats, room.
// Assumes nothing.

#![tactic(auto)]

ghost use Rattle.std.specs.Prelude.{◌≡◌, [], ◌∷◌, ◌++◌, ◌+◌, true};
ghost use Rattle.lists.specs.Tests.{different};
ghost use Rattle.sizes.specs.Sizing.{legal};
ghost use Rattle.mbcr.specs.Share.{pointed};
ghost use Rattle.board_spec.specs.Calls.{node_line, repeat_line, short_line};
ghost use Rattle.line_checks.specs.Steps.{asked};

use sizes::{Refusal, Sizes};

// Whether these points are taken: 32 bytes, those of n boards different, and 00 from n up.
pub fn points_taken(sizes: Sizes, points: &[u8]) -> bool
    requires { legal sizes ≡ true }
    ensures { result ≡ pointed sizes points.now }
{
    if points.len() != Sizes::MAX_BOARDS {
        return false;
    }
    let n = sizes.n;
    if line_tests::points_differ(&points[0..n]) {
        return line_tests::zero_from(points, n);
    }
    false
}

// 5 NODE of one board.
pub fn check_node(sizes: Sizes, node: usize) -> Result<(), Refusal>
    ensures { result ≡ asked (node_line sizes (node ∷ [])) }
{
    if node < sizes.n {
        Ok(())
    } else {
        Err(Refusal::Node)
    }
}

// 6 REPEAT of a list.
pub fn check_repeat(boards: &[usize]) -> Result<(), Refusal>
    ensures { result ≡ asked (repeat_line boards.now) }
{
    if line_tests::different(boards) {
        Ok(())
    } else {
        Err(Refusal::Repeat)
    }
}

// 6 REPEAT of two boards and a list.
pub fn check_repeat_with(one: usize, other: usize, boards: &[usize]) -> Result<(), Refusal>
    ensures { result ≡ asked (repeat_line (one ∷ other ∷ boards.now)) }
{
    if other == one {
        return Err(Refusal::Repeat);
    }
    if line_tests::among_from(boards, 0, one) {
        return Err(Refusal::Repeat);
    }
    if line_tests::among_from(boards, 0, other) {
        return Err(Refusal::Repeat);
    }
    check_repeat(boards)
}

// 6 REPEAT of two lists and a board.
pub fn check_repeat_joined(boards: &[usize], others: &[usize], last: usize) -> Result<(), Refusal>
    ensures { result ≡ asked (repeat_line (boards.now ++ others.now ++ (last ∷ []))) }
{
    if line_tests::different(boards) {
        if line_tests::different(others) {
            if line_tests::apart(others, boards) {
                if line_tests::among_from(boards, 0, last) {
                    return Err(Refusal::Repeat);
                }
                if line_tests::among_from(others, 0, last) {
                    return Err(Refusal::Repeat);
                }
                return Ok(());
            }
        }
    }
    Err(Refusal::Repeat)
}

// 7 SHORT.
pub fn check_room(output: &[u8], count: usize) -> Result<(), Refusal>
    ensures { result ≡ asked (short_line output.now count) }
{
    if output.len() < count {
        Err(Refusal::Short)
    } else {
        Ok(())
    }
}
