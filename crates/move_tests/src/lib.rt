//! Tests of a move (request A.10): of the boards named, of the new point, and of every board's mark.

#![tactic(auto)]

ghost use Rattle.std.specs.Prelude.{◌≡◌, ◌∷◌, ◌++◌, ◌≤◌, length};
ghost use Rattle.lists.specs.Tests.{different};
ghost use Rattle.board_spec.specs.Calls.{node_line};
ghost use Rattle.line_checks.specs.Steps.{asked};
ghost use Rattle.move_tests.specs.Steps.{new_line, up_line};

use sizes::{Refusal, Sizes};

// 5 NODE of a board and two lists.
pub fn check_known(
    sizes: Sizes,
    board: usize,
    helpers: &[usize],
    partners: &[usize],
) -> Result<(), Refusal>
    ensures { result ≡ asked (node_line sizes (board ∷ (helpers.now ++ partners.now))) }
{
    if board < sizes.n {
        return store_lines::check_two_lists(sizes, helpers, partners);
    }
    Err(Refusal::Node)
}

// Whether no board stands twice among these.
fn all_differ(board: usize, helpers: &[usize], partners: &[usize]) -> bool
    ensures { result ≡ different (board ∷ (helpers.now ++ partners.now)) }
{
    if line_tests::among_from(helpers, 0, board) {
        return false;
    }
    if line_tests::among_from(partners, 0, board) {
        return false;
    }
    list_tests::both_differ(helpers, partners)
}

// 6 REPEAT: a board twice, or a new point that one of the first n boards has.
pub fn check_new(
    n: usize,
    points: &[u8],
    board: usize,
    point: u8,
    helpers: &[usize],
    partners: &[usize],
) -> Result<(), Refusal>
    requires { n ≤ length points.now }
    ensures { result ≡ asked (new_line n points.now board point helpers.now partners.now) }
{
    if all_differ(board, helpers, partners) {
        if line_tests::point_from(&points[0..n], 0, point) {
            return Err(Refusal::Repeat);
        }
        return Ok(());
    }
    Err(Refusal::Repeat)
}

// 9 DOWN of all n boards.
pub fn check_up(n: usize, marks: &[bool]) -> Result<(), Refusal>
    ensures { result ≡ asked (up_line n marks.now) }
{
    for i in 0..n {
        if !store_lines::mark_of(marks, i) {
            return Err(Refusal::Down);
        }
    }
    Ok(())
}
