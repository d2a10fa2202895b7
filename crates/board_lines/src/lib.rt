//! The checks of the refusals' lines. A check answers the refusal where its line holds.

#![tactic(auto)]

ghost use Rattle.std.specs.Prelude.{◌≡◌, [], ◌∷◌, ◌++◌, ◌+◌, ◌*◌, ◌≤◌, length, true, not, ltb, eqb};
ghost use Rattle.lists.specs.Tests.{pick};
ghost use Rattle.lists.specs.Lists.{tabulate};
ghost use Rattle.sizes.specs.Sizing.{legal, stripes};
ghost use Rattle.sizes.specs.Refusals.{first, board_order};
ghost use Rattle.mbcr.specs.Share.{standard};
ghost use Rattle.board_spec.specs.Calls.{size_line, long_line, count_line, node_line, area_line};
ghost use Rattle.line_checks.specs.Steps.{asked, stated_lines, Stated};

use sizes::{Refusal, Sizes};

// Document 01's point of board i: its number, and 00 from n up.
fn standard_point(n: usize, i: usize) -> u8
    requires { i ≤ 255 }
    ensures { result ≡ pick (ltb i n) i 0 }
{
    if i < n { i as u8 } else { 0 }
}

// The points of as many boards as there is room for.
fn put_points(n: usize, points: &mut [u8])
    requires { length points.old ≤ 256 }
    ensures { points.new ≡ tabulate (length points.old) (λ i. pick (ltb i n) i 0) }
{
    for i in 0..points.len() {
        points[i] = standard_point(n, i);
    }
}

// The points of document 01.
pub fn standard_points(sizes: Sizes) -> [u8; 32]
    ensures { result ≡ standard sizes }
{
    let mut points = [0u8; 32];
    put_points(sizes.n, &mut points);
    points
}

// 1 SIZE, board level.
pub fn check_sizes(sizes: Sizes, points: &[u8]) -> Result<(), Refusal>
    ensures { result ≡ asked (size_line sizes points.now) }
{
    if sizes.legal() {
        if line_checks::points_taken(sizes, points) {
            return Ok(());
        }
    }
    Err(Refusal::Size)
}

// 3 LONG, board level.
pub fn check_length(sizes: Sizes, len: usize) -> Result<(), Refusal>
    requires { legal sizes ≡ true }
    ensures { result ≡ asked (long_line sizes len) }
{
    if Sizes::MAX_STRIPES * sizes.stripe_len() < len {
        Err(Refusal::Long)
    } else {
        Ok(())
    }
}

// 1 SIZE and 3 LONG, of the sizes, the points and the length that every board-level call is given.
pub fn check_stated(sizes: Sizes, points: &[u8], len: usize) -> Result<(), Refusal>
    ensures { result ≡ first board_order (stated_lines sizes points.now len) }
{
    check_sizes(sizes, points)?;
    check_length(sizes, len)
}

// 4 COUNT of one list.
pub fn check_count(got: usize, want: usize) -> Result<(), Refusal>
    ensures { result ≡ asked (count_line (eqb got want ∷ [])) }
{
    if got == want {
        Ok(())
    } else {
        Err(Refusal::Count)
    }
}

// 4 COUNT of two lists.
pub fn check_counts(got: usize, want: usize, other: usize, wanted: usize) -> Result<(), Refusal>
    ensures { result ≡ asked (count_line (eqb got want ∷ eqb other wanted ∷ [])) }
{
    if got != want {
        return Err(Refusal::Count);
    }
    check_count(other, wanted)
}

// 5 NODE of a list.
pub fn check_nodes(sizes: Sizes, boards: &[usize]) -> Result<(), Refusal>
    ensures { result ≡ asked (node_line sizes boards.now) }
{
    if line_tests::below(sizes.n, boards) {
        Ok(())
    } else {
        Err(Refusal::Node)
    }
}

// 5 NODE of two boards and a list.
pub fn check_nodes_with(
    sizes: Sizes,
    one: usize,
    other: usize,
    boards: &[usize],
) -> Result<(), Refusal>
    ensures { result ≡ asked (node_line sizes (one ∷ other ∷ boards.now)) }
{
    if sizes.n <= one {
        return Err(Refusal::Node);
    }
    if sizes.n <= other {
        return Err(Refusal::Node);
    }
    check_nodes(sizes, boards)
}

// 5 NODE of two lists and a board.
pub fn check_nodes_joined(
    sizes: Sizes,
    boards: &[usize],
    others: &[usize],
    last: usize,
) -> Result<(), Refusal>
    ensures { result ≡ asked (node_line sizes (boards.now ++ others.now ++ (last ∷ []))) }
{
    if line_tests::below(sizes.n, boards) {
        if line_tests::below(sizes.n, others) {
            return line_checks::check_node(sizes, last);
        }
    }
    Err(Refusal::Node)
}

// 2 AREA of one slice.
pub fn check_lent(got: usize, want: usize) -> Result<(), Refusal>
    ensures { result ≡ asked (area_line (eqb got want ∷ [])) }
{
    if got == want {
        Ok(())
    } else {
        Err(Refusal::Area)
    }
}

// 2 AREA of two slices.
pub fn check_two_lent(got: usize, want: usize, other: usize, wanted: usize) -> Result<(), Refusal>
    ensures { result ≡ asked (area_line (eqb got want ∷ eqb other wanted ∷ [])) }
{
    if got != want {
        return Err(Refusal::Area);
    }
    check_lent(other, wanted)
}

// S of a length that is not LONG.
pub fn stripe_count(sizes: Sizes, len: usize) -> usize
    requires { Stated sizes len }
    ensures { (result ≡ stripes sizes len) × (result ≤ 4096) }
{
    let stripe = sizes.stripe_len();
    (len + (stripe - 1)) / stripe
}
