//! Document 01, board level, stateless, for all input: a helper packet.
//! The call meets its definition in the crate `board_spec` at the points that it is given: the answer, and every byte of the output
//! that it was lent. A refusal leaves the output as it came.

#![tactic(auto)]

ghost use Rattle.std.specs.Prelude.{◌≡◌};
ghost use Rattle.sizes.specs.Refusals.{first, board_order};
ghost use Rattle.board_spec.specs.Calls.{helper_lines, helper_call};
ghost use Rattle.board_lines.specs.Outcomes.{outcome};

use sizes::{Refusal, Sizes};

// The first refusal of a helper packet: its lines in document 01's order. Each check's refusal is passed on.
fn check_helper(
    sizes: Sizes,
    points: &[u8],
    len: usize,
    helper: usize,
    receiver: usize,
    held: &[u8],
    out: &[u8],
) -> Result<(), Refusal>
    ensures { result ≡ first board_order (helper_lines sizes points.now len helper receiver held.now out.now) }
{
    board_lines::check_stated(sizes, points, len)?;
    let named = [helper, receiver];
    board_lines::check_nodes(sizes, &named)?;
    line_checks::check_repeat(&named)?;
    let stripes = board_lines::stripe_count(sizes, len);
    board_lines::check_lent(held.len(), stripes * sizes.share_len())?;
    let count = 2 * stripes;
    line_checks::check_room(out, count)
}

// The helper packet that a board makes of its share of a file of so many bytes, for another board. Answers the number of bytes written.
pub fn helper_packet(
    sizes: Sizes,
    points: [u8; 32],
    len: usize,
    helper: usize,
    receiver: usize,
    held: &[u8],
    out: &mut [u8],
) -> Result<usize, Refusal>
    ensures { outcome result out.new ≡ helper_call sizes points len helper receiver held.now out.old }
{
    check_helper(sizes, &points, len, helper, receiver, held, out)?;
    let stripes = board_lines::stripe_count(sizes, len);
    let mut inverses = [0u8; 256];
    inverses::fill_inverses(&mut inverses);
    stripe_helper::helper_packet(
        sizes, &points, &inverses, stripes, helper, receiver, held, out,
    );
    Ok(2 * stripes)
}
