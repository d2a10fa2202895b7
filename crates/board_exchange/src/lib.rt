//! Document 01, board level, stateless, for all input: an exchange packet.
//! The call meets its definition in the crate `board_spec` at the points that it is given: the answer, and every byte of the output
//! that it was lent. A refusal leaves the output as it came.

#![tactic(auto)]

ghost use Rattle.std.specs.Prelude.{◌≡◌};
ghost use Rattle.sizes.specs.Refusals.{first, board_order};
ghost use Rattle.board_spec.specs.Calls.{exchange_lines, exchange_call};
ghost use Rattle.board_lines.specs.Outcomes.{outcome};

use sizes::{Refusal, Sizes};

// The first refusal of an exchange packet: its lines in document 01's order. Each check's refusal is passed on.
fn check_exchange(
    sizes: Sizes,
    points: &[u8],
    len: usize,
    board: usize,
    helpers: &[usize],
    packets: &[u8],
    receiver: usize,
    out: &[u8],
) -> Result<(), Refusal>
    ensures { result ≡ first board_order (exchange_lines sizes points.now len board helpers.now packets.now receiver out.now) }
{
    board_lines::check_stated(sizes, points, len)?;
    board_lines::check_count(helpers.len(), sizes.d)?;
    board_lines::check_nodes_with(sizes, board, receiver, helpers)?;
    line_checks::check_repeat_with(board, receiver, helpers)?;
    let stripes = board_lines::stripe_count(sizes, len);
    board_lines::check_lent(packets.len(), sizes.d * (2 * stripes))?;
    line_checks::check_room(out, stripes)
}

// The exchange packet that a board being rebuilt makes of its d helper packets, for another. Answers the number of bytes written.
pub fn exchange_packet(
    sizes: Sizes,
    points: [u8; 32],
    len: usize,
    board: usize,
    helpers: &[usize],
    packets: &[u8],
    receiver: usize,
    out: &mut [u8],
) -> Result<usize, Refusal>
    ensures { outcome result out.new ≡ exchange_call sizes points len board helpers.now packets.now receiver out.old }
{
    check_exchange(sizes, &points, len, board, helpers, packets, receiver, out)?;
    let stripes = board_lines::stripe_count(sizes, len);
    let mut inverses = [0u8; 256];
    inverses::fill_inverses(&mut inverses);
    stripe_exchange::exchange_packet(
        sizes, &points, &inverses, stripes, helpers, packets, receiver, out,
    );
    Ok(stripes)
}
