//! Document 01, board level, stateless, for all input: one share of a file.
//! The call meets its definition in the crate `board_spec` at the points that it is given: the answer, and every byte of the output
//! that it was lent. A refusal leaves the output as it came.

#![tactic(auto)]

ghost use Rattle.std.specs.Prelude.{◌≡◌};
ghost use Rattle.sizes.specs.Refusals.{first, board_order};
ghost use Rattle.board_spec.specs.Calls.{share_lines, share_call};
ghost use Rattle.board_lines.specs.Outcomes.{outcome};

use sizes::{Refusal, Sizes};

// The first refusal of a share of this file. Each check's refusal is passed on.
fn check_share(
    sizes: Sizes,
    points: &[u8],
    node: usize,
    file: &[u8],
    out: &[u8],
) -> Result<(), Refusal>
    ensures { result ≡ first board_order (share_lines sizes points.now node file.now out.now) }
{
    board_lines::check_stated(sizes, points, file.len())?;
    line_checks::check_node(sizes, node)?;
    let stripes = board_lines::stripe_count(sizes, file.len());
    line_checks::check_room(out, stripes * sizes.share_len())
}

// The share of board `node` of a file, with these points of the boards. Answers the number of bytes written.
pub fn share(
    sizes: Sizes,
    points: [u8; 32],
    node: usize,
    file: &[u8],
    out: &mut [u8],
) -> Result<usize, Refusal>
    ensures { outcome result out.new ≡ share_call sizes points node file.now out.old }
{
    check_share(sizes, &points, node, file, out)?;
    let stripes = board_lines::stripe_count(sizes, file.len());
    let count = stripes * sizes.share_len();
    encode_share::share(sizes, &points, node, file, stripes, out);
    Ok(count)
}
