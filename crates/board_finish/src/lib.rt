//! Document 01, board level, stateless, for all input: a finished share.
//! The call meets its definition in the crate `board_spec` at the points that it is given: the answer, and every byte of the output
//! that it was lent. A refusal leaves the output as it came.

#![tactic(auto)]

ghost use Rattle.std.specs.Prelude.{◌≡◌};
ghost use Rattle.sizes.specs.Refusals.{first, board_order};
ghost use Rattle.board_spec.specs.Calls.{finished_lines, finished_call};
ghost use Rattle.board_lines.specs.Outcomes.{outcome};

use sizes::{Refusal, Sizes};

// The first refusal of a finished share: its lines in document 01's order. Each check's refusal is passed on.
fn check_finish(
    sizes: Sizes,
    points: &[u8],
    len: usize,
    board: usize,
    helpers: &[usize],
    packets: &[u8],
    partners: &[usize],
    exchanges: &[u8],
    out: &[u8],
) -> Result<(), Refusal>
    ensures { result ≡ first board_order (finished_lines sizes points.now len board helpers.now packets.now partners.now exchanges.now out.now) }
{
    board_lines::check_stated(sizes, points, len)?;
    let others = sizes.r - 1;
    board_lines::check_counts(helpers.len(), sizes.d, partners.len(), others)?;
    board_lines::check_nodes_joined(sizes, helpers, partners, board)?;
    line_checks::check_repeat_joined(helpers, partners, board)?;
    let stripes = board_lines::stripe_count(sizes, len);
    let packets_len = sizes.d * (2 * stripes);
    let exchanges_len = others * stripes;
    board_lines::check_two_lent(packets.len(), packets_len, exchanges.len(), exchanges_len)?;
    line_checks::check_room(out, stripes * sizes.share_len())
}

// The share of a board being rebuilt, of its d helper packets and its r - 1 partners' packets. Answers the number of bytes written.
pub fn finished_share(
    sizes: Sizes,
    points: [u8; 32],
    len: usize,
    board: usize,
    helpers: &[usize],
    packets: &[u8],
    partners: &[usize],
    exchanges: &[u8],
    out: &mut [u8],
) -> Result<usize, Refusal>
    ensures { outcome result out.new ≡ finished_call sizes points len board helpers.now packets.now partners.now exchanges.now out.old }
{
    check_finish(
        sizes, &points, len, board, helpers, packets, partners, exchanges, out,
    )?;
    let stripes = board_lines::stripe_count(sizes, len);
    let mut inverses = [0u8; 256];
    inverses::fill_inverses(&mut inverses);
    share_finish::finished_share(
        sizes, &points, &inverses, stripes, board, helpers, packets, partners, exchanges, out,
    );
    Ok(stripes * sizes.share_len())
}
