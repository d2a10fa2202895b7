//! Document 01, board level, stateless, for all input: a share as text.
//! The call meets its definition in the crate `board_spec` at the points that it is given: the answer, and every byte of the output
//! that it was lent. A refusal leaves the output as it came.

#![tactic(auto)]

ghost use Rattle.std.specs.Prelude.{◌≡◌};
ghost use Rattle.sizes.specs.Refusals.{first, board_order};
ghost use Rattle.board_spec.specs.Calls.{text_lines, text_call};
ghost use Rattle.board_lines.specs.Outcomes.{outcome};

use sizes::{Refusal, Sizes};

// The first refusal of a text of this share. Each check's refusal is passed on.
fn check_text(
    sizes: Sizes,
    points: &[u8],
    len: usize,
    node: usize,
    held: &[u8],
    out: &[u8],
) -> Result<(), Refusal>
    ensures { result ≡ first board_order (text_lines sizes points.now len node held.now out.now) }
{
    board_lines::check_stated(sizes, points, len)?;
    line_checks::check_node(sizes, node)?;
    let stripes = board_lines::stripe_count(sizes, len);
    let share_len = stripes * sizes.share_len();
    board_lines::check_lent(held.len(), share_len)?;
    line_checks::check_room(
        out,
        text_writer::text_len(sizes, points, len, node, held.len()),
    )
}

// A board's share of a file of so many bytes, as text. Answers the number of bytes written.
pub fn text(
    sizes: Sizes,
    points: [u8; 32],
    len: usize,
    node: usize,
    held: &[u8],
    out: &mut [u8],
) -> Result<usize, Refusal>
    ensures { outcome result out.new ≡ text_call sizes points len node held.now out.old }
{
    check_text(sizes, &points, len, node, held, out)?;
    let text_len = text_writer::text_len(sizes, &points, len, node, held.len());
    text_writer::write_text(sizes, &points, len, node, held, out);
    Ok(text_len)
}
