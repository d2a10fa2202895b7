//! Document 01, board level, stateless, for all input: a file from k shares.
//! The call meets its definition in the crate `board_spec` at the points that it is given: the answer, and every byte of the output
//! that it was lent. A refusal leaves the output as it came.

#![tactic(auto)]

ghost use Rattle.std.specs.Prelude.{◌≡◌, length};
ghost use Rattle.lists.specs.Lists.{tabulate};
ghost use Rattle.gf256.specs.Field.{inverse};
ghost use Rattle.sizes.specs.Refusals.{first, board_order};
ghost use Rattle.board_spec.specs.Calls.{file_lines, file_call};
ghost use Rattle.board_lines.specs.Outcomes.{outcome};
ghost use Rattle.decode_setup.specs.Steps.{Made};

use sizes::{Refusal, Sizes};

// The first refusal of a file of so many bytes from these shares. Each check's refusal is passed on. Where there
// is none the tables of the read are made.
fn check_file(
    sizes: Sizes,
    points: &[u8],
    inverses: &[u8],
    len: usize,
    boards: &[usize],
    held: &[u8],
    out: &[u8],
    tables: &mut [u8],
) -> Result<(), Refusal>
    requires { (inverses.now ≡ tabulate 256 inverse) × (length tables.old ≡ 49152) }
    ensures { (result ≡ first board_order (file_lines sizes points.now len boards.now held.now out.now)) × (result ≡ Ok tt → Made sizes points.now boards.now tables.new) }
{
    board_lines::check_stated(sizes, points, len)?;
    board_lines::check_count(boards.len(), sizes.k)?;
    board_lines::check_nodes(sizes, boards)?;
    line_checks::check_repeat(boards)?;
    let stripes = board_lines::stripe_count(sizes, len);
    let share_len = stripes * sizes.share_len();
    board_lines::check_lent(held.len(), sizes.k * share_len)?;
    line_checks::check_room(out, len)?;
    decode_shares::check_agrees(sizes, points, inverses, len, stripes, boards, held, tables)
}

// The file of so many bytes that k shares give, or DISAGREE where no such file has them. Answers the number of bytes written.
pub fn file(
    sizes: Sizes,
    points: [u8; 32],
    len: usize,
    boards: &[usize],
    held: &[u8],
    out: &mut [u8],
) -> Result<usize, Refusal>
    ensures { outcome result out.new ≡ file_call sizes points len boards.now held.now out.old }
{
    let mut inverses = [0u8; 256];
    inverses::fill_inverses(&mut inverses);
    let mut tables = [0u8; 49152];
    check_file(
        sizes,
        &points,
        &inverses,
        len,
        boards,
        held,
        out,
        &mut tables,
    )?;
    let stripes = board_lines::stripe_count(sizes, len);
    decode_shares::write_file(sizes, &points, len, stripes, boards, held, &tables, out);
    Ok(len)
}
