// A file gathered from texts that were told.
// Assumes nothing.

#![tactic(auto)]

ghost use Rattle.std.specs.Prelude.{◌≡◌};
ghost use Rattle.board_lines.specs.Outcomes.{outcome};
ghost use Rattle.gather_told.specs.Steps.{Ready, file_told};

use sizes::{Refusal, Sizes};

// The file from k shares, of which the pairs begin at these places of the text: REPEAT, SHORT, DISAGREE, or its bytes.
pub fn gather_told(
    text: &[u8],
    sizes: Sizes,
    points: &[u8],
    len: usize,
    boards: &[usize],
    places: &[usize],
    out: &mut [u8],
) -> Result<usize, Refusal>
    requires { Ready text.now sizes points.now len boards.now places.now }
    ensures { outcome result out.new ≡ file_told text.now sizes points.now len boards.now places.now out.old }
{
    if !line_tests::different(boards) {
        return Err(Refusal::Repeat);
    }
    if out.len() < len {
        return Err(Refusal::Short);
    }
    let stripes = board_lines::stripe_count(sizes, len);
    let mut inverses = [0u8; 256];
    inverses::fill_inverses(&mut inverses);
    let mut tables = [0u8; 49152];
    decode_setup::fill(sizes, points, &inverses, boards, &mut tables);
    if !decode_texts::agrees(text, sizes, points, len, stripes, boards, places, &tables) {
        return Err(Refusal::Disagree);
    }
    decode_texts::write_file(
        text, sizes, points, len, stripes, boards, places, &tables, out,
    );
    Ok(len)
}
