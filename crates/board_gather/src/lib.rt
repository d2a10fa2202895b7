//! Request A.1, the gathering: k share texts, one after another in one lent slice, give the file that has their shares, and its length.

#![tactic(auto)]

ghost use Rattle.std.specs.Prelude.{◌≡◌};
ghost use Rattle.text_spec.specs.Calls.{gather_call};
ghost use Rattle.board_lines.specs.Outcomes.{outcome};

use sizes::Refusal;

// The file of k texts' shares. TEXT where the slice is no texts that `board_text::text` writes, one after another; MIXED where they differ in sizes,
// points or length; then as of a file from k shares. No text at all is COUNT.
pub fn gather(text: &[u8], out: &mut [u8]) -> Result<usize, Refusal>
    ensures { outcome result out.new ≡ gather_call text.now out.old }
{
    if text.len() == 0 {
        return Err(Refusal::Count);
    }
    let first = text_head::head_at(text, 0);
    if !first.ok {
        return Err(Refusal::Text);
    }
    let sizes = first.sizes;
    let points = first.points;
    let len = first.length;
    let mut nodes = [0usize; 32];
    let mut places = [0usize; 32];
    let found = text_scan::scan_texts(text, sizes, &points, len, &mut nodes, &mut places);
    if !found.ok {
        return Err(Refusal::Text);
    }
    if !found.alike {
        return Err(Refusal::Mixed);
    }
    let k = sizes.k;
    if found.count != k {
        return Err(Refusal::Count);
    }
    gather_told::gather_told(text, sizes, &points, len, &nodes[0..k], &places[0..k], out)
}
