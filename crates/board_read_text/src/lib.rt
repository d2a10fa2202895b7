//! Request A.1, the text reader: a share text in a lent slice gives sizes, points, board number and length, and its share to an output.

#![tactic(auto)]

ghost use Rattle.std.specs.Prelude.{◌≡◌, List, Err};
ghost use Rattle.sizes.specs.Refusals.{said};
ghost use Rattle.text_spec.specs.Calls.{blank, read_text_call};

use sizes::{Refusal, Sizes};

// What the reader answers, and what the text tells; all 0 with a refusal.
#[derive(Clone, Copy)]
pub struct TextRead {
    pub answer: Result<usize, Refusal>,
    pub sizes: Sizes,
    pub points: [u8; 32],
    pub node: usize,
    pub length: usize,
}

// A refusal, with nothing told.
fn refused(x: Refusal) -> TextRead
    ensures { result ≡ record { answer = Err x; sizes = blank.sizes; points = blank.points; node = 0; length = 0 } }
{
    let points = [0u8; 32];
    TextRead {
        answer: Err(x),
        sizes: Sizes {
            n: 0,
            k: 0,
            d: 0,
            r: 0,
        },
        points: points,
        node: 0,
        length: 0,
    }
}

// Reads a share text: the share goes to the first bytes of the output. TEXT for any text that `board_text::text` writes not, SHORT for too little room.
pub fn read_text(text: &[u8], out: &mut [u8]) -> TextRead
    ensures { record { answer = said result.answer; sizes = result.sizes; points = result.points; node = result.node; length = result.length; output = out.new } ≡ read_text_call text.now out.old }
{
    let head = text_head::head_at(text, 0);
    if !head.ok {
        return refused(Refusal::Text);
    }
    if head.next != text.len() {
        return refused(Refusal::Text);
    }
    let count = head.count;
    if out.len() < count {
        return refused(Refusal::Short);
    }
    text_in::fill_pairs(text, head.place, &mut out[0..count]);
    let sizes = head.sizes;
    let points = head.points;
    TextRead {
        answer: Ok(count),
        sizes: sizes,
        points: points,
        node: head.node,
        length: head.length,
    }
}
