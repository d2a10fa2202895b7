//! The printers' output over lent slices. The file's bytes stand at the beginning of a slice, as many as the parser has counted. Each
//! contract says, for slices of any length, what is answered and what every lent byte is after the call: what the crate `printer` defines, where
//! there is room for all of it, and else nothing.

#![tactic(auto)]

ghost use Rattle.std.specs.Prelude.{◌≡◌, length};
ghost use Rattle.board_spec.specs.Calls.{share_call, text_call};
ghost use Rattle.printer.specs.Printer.{refused_line, told};
ghost use Rattle.print_share.specs.Steps.{placed, wrote_in, to_write};

use printer::Parser;
use sizes::Sizes;

// The line of a refusal, to the beginning of out. Answers how many bytes it has.
fn refused(x: u8, out: &mut [u8]) -> usize
    ensures { record { count = result; out = out.new } ≡ placed (refused_line x) out.old }
{
    let number = x as usize;
    let count = 9 + text_lines::decimal_len(number);
    if out.len() < count {
        return 0;
    }
    text_lines::put_line(b"refused", number, 0, out)
}

// The text of a share, to the beginning of out. Answers how many bytes it has.
fn text(z: Sizes, points: [u8; 32], total: usize, node: usize, held: &[u8], out: &mut [u8]) -> usize
    ensures { record { count = result; out = out.new } ≡ wrote_in (text_call z points total node held.now out.old) }
{
    let answer = board_text::text(z, points, total, node, held, out);
    match answer {
        Ok(count) => count,
        Err(_) => 0,
    }
}

// What the share of a file gives to write, to the beginning of out. Answers how many bytes it has.
fn told(
    z: Sizes,
    points: [u8; 32],
    node: usize,
    file: &[u8],
    share: &mut [u8],
    out: &mut [u8],
) -> usize
    ensures share_after { share.new ≡ (share_call z points node file.now share.old).output }
    ensures out_after { record { count = result; out = out.new } ≡ placed (told z points (length file.now) node (share_call z points node file.now share.old)) out.old }
{
    let answer = board_share::share(z, points, node, file, share);
    match answer {
        Ok(count) => text(z, points, file.len(), node, &share[..count], out),
        Err(x) => refused(x.number(), out),
    }
}

// The output, to the beginning of out, of a parser at the end of the input and the file that it kept. Answers how many bytes it has.
pub fn answer(p: Parser, file: &[u8], out: &mut [u8]) -> usize
    ensures { record { count = result; out = out.new } ≡ placed (to_write p file.now) out.old }
{
    let x = print_parser::refusal(p);
    if x != 0 {
        return refused(x, out);
    }
    let count = p.count;
    if file.len() < count {
        return 0;
    }
    let z = print_parser::sizes(p);
    let points = print_parser::points(p);
    let mut share = [0u8; 17376];
    told(z, points, p.node, &file[..count], &mut share, out)
}
