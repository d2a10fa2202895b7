//! Request A.2: the line that the trial program prints after a call.

#![tactic(auto)]

ghost use Rattle.std.specs.Prelude.{◌≡◌, ◌++◌, ◌+◌, ◌≤◌, ◌<◌, length};
ghost use Rattle.sizes.specs.Refusals.{said};
ghost use Rattle.board_spec.specs.Text.{decimal};
ghost use Rattle.text_lines.specs.Steps.{Wrote};
ghost use Rattle.trial_line.specs.Line.{opening, moved_end, line_of};

use sizes::Refusal;

// The refusal's number, or 0.
fn refusal(answer: Result<usize, Refusal>) -> u8
    ensures { result ≡ (said answer).refusal }
{
    match answer {
        Ok(_) => 0,
        Err(x) => x.number(),
    }
}

// The number reported, or 0.
fn reported(answer: Result<usize, Refusal>) -> usize
    ensures { result ≡ (said answer).reported }
{
    match answer {
        Ok(v) => v,
        Err(_) => 0,
    }
}

// The beginning of a line, by the kind of call: 0 for write, 1 for lose, 2 for repair, else read.
fn put_opening(op: u8, line: &mut [u8]) -> usize
    requires { 17 ≤ length line.old }
    ensures { Wrote line.old 0 (opening op) line.new result }
{
    match op {
        0 => text_lines::put_bytes(b"op=write answer=", 0, line),
        1 => text_lines::put_bytes(b"op=lose answer=", 0, line),
        2 => text_lines::put_bytes(b"op=repair answer=", 0, line),
        _ => text_lines::put_bytes(b"op=read answer=", 0, line),
    }
}

// The end of a line, from a place on: the bytes reported.
fn put_moved(moved: usize, at: usize, line: &mut [u8]) -> usize
    requires { (at ≤ 20) × (length line.old ≡ 48) }
    ensures { Wrote line.old at (moved_end moved) line.new result }
{
    let place = text_lines::put_bytes(b" moved=", at, line);
    let end = text_lines::put_decimal(moved, place, line);
    line[end] = b'\n';
    end + 1
}

// The line of a call of this kind with this answer, to the beginning of a slice. Answers how many bytes it has.
pub fn put_call(op: u8, answer: Result<usize, Refusal>, line: &mut [u8]) -> usize
    requires { length line.old ≡ 48 }
    ensures { Wrote line.old 0 (line_of op (said answer)) line.new result }
{
    let place = put_opening(op, line);
    let end = text_lines::put_decimal(refusal(answer) as usize, place, line);
    put_moved(reported(answer), end, line)
}
