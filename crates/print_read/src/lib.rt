//! What the printers read from standard input, and what they are to write: the share printer, or the points printer, which is asked for a line of
//! points. This only reads; what is written is decided by the crates `print_feed` and `print_share`.
#![tactic(auto)]

ghost use Rattle.std.specs.Prelude.{◌≡◌, false, ◌≤◌, ltb, length, take};
ghost use Rattle.io.specs.Counts.{clamp_len};
ghost use Rattle.printer.specs.Steps.{begin};
ghost use Rattle.print_read.specs.Steps.{after_read, Reading, Printing, Lent};

use printer::Parser;
use std::io::Read;

// The parser after a read, and whether the input may go on.
#[derive(Clone, Copy)]
struct Step {
    parser: Parser,
    more: bool,
}

// Feeds what a read gave; 0 bytes are the end of the input. A read that failed refuses it: the text of a file that was cut is never written.
fn take_in(p: Parser, got: isize, slice: &[u8], file: &mut [u8]) -> Step
    ensures file_after { record { parser = result.parser; file = file.new } ≡ after_read got slice.now (record { parser = p; file = file.old }) }
    ensures more_value { result.more ≡ ltb 0 (clamp_len got (length slice.now)) }
{
    if got < 0 {
        return Step {
            parser: print_parser::wrong(p),
            more: false,
        };
    }
    let n = io::count(got, slice);
    Step {
        parser: print_feed::feed_all(p, &slice[..n], file),
        more: 0 < n,
    }
}

// Reads once, and feeds what came.
fn read_some<R: Read>(reader: &mut R, p: Parser, file: &mut [u8]) -> Step
    ensures { Reading (record { parser = p; file = file.old }) result.more (record { parser = result.parser; file = file.new }) }
{
    let mut slice = [0u8; 4096];
    let got = standard_input::read_once(reader, &mut slice);
    take_in(p, got, &slice, file)
}

// The parser at the end of the input. The loop counts its turns down from a number that no run uses up; an input that it left would be refused.
fn read_all<R: Read>(reader: &mut R, asked: bool, file: &mut [u8]) -> Parser
    ensures { Reading (record { parser = begin asked; file = file.old }) false (record { parser = result; file = file.new }) }
{
    let mut p = print_parser::start(asked);
    let mut more = true;
    let mut turns = u64::MAX;
    while turns > 0 && more {
        let step = read_some(reader, p, file);
        p = step.parser;
        more = step.more;
        turns -= 1;
    }
    if more {
        return print_parser::wrong(p);
    }
    p
}

// What is to be written, to the beginning of out. Answers how many bytes it has. The lengths are asked of the programs' own arrays.
pub fn print<R: Read>(reader: &mut R, asked: bool, file: &mut [u8], out: &mut [u8]) -> usize
    requires { Lent file.old out.old }
    ensures upper_bound { result ≤ length out.new }
    ensures printing { Printing asked (take result out.new) }
{
    let p = read_all(reader, asked, file);
    print_share::answer(p, file, out)
}
