// The points printer of request A.9: reads sizes, a board, the boards' points and a file from standard input, and writes the board's share as
// text, or one line with the number of a refusal.
// It only reads and writes; what it writes is decided by the crates `print_feed` and `print_share`.
#![tactic(auto)]

ghost use Rattle.std.specs.Prelude.{◌≤◌, true, length, take};
ghost use Rattle.print_read.specs.Steps.{Printing, Lent};

use std::io::Read;

// What is to be written, to the beginning of out. Answers how many bytes it has.
fn print<R: Read>(reader: &mut R, file: &mut [u8], out: &mut [u8]) -> usize
    requires { Lent file.old out.old }
    ensures upper_bound { result ≤ length out.new }
    ensures printing { Printing true (take result out.new) }
{
    print_read::print(reader, true, file, out)
}

fn main(rt: HostRuntime) {
    let mut reader = rt.stdin();
    let mut file = [0u8; 16384];
    let mut out = [0u8; 34900];
    let count = print(&mut reader, &mut file, &mut out);
    io::write_all(1, &out[..count]);
}
