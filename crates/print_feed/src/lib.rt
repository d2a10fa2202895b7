//! The printers' input over lent slices, a part at a time. The file's bytes stand at the beginning of a slice, as many as the parser has
//! counted. Each contract says, for a slice of any length, what every byte of it is after the call; with a slice of 16,384 bytes it is what the
//! crate `printer` defines.

#![tactic(auto)]

ghost use Rattle.std.specs.Prelude.{◌≡◌};
ghost use Rattle.print_feed.specs.Steps.{kept_in, feed_all};

use printer::Parser;

// Keeps a byte of the file, where it is one, before the parser is fed with it.
pub fn keep(p: Parser, b: u8, file: &mut [u8])
    ensures { file.new ≡ kept_in p b file.old }
{
    if p.bad {
        return;
    }
    if !print_parser::in_file(p) {
        return;
    }
    let at = p.count;
    if at < file.len() {
        file[at] = b;
    }
}

// The parser after a part of the input; the part's bytes of the file are kept.
pub fn feed_all(p: Parser, input: &[u8], file: &mut [u8]) -> Parser
    ensures { record { parser = result; file = file.new } ≡ feed_all (record { parser = p; file = file.old }) input.now }
{
    let mut q = p;
    for b in input {
        keep(q, *b, file);
        q = print_parser::feed(q, *b);
    }
    q
}
