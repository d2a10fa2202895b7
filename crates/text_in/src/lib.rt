//! Lines of a share text that stand at a place of a lent slice: a line of a number, a line of pairs, and the bytes that pairs spell. Each tells whether the
//! line stands there, and the place behind it; a line that does not stand there leaves the place behind the whole text, where no line stands.

#![tactic(auto)]

ghost use Rattle.std.specs.Prelude.{◌≡◌, ◌+◌, ◌*◌, ◌≤◌, ◌<◌, length, get_or};
ghost use Rattle.number_lines.specs.Steps.{fed};
ghost use Rattle.point_lines.specs.Lines.{hexadecimal};
ghost use Rattle.text_in.specs.Steps.{most, lost, name_of, number_at, pairs_name, name_at, pairs_at, pairs_line_at, nibble, pair_at, bytes_at};

use number_lines::{Read, Reader};

// A number above the greatest length of a file is held as this.
const MOST: usize = 4063233;

// Whether the line stands there; its number, or the place where its pairs begin; the place behind it.
#[derive(Clone, Copy)]
pub struct Told {
    pub ok: bool,
    pub value: usize,
    pub next: usize,
}

// No such line.
pub fn lost(text: &[u8]) -> Told
    ensures { result ≡ lost text.now }
{
    Told {
        ok: false,
        value: 0,
        next: text.len(),
    }
}

// A line of a number after a byte, by its name: 0 for n, 1 for k, 2 for d, 3 for r, 4 for node, else length.
fn feed_line(which: u8, line: Reader, b: u8) -> Read
    ensures { result ≡ fed (name_of which) most line b }
{
    match which {
        0 => number_lines::feed(line, b"n=", MOST, b),
        1 => number_lines::feed(line, b"k=", MOST, b),
        2 => number_lines::feed(line, b"d=", MOST, b),
        3 => number_lines::feed(line, b"r=", MOST, b),
        4 => number_lines::feed(line, b"node=", MOST, b),
        _ => number_lines::feed(line, b"length=", MOST, b),
    }
}

// The line of a number at a place.
pub fn number_at(text: &[u8], at: usize, which: u8) -> Told
    ensures { result ≡ number_at text.now at which }
{
    let mut line = number_lines::start();
    for i in at..text.len() {
        match feed_line(which, line, text[i]) {
            Read::More(next) => {
                line = next;
            }
            Read::Whole(v) => {
                return Told {
                    ok: true,
                    value: v,
                    next: i + 1,
                };
            }
            Read::Malformed => {
                return lost(text);
            }
        }
    }
    lost(text)
}

// These bytes at a place.
fn name_at(text: &[u8], at: usize, name: &[u8]) -> Told
    ensures { result ≡ name_at text.now at name.now }
{
    let mut i = at;
    for b in name {
        if text.len() <= i {
            return lost(text);
        }
        if text[i] != *b {
            return lost(text);
        }
        i += 1;
    }
    Told {
        ok: true,
        value: 0,
        next: i,
    }
}

// Whether a digit stands at a place.
pub fn digit_at(text: &[u8], at: usize) -> bool
    ensures { result ≡ hexadecimal (get_or text.now at 0) }
{
    if at < text.len() {
        point_lines::is_hexadecimal(text[at])
    } else {
        false
    }
}

// So many pairs at a place, and byte 0A.
fn pairs_at(text: &[u8], at: usize, count: usize) -> Told
    ensures { result ≡ pairs_at text.now at count }
{
    let mut i = at;
    for _ in 0..count {
        if !digit_at(text, i) {
            return lost(text);
        }
        if !digit_at(text, i + 1) {
            return lost(text);
        }
        i += 2;
    }
    if text.len() <= i {
        return lost(text);
    }
    if text[i] != 10 {
        return lost(text);
    }
    Told {
        ok: true,
        value: at,
        next: i + 1,
    }
}

// The line of so many pairs at a place, by its name: 0 for points, else data.
pub fn pairs_line_at(text: &[u8], at: usize, which: u8, count: usize) -> Told
    ensures { result ≡ pairs_line_at text.now at which count }
{
    if which == 0 {
        let points = name_at(text, at, b"points=");
        return pairs_at(text, points.next, count);
    }
    let data = name_at(text, at, b"data=");
    pairs_at(text, data.next, count)
}

// The value of a digit, and 0 of any other byte.
fn nibble(b: u8) -> u8
    ensures { result ≡ nibble b }
{
    if point_lines::is_hexadecimal(b) {
        point_lines::digit_value(b)
    } else {
        0
    }
}

// The bytes that pairs spell from a place on, as many as the output has.
pub fn fill_pairs(text: &[u8], at: usize, out: &mut [u8])
    requires { at + 2 * length out.old ≤ length text.now }
    ensures { out.new ≡ bytes_at text.now at (length out.old) }
{
    for j in 0..out.len() {
        let high = text[at + 2 * j];
        let low = text[at + 2 * j + 1];
        out[j] = 16 * nibble(high) + nibble(low);
    }
}
