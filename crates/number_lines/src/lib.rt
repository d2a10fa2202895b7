//! A line of a name, a number and byte 0A, read one byte after another: any name, any bound. A reader by value stands in the line; fed with a
//! byte, it goes on, or the line is whole and gives its number, or it is malformed. A number of `most` or more is given as `most`.

#![tactic(auto)]

ghost use Rattle.std.specs.Prelude.{◌≡◌, ◌+◌, ◌*◌, ◌≤◌};
ghost use Rattle.number_lines.specs.Lines.{digit};
ghost use Rattle.number_lines.specs.Steps.{begin, capped, fed_digits, fed_first, fed};

// Where in the line: 0 for its name and first digit, 1 behind a first 0, 2 behind other digits; the bytes of the name that are read; the
// number so far.
#[derive(Clone, Copy)]
pub struct Reader {
    pub part: u8,
    pub at: usize,
    pub value: usize,
}

#[derive(Clone, Copy)]
pub enum Read {
    More(Reader),
    Whole(usize),
    Malformed,
}

// The reader before the first byte.
pub fn start() -> Reader
    ensures { result ≡ begin }
{
    Reader {
        part: 0,
        at: 0,
        value: 0,
    }
}

pub fn is_digit(b: u8) -> bool
    ensures { result ≡ digit b }
{
    if b < 48 {
        return false;
    }
    b < 58
}

fn least(v: usize, most: usize) -> usize
    ensures { result ≡ capped most v }
{
    if v < most { v } else { most }
}

// A number with one digit more.
fn grown(v: usize, x: usize, most: usize) -> usize
    ensures { result ≡ capped most (10 * v + x) }
{
    if most / 10 < v {
        return most;
    }
    let tens = 10 * v;
    if x < most - tens { tens + x } else { most }
}

// A byte behind other digits.
fn feed_digits(r: Reader, most: usize, b: u8) -> Read
    ensures { result ≡ fed_digits most r b }
{
    if b == 10 {
        return Read::Whole(least(r.value, most));
    }
    if is_digit(b) {
        let next = Reader {
            part: 2,
            at: r.at,
            value: grown(r.value, (b - 48) as usize, most),
        };
        return Read::More(next);
    }
    Read::Malformed
}

// A byte where the number begins.
fn feed_first(r: Reader, most: usize, b: u8) -> Read
    ensures { result ≡ fed_first most r b }
{
    if b == 48 {
        let next = Reader {
            part: 1,
            at: r.at,
            value: 0,
        };
        return Read::More(next);
    }
    if is_digit(b) {
        let next = Reader {
            part: 2,
            at: r.at,
            value: least((b - 48) as usize, most),
        };
        return Read::More(next);
    }
    Read::Malformed
}

// The line after a byte. The name is all that stands before the number, with its =.
pub fn feed(r: Reader, name: &[u8], most: usize, b: u8) -> Read
    ensures { result ≡ fed name.now most r b }
{
    if r.part == 1 {
        if b == 10 {
            return Read::Whole(0);
        }
        return Read::Malformed;
    }
    if r.part == 2 {
        return feed_digits(r, most, b);
    }
    let at = r.at;
    if at < name.len() {
        if b == name[at] {
            let next = Reader {
                part: r.part,
                at: at + 1,
                value: r.value,
            };
            return Read::More(next);
        }
        return Read::Malformed;
    }
    feed_first(r, most, b)
}
