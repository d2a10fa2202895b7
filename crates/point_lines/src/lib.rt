//! The line of points, `points=`, n lower-case pairs and byte 0A, read one byte after another. A reader by value stands in the line; fed with a
//! byte, it goes on, or the line is whole, or it is malformed. A line of more than 32 pairs is malformed.

#![tactic(auto)]

ghost use Rattle.std.specs.Prelude.{◌≡◌, true, ◌<◌, length};
ghost use Rattle.point_lines.specs.Lines.{hexadecimal, digit_value};
ghost use Rattle.point_lines.specs.Steps.{begin, turned, fed_name, fed_high, fed_low, fed};

// Where in the line: 0 in its name and before a pair, 1 within a pair, 2 behind the line, 3 in a line that is malformed; the bytes of the name and
// the pairs that are read; the first digit of the pair; the points, 00 from the pairs up.
#[derive(Clone, Copy)]
pub struct PointReader {
    pub part: u8,
    pub at: usize,
    pub pairs: usize,
    pub high: u8,
    pub points: [u8; 32],
}

// The reader before the first byte.
pub fn start() -> PointReader
    ensures { result ≡ begin }
{
    let points = [0u8; 32];
    PointReader {
        part: 0,
        at: 0,
        pairs: 0,
        high: 0,
        points: points,
    }
}

// Whether a byte is one of 0 to 9 and a to f.
pub fn is_hexadecimal(b: u8) -> bool
    ensures { result ≡ hexadecimal b }
{
    if b < 48 {
        return false;
    }
    if b < 58 {
        return true;
    }
    if b < 97 {
        return false;
    }
    b < 103
}

// The value of such a digit.
pub fn digit_value(b: u8) -> u8
    requires { hexadecimal b ≡ true }
    ensures { result ≡ digit_value b }
{
    if b < 58 { b - 48 } else { b - 87 }
}

// The reader in another part of the line.
pub fn turned(r: PointReader, part: u8) -> PointReader
    ensures { result ≡ turned r part }
{
    let mut q = r;
    q.part = part;
    q
}

// A byte of the name.
fn feed_name(r: PointReader, name: &[u8], b: u8) -> PointReader
    requires { r.at < length name.now }
    ensures { result ≡ fed_name name.now r b }
{
    let at = r.at;
    if b == name[at] {
        let mut q = r;
        q.at = at + 1;
        return q;
    }
    turned(r, 3)
}

// A byte behind the name or behind a pair.
fn feed_high(r: PointReader, n: usize, b: u8) -> PointReader
    ensures { result ≡ fed_high n r b }
{
    if r.pairs == n {
        if b == 10 {
            return turned(r, 2);
        }
        return turned(r, 3);
    }
    if is_hexadecimal(b) {
        let mut q = r;
        q.part = 1;
        q.high = digit_value(b);
        return q;
    }
    turned(r, 3)
}

// A byte within a pair.
fn feed_low(r: PointReader, b: u8) -> PointReader
    ensures { result ≡ fed_low r b }
{
    let at = r.pairs;
    if 32 <= at {
        return turned(r, 3);
    }
    if is_hexadecimal(b) {
        let mut q = r;
        q.part = 0;
        q.pairs = at + 1;
        q.points[at] = r.high % 16 * 16 + digit_value(b);
        return q;
    }
    turned(r, 3)
}

// The reader after a byte, in a line of n points.
pub fn feed(r: PointReader, n: usize, b: u8) -> PointReader
    ensures { result ≡ fed n r b }
{
    if r.part == 1 {
        return feed_low(r, b);
    }
    if r.part != 0 {
        return r;
    }
    if r.at < 7 {
        return feed_name(r, b"points=", b);
    }
    feed_high(r, n, b)
}
