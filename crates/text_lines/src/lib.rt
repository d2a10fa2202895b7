//! Share text, written into a lent slice: decimals, hexadecimal pairs, lines. A function that writes answers the place behind what it wrote.

#![tactic(auto)]

ghost use Rattle.std.specs.Prelude.{◌≡◌, ◌+◌, ◌≤◌, ◌<◌, length};
ghost use Rattle.lists.specs.Lists.{joined};
ghost use Rattle.board_spec.specs.Text.{decimal, hex_digit, hex_pair, text_line};
ghost use Rattle.text_lines.specs.Steps.{Wrote, in_order, points_said};

// How many digits the decimal of x has.
pub fn decimal_len(x: usize) -> usize
    ensures { result ≡ length (decimal x) }
{
    let mut count: usize = 1;
    let mut y = x;
    while 10 <= y {
        y /= 10;
        count += 1;
    }
    count
}

// The decimal of x.
pub fn put_decimal(x: usize, at: usize, out: &mut [u8]) -> usize
    requires { at + length (decimal x) ≤ length out.old }
    ensures { Wrote out.old at (decimal x) out.new result }
{
    if x < 10 {
        out[at] = 48 + x as u8;
        return at + 1;
    }
    let last = put_decimal(x / 10, at, out);
    out[last] = 48 + (x % 10) as u8;
    last + 1
}

// Bytes as they are.
pub fn put_bytes(bytes: &[u8], at: usize, out: &mut [u8]) -> usize
    requires { at + length bytes.now ≤ length out.old }
    ensures { Wrote out.old at bytes.now out.new result }
{
    let end = at + bytes.len();
    out[at..end].copy_from_slice(bytes);
    end
}

// A digit of a pair: 0 to 9, then a to f.
pub fn hex_digit(v: u8) -> u8
    requires { v < 16 }
    ensures { result ≡ hex_digit v }
{
    if v < 10 { 48 + v } else { 87 + v }
}

// The hexadecimal pairs of bytes.
pub fn put_pairs(share: &[u8], at: usize, out: &mut [u8]) -> usize
    requires { at + length (joined hex_pair share.now) ≤ length out.old }
    ensures { Wrote out.old at (joined hex_pair share.now) out.new result }
{
    let mut p = at;
    for b in share {
        out[p] = hex_digit(*b / 16);
        out[p + 1] = hex_digit(*b % 16);
        p += 2;
    }
    p
}

// The line of a number: its name, =, the decimal and byte 0A.
pub fn put_line(name: &[u8], x: usize, at: usize, out: &mut [u8]) -> usize
    requires { at + length (text_line name.now (decimal x)) ≤ length out.old }
    ensures { Wrote out.old at (text_line name.now (decimal x)) out.new result }
{
    let equals = put_bytes(name, at, out);
    out[equals] = b'=';
    let end = put_decimal(x, equals + 1, out);
    out[end] = b'\n';
    end + 1
}

// The line of bytes as pairs: its name, =, the pairs and byte 0A.
pub fn put_pairs_line(name: &[u8], bytes: &[u8], at: usize, out: &mut [u8]) -> usize
    requires { at + length (text_line name.now (joined hex_pair bytes.now)) ≤ length out.old }
    ensures { Wrote out.old at (text_line name.now (joined hex_pair bytes.now)) out.new result }
{
    let equals = put_bytes(name, at, out);
    out[equals] = b'=';
    let end = put_pairs(bytes, equals + 1, out);
    out[end] = b'\n';
    end + 1
}

// Whether the points are 0, 1, 2 and so on, in order.
pub fn in_order(points: &[u8]) -> bool
    ensures { result ≡ in_order points.now }
{
    for (i, point) in points.iter().enumerate() {
        if usize::from(*point) != i {
            return false;
        }
    }
    true
}

// How many bytes the line of these points has: none where they are in order.
pub fn points_len(points: &[u8]) -> usize
    requires { length points.now ≤ 32 }
    ensures { result ≡ length (points_said points.now) }
{
    if in_order(points) {
        return 0;
    }
    8 + points.len() * 2
}

// The line of points, where they are not in order.
pub fn put_points(points: &[u8], at: usize, out: &mut [u8]) -> usize
    requires { at + length (points_said points.now) ≤ length out.old }
    ensures { Wrote out.old at (points_said points.now) out.new result }
{
    if in_order(points) {
        return at;
    }
    put_pairs_line(b"points", points, at, out)
}
