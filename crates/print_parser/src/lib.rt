//! The printers' decisions over a stream of bytes: a parser by value, fed one byte after another. The share printer has document 01's points; the
//! points printer is asked for the line of points behind the five lines.

#![tactic(auto)]

ghost use Rattle.std.specs.Prelude.{◌≡◌, ◌≤◌};
ghost use Rattle.lists.specs.Tests.{pick};
ghost use Rattle.printer.specs.Steps.{accepted, begin, wrong, stored, counted, line_fed, behind_fed, fed, in_file, sizes_read, points_read, refusal_of};

use number_lines::{Read, Reader};
use printer::Parser;
use sizes::Sizes;

// "more than 16,384 file bytes give 3"
const MOST: usize = 16384;

// a number of 1,000 or more is held as 1,000, which no size and no board is
const HELD: usize = 1000;

// Where the reader of the line of points begins: before the line, or behind it where there is none to read.
fn first_part(asked: bool) -> u8
    ensures { result ≡ pick asked 0 2 }
{
    if asked { 0 } else { 2 }
}

// The parser before the first byte, of an input that has a line of points, or of one that has none.
pub fn start(asked: bool) -> Parser
    ensures { result ≡ begin asked }
{
    let line = number_lines::start();
    let first = point_lines::start();
    let points = point_lines::turned(first, first_part(asked));
    Parser {
        left: 5,
        line: line,
        n: 0,
        k: 0,
        d: 0,
        r: 0,
        node: 0,
        asked: asked,
        points: points,
        count: 0,
        bad: false,
    }
}

fn choose(test: bool, a: usize, b: usize) -> usize
    ensures { result ≡ pick test a b }
{
    if test { a } else { b }
}

// The input is refused, whatever follows: a line was malformed, or a read failed.
pub fn wrong(p: Parser) -> Parser
    ensures { result ≡ wrong p }
{
    let mut q = p;
    q.bad = true;
    q
}

fn counted(p: Parser) -> Parser
    ensures { result ≡ counted p }
{
    if MOST < p.count {
        return p;
    }
    let mut q = p;
    q.count = p.count + 1;
    q
}

// The line is read, and its number is v.
fn stored(p: Parser, v: usize) -> Parser
    requires { 1 ≤ p.left }
    ensures { result ≡ stored p.left p v }
{
    let line = number_lines::start();
    let points = p.points;
    Parser {
        left: p.left - 1,
        line: line,
        n: choose(p.left == 5, v, p.n),
        k: choose(p.left == 4, v, p.k),
        d: choose(p.left == 3, v, p.d),
        r: choose(p.left == 2, v, p.r),
        node: choose(p.left == 1, v, p.node),
        asked: p.asked,
        points: points,
        count: p.count,
        bad: p.bad,
    }
}

// A byte of the line.
fn feed_line(left: u8, line: Reader, b: u8) -> Read
    ensures { result ≡ line_fed left line b }
{
    match left {
        5 => number_lines::feed(line, b"n=", HELD, b),
        4 => number_lines::feed(line, b"k=", HELD, b),
        3 => number_lines::feed(line, b"d=", HELD, b),
        2 => number_lines::feed(line, b"r=", HELD, b),
        _ => number_lines::feed(line, b"node=", HELD, b),
    }
}

// A byte behind the lines of numbers: of the line of points, or of the file.
fn feed_behind(p: Parser, b: u8) -> Parser
    ensures { result ≡ behind_fed p b }
{
    let points = p.points;
    if points.part == 2 {
        return counted(p);
    }
    let mut q = p;
    q.points = point_lines::feed(points, p.n, b);
    q
}

// The parser after a byte.
pub fn feed(p: Parser, b: u8) -> Parser
    ensures { result ≡ fed p b }
{
    if p.bad {
        return p;
    }
    if p.left == 0 {
        return feed_behind(p, b);
    }
    let line = p.line;
    let x = feed_line(p.left, line, b);
    match x {
        Read::More(next) => {
            let mut q = p;
            q.line = next;
            q
        }
        Read::Whole(v) => stored(p, v),
        Read::Malformed => wrong(p),
    }
}

// The sizes that were read.
pub fn sizes(p: Parser) -> Sizes
    ensures { result ≡ sizes_read p }
{
    Sizes {
        n: p.n,
        k: p.k,
        d: p.d,
        r: p.r,
    }
}

// The boards' points: those that were read, or document 01's.
pub fn points(p: Parser) -> [u8; 32]
    ensures { result ≡ points_read p }
{
    if p.asked {
        let points = p.points;
        return points.points;
    }
    board_lines::standard_points(sizes(p))
}

// Whether the input is behind its lines.
pub fn in_file(p: Parser) -> bool
    ensures { result ≡ in_file p }
{
    if p.left != 0 {
        return false;
    }
    let points = p.points;
    points.part == 2
}

// Whether the sizes are legal, and the points are taken with them.
fn is_accepted(p: Parser) -> bool
    ensures { result ≡ accepted (sizes_read p) (points_read p) }
{
    let z = sizes(p);
    if z.legal() {
        let xs = points(p);
        return line_checks::points_taken(z, &xs);
    }
    false
}

// At the end of the input: the number of a refusal that the lines and the file's length cause, else 0.
pub fn refusal(p: Parser) -> u8
    ensures { result ≡ refusal_of p }
{
    if p.bad {
        return 1;
    }
    if !in_file(p) {
        return 1;
    }
    if !is_accepted(p) {
        return 1;
    }
    if MOST < p.count {
        return 3;
    }
    0
}
