//! The printers' definitions and laws, and what their parser knows between two bytes. It has no function of its own: those are in `print_parser`.

#![tactic(auto)]

use number_lines::Reader;
use point_lines::PointReader;

// Where the input is: the lines of numbers left; in a line, its reader; the numbers read, of which any of 1,000 or more is 1,000; whether a line of
// points is asked for, and its reader, which stands behind the line where there is none to read; the bytes of the file, counted up to 16,385; whether
// a line of a number was malformed, or a read failed.
#[derive(Clone, Copy)]
pub struct Parser {
    pub left: u8,
    pub line: Reader,
    pub n: usize,
    pub k: usize,
    pub d: usize,
    pub r: usize,
    pub node: usize,
    pub asked: bool,
    pub points: PointReader,
    pub count: usize,
    pub bad: bool,
}
