//! What a program reads from standard input, where it is at most as long as a lent slice. The reader is lent too: a program passes its own standard
//! input.
#![tactic(auto)]

ghost use Rattle.std.specs.Prelude.{◌≤◌, length};
ghost use Rattle.standard_input.specs.Reads.{Moved, Taken};

use std::io::Read;

// What a read of one byte gave.
#[derive(Clone, Copy)]
enum Got {
    Byte(u8),
    End,
    Failed,
}

// Reads once into a slice. Answers how many bytes it put at the beginning of the slice, where 0 are the end of the input, or -1 where the read failed.
pub fn read_once<R: Read>(reader: &mut R, slice: &mut [u8]) -> isize
    ensures bound { Moved result slice.new }
    ensures bytes { Taken (R.remaining reader.old) (R.remaining reader.new) result slice.new }
{
    match reader.read(slice) {
        Ok(n) => n as isize,
        Err(_) => -1,
    }
}

fn read_byte<R: Read>(reader: &mut R) -> Got {
    let mut byte = [0u8; 1];
    let got = read_once(reader, &mut byte);
    if got < 0 {
        return Got::Failed;
    }
    if got == 0 {
        return Got::End;
    }
    Got::Byte(byte[0])
}

// Reads to the end of the input or until the slice is full, and answers how many bytes came. A read that failed counts as a full slice, which the
// programs that call this refuse.
pub fn read_input<R: Read>(reader: &mut R, input: &mut [u8]) -> usize
    ensures { result ≤ length input.new }
{
    for done in 0..input.len() {
        match read_byte(reader) {
            Got::Byte(b) => {
                input[done] = b;
            }
            Got::End => {
                return done;
            }
            Got::Failed => {
                return input.len();
            }
        }
    }
    input.len()
}
