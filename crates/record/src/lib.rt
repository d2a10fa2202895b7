//! The store's record, and that of a started repair (request A.8), by value: what the checks of its calls take.

#![tactic(auto)]

ghost use Rattle.std.specs.Prelude.{◌≡◌};
ghost use Rattle.store_spec.specs.Record.{new_record};
ghost use Rattle.beside_spec.specs.Running.{idle};
ghost use Rattle.record.specs.Records.{record_of, running_in};

use sizes::Sizes;

// The sizes, a point for each board, the capacity in stripes, whether a file was accepted, its length, and a mark for each board: in service or not.
#[derive(Clone, Copy)]
pub struct Kept {
    pub sizes: Sizes,
    pub points: [u8; 32],
    pub capacity: usize,
    pub written: bool,
    pub length: usize,
    pub marks: [bool; 32],
}

// Whether a repair runs, the number t of its fresh boards, the packets carried, and its lists as bytes: t fresh boards, their t × d helpers and
// t × (r − t) stand-ins, each at the beginning of its array.
#[derive(Clone, Copy)]
pub struct Running {
    pub running: bool,
    pub count: usize,
    pub carried: usize,
    pub fresh: [u8; 32],
    pub helpers: [u8; 256],
    pub stand_ins: [u8; 256],
}

// The record of a store with no file.
pub fn new_kept(sizes: Sizes, points: [u8; 32], capacity: usize) -> Kept
    ensures { record_of result ≡ new_record sizes points capacity }
{
    Kept {
        sizes: sizes,
        points: points,
        capacity: capacity,
        written: false,
        length: 0,
        marks: [false; 32],
    }
}

// The record of no repair.
pub fn idle() -> Running
    ensures { running_in result ≡ idle }
{
    Running {
        running: false,
        count: 0,
        carried: 0,
        fresh: [0u8; 32],
        helpers: [0u8; 256],
        stand_ins: [0u8; 256],
    }
}
