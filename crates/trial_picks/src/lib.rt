//! Request A.2: what the generator picks for a turn of the trial load: the kind of its call, and its first board.

#![tactic(auto)]

ghost use Rattle.std.specs.Prelude.{◌≡◌, ◌%◌, ◌<◌};
ghost use Rattle.generator.specs.Generator.{step, top_byte};

// A kind of call, and the generator's state that it was picked from.
#[derive(Clone, Copy)]
pub struct Kind {
    pub op: u8,
    pub state: u32,
}

// A first board, and the generator's state that it was picked from.
#[derive(Clone, Copy)]
pub struct First {
    pub board: usize,
    pub state: u32,
}

// The kind of the next call: 0 is write, 1 lose, 2 repair, 3 read.
pub fn pick_kind(state: u32) -> Kind
    ensures op_value { result.op ≡ top_byte (step state) % 4 }
    ensures state_value { result.state ≡ step state }
{
    let picked = generator::step(state);
    let op = generator::top_byte(picked) % 4;
    Kind {
        op: op,
        state: picked,
    }
}

// The first board, of n, of a call that draws one.
pub fn pick_board(picked: u32, n: usize) -> First
    requires { 0 < n }
    ensures board_value { result.board ≡ top_byte (step picked) % n }
    ensures state_value { result.state ≡ step picked }
{
    let next = generator::step(picked);
    let first = (generator::top_byte(next) as usize) % n;
    First {
        board: first,
        state: next,
    }
}
