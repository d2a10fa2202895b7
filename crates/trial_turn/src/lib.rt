//! Request A.2: one turn of the trial load. A call is drawn, made on the store, and its line written.

#![tactic(auto)]

ghost use Rattle.std.specs.Prelude.{◌≡◌, true, ◌≤◌, ◌<◌, length};
ghost use Rattle.text_lines.specs.Steps.{Wrote};
ghost use Rattle.trial_spec.specs.Trial.{taken, drawn, board_call, left};
ghost use Rattle.trial_input.specs.Steps.{load_in};
ghost use Rattle.trial_calls.specs.Acts.{state_in, Acts};
ghost use Rattle.trial_turn.specs.Turn.{picked_call, picked_state, outcome_of, line_after};

use record::Running;
use store::{Handed, Store};
use trial_calls::Turned;
use trial_input::Load;

// What a turn leaves: both records, the generator's state, and how many bytes its line has.
#[derive(Clone, Copy)]
pub struct Ran {
    pub store: Store,
    pub running: Running,
    pub state: u32,
    pub count: usize,
}

// A call from a board on: 1 is lose, 2 is repair, any other read.
fn board_turn(
    kept: Store,
    running: Running,
    load: Load,
    op: u8,
    first: usize,
    area: &mut [u8],
) -> Handed
    requires { (taken (load_in load) ≡ true) × (first < 32) }
    ensures { Acts (state_in kept running area.old) (board_call (load_in load) op first) result area.new }
{
    let sizes = load.sizes;
    match op {
        1 => kept.lose(running, first),
        2 => trial_calls::repair_drawn(kept, running, sizes, first, area),
        _ => trial_calls::read_drawn(kept, running, sizes, load.length, first, area),
    }
}

// A call of the kind that was picked: 0 is a write, which draws its file; any other draws its first board.
fn take_turn(
    kept: Store,
    running: Running,
    load: Load,
    op: u8,
    picked: u32,
    area: &mut [u8],
) -> Turned
    requires { taken (load_in load) ≡ true }
    ensures acts { Acts (state_in kept running area.old) (picked_call (load_in load) op picked) result.handed area.new }
    ensures state_value { result.state ≡ picked_state (load_in load) op picked }
{
    if op == 0 {
        return trial_calls::write_drawn(kept, running, load.length, picked, area);
    }
    let drawn = trial_picks::pick_board(picked, load.sizes.n);
    let first = drawn.board;
    let handed = board_turn(kept, running, load, op, first, area);
    Turned {
        handed: handed,
        state: drawn.state,
    }
}

// One turn of a load that is taken, on any store and any area, from any state of the generator: the store and the area are as the call drawn leaves
// them, and its line stands at the beginning of the slice lent for it.
pub fn run_one(
    kept: Store,
    running: Running,
    load: Load,
    state: u32,
    area: &mut [u8],
    line: &mut [u8],
) -> Ran
    requires { (taken (load_in load) ≡ true) × (length line.old ≡ 48) }
    ensures area_after { state_in result.store result.running area.new ≡ left (outcome_of (load_in load) (state_in kept running area.old) state) }
    ensures state_value { result.state ≡ (drawn (load_in load) state).state }
    ensures wrote { Wrote line.old 0 (line_after (load_in load) (state_in kept running area.old) state) line.new result.count }
{
    let kind = trial_picks::pick_kind(state);
    let op = kind.op;
    let picked = kind.state;
    let turned = take_turn(kept, running, load, op, picked, area);
    let handed = turned.handed;
    let answer = handed.answer;
    let after = handed.store;
    let beside = handed.running;
    let count = trial_line::put_call(op, answer, line);
    Ran {
        store: after,
        running: beside,
        state: turned.state,
        count: count,
    }
}
