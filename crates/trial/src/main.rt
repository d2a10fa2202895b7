// The trial load of request A.2: reads eight lines from standard input, draws calls from one number, makes them on a store, and writes a line after
// each; or one line with a refusal. It only reads and writes; what is taken is decided by the crate `trial_input`, each turn by `trial_turn`.
#![tactic(auto)]

ghost use Rattle.std.specs.Prelude.{◌≡◌, true, ◌≤◌, length};
ghost use Rattle.std.proofs.Math.Option.{some};
ghost use Rattle.printer.specs.Printer.{refused_line};
ghost use Rattle.trial_spec.specs.Trial.{taken, drawn, left, trial_of, trial_text};
ghost use Rattle.trial_input.specs.Steps.{load_in};
ghost use Rattle.trial_calls.specs.Acts.{state_in};
ghost use Rattle.trial_turn.specs.Turn.{outcome_of, line_after};
ghost use Rattle.trial_turn.specs.Walk.{text_from};
ghost use Rattle.trial.specs.Printing.{Printing};

use record::Running;
use store::Store;
use trial_input::Load;

// How many bytes the lines have that were to be written, how many calls were not made, and whether every line was written: else a call may be left.
#[derive(Clone, Copy)]
struct Printed {
    count: usize,
    left: u32,
    good: bool,
}

// What a turn leaves: both records, the generator's state, how many bytes its line has, and whether it was written.
#[derive(Clone, Copy)]
struct Turn {
    store: Store,
    running: Running,
    state: u32,
    count: usize,
    good: bool,
}

// One turn: a call is made, and its line written.
fn run_turn(kept: Store, running: Running, load: Load, state: u32, area: &mut [u8]) -> Turn
    requires { taken (load_in load) ≡ true }
    ensures area_after { state_in result.store result.running area.new ≡ left (outcome_of (load_in load) (state_in kept running area.old) state) }
    ensures state_value { result.state ≡ (drawn (load_in load) state).state }
    ensures count_value { (result.count ≡ length (line_after (load_in load) (state_in kept running area.old) state)) × (result.count ≤ 48) }
{
    let mut line = [0u8; 48];
    let ran = trial_turn::run_one(kept, running, load, state, area, &mut line);
    let count = ran.count;
    let good = io::write_all(1, &line[..count]);
    let after = ran.store;
    let beside = ran.running;
    Turn {
        store: after,
        running: beside,
        state: ran.state,
        count: count,
        good: good,
    }
}

// The calls of a load, one after another, on a store and its area; none behind a line that could not be written.
fn turns(kept: Store, running: Running, load: Load, area: &mut [u8]) -> Printed
    requires { taken (load_in load) ≡ true }
    ensures { Printing (text_from (load_in load) load.calls (state_in kept running area.old) load.seed) result }
{
    let mut store = kept;
    let mut beside = running;
    let mut state = load.seed;
    let mut count: usize = 0;
    let mut good = true;
    let mut left = load.calls;
    while left > 0 && good {
        let made = run_turn(store, beside, load, state, area);
        let next = made.store;
        let after = made.running;
        store = next;
        beside = after;
        state = made.state;
        count += made.count;
        good = made.good;
        left -= 1;
    }
    Printed {
        count: count,
        left: left,
        good: good,
    }
}

// The whole load that is taken, from a store newly set up and an area of bytes 00.
fn print(load: Load) -> Printed
    requires { taken (load_in load) ≡ true }
    ensures { Printing (trial_of (some (load_in load))) result }
{
    let mut area = [0u8; 32768];
    let m = trial_limits::area_len(load.sizes, load.capacity);
    let handed = trial_store::set_up(load);
    let kept = handed.store;
    let running = handed.running;
    turns(kept, running, load, &mut area[..m])
}

// The line of a refused input.
fn refuse() -> Printed
    ensures { Printing (refused_line 1) result }
{
    let good = io::write_all(1, b"refused=1\n");
    Printed {
        count: 10,
        left: 0,
        good: good,
    }
}

// What an input asks for: all of its text, or its beginning where a line could not be written.
fn run(input: &[u8]) -> Printed
    ensures { Printing (trial_text input.now) result }
{
    match trial_input::read_load(input) {
        Some(load) => print(load),
        None => refuse(),
    }
}

fn main(rt: HostRuntime) {
    let mut reader = rt.stdin();
    let mut input = [0u8; 128];
    let count = standard_input::read_input(&mut reader, &mut input);
    run(&input[..count]);
}
