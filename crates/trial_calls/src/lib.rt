//! Request A.2: a write, a repair and a read of the trial load, each with what is drawn for it, made on a store.

#![tactic(auto)]

ghost use Rattle.std.specs.Prelude.{◌≡◌, true, ◌≤◌, ◌<◌, length};
ghost use Rattle.sizes.specs.Sizing.{legal};
ghost use Rattle.generator.specs.Generator.{after, emitted};
ghost use Rattle.beside_spec.specs.Acting.{write, read};
ghost use Rattle.trial_spec.specs.Trial.{counted};
ghost use Rattle.trial_calls.specs.Acts.{state_in, Acts, repair_drawn, read_drawn, Listed};

use record::Running;
use sizes::Sizes;
use store::{Handed, Store};

// What a call hands on, and the generator's state after it.
#[derive(Clone, Copy)]
pub struct Turned {
    pub handed: Handed,
    pub state: u32,
}

// A write of a file as long as the slice: "A write takes the next L bytes". They are drawn into the slice.
fn write_into(kept: Store, running: Running, state: u32, file: &mut [u8], area: &mut [u8]) -> Turned
    ensures acts { Acts (state_in kept running area.old) (write (emitted (length file.old) state)) result.handed area.new }
    ensures state_value { result.state ≡ after (length file.old) state }
{
    let next = generator::fill(state, file);
    let handed = kept.write(running, area, file);
    Turned {
        handed: handed,
        state: next,
    }
}

// A write of a file of this length.
pub fn write_drawn(kept: Store, running: Running, len: usize, state: u32, area: &mut [u8]) -> Turned
    requires { len ≤ 16384 }
    ensures acts { Acts (state_in kept running area.old) (write (emitted len state)) result.handed area.new }
    ensures state_value { result.state ≡ after len state }
{
    let mut file = [0u8; 16384];
    write_into(kept, running, state, &mut file[..len], area)
}

// A repair: "the r fresh before the d helpers, the same d for each fresh board". It names t = r, so no stand-ins. The lists are drawn into the slices.
fn repair_into(
    kept: Store,
    running: Running,
    sizes: Sizes,
    first: usize,
    fresh: &mut [usize],
    helpers: &mut [usize],
    area: &mut [u8],
) -> Handed
    requires { Listed sizes first fresh.old helpers.old }
    ensures { Acts (state_in kept running area.old) (repair_drawn sizes first) result area.new }
{
    let none = [0usize; 1];
    trial_lists::count_on(sizes.n, first, fresh);
    trial_lists::repeat_on(sizes.n, first + sizes.r, sizes.d, sizes.r, helpers);
    kept.repair(running, area, fresh, helpers, &none[..0])
}

// A repair from this board on.
pub fn repair_drawn(
    kept: Store,
    running: Running,
    sizes: Sizes,
    first: usize,
    area: &mut [u8],
) -> Handed
    requires { (legal sizes ≡ true) × (first < 32) }
    ensures { Acts (state_in kept running area.old) (repair_drawn sizes first) result area.new }
{
    let r = sizes.r;
    let m = r * sizes.d;
    let mut fresh = [0usize; 32];
    let mut helpers = [0usize; 256];
    repair_into(
        kept,
        running,
        sizes,
        first,
        &mut fresh[..r],
        &mut helpers[..m],
        area,
    )
}

// A read of as many boards as the first slice has, into the second. The list is drawn into the first.
fn read_into(
    kept: Store,
    running: Running,
    n: usize,
    first: usize,
    boards: &mut [usize],
    area: &[u8],
    out: &mut [u8],
) -> Handed
    requires { (1 ≤ n) × (first < 32) × (length boards.old ≤ 32) }
    ensures { Acts (state_in kept running area.now) (read (counted n first (length boards.old)) out.old) result area.now }
{
    trial_lists::count_on(n, first, boards);
    kept.read(running, area, boards, out)
}

// A read from this board on: "a read's output has room for L".
pub fn read_drawn(
    kept: Store,
    running: Running,
    sizes: Sizes,
    len: usize,
    first: usize,
    area: &[u8],
) -> Handed
    requires { (legal sizes ≡ true) × (len ≤ 16384) × (first < 32) }
    ensures { Acts (state_in kept running area.now) (read_drawn sizes len first) result area.now }
{
    let k = sizes.k;
    let mut boards = [0usize; 32];
    let mut out = [0u8; 16384];
    read_into(
        kept,
        running,
        sizes.n,
        first,
        &mut boards[..k],
        area,
        &mut out[..len],
    )
}
