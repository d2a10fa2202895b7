//! The lists of a started repair (request A.8) as its record keeps them: bytes, at the beginning of an array each.

#![tactic(auto)]

ghost use Rattle.std.specs.Prelude.{◌≡◌, true, ◌++◌, ◌-◌, ◌*◌, ◌≤◌, ◌<◌, length, take, get_or};
ghost use Rattle.lists.specs.Lists.{fit};
ghost use Rattle.lists.specs.Tests.{below, among};
ghost use Rattle.sizes.specs.Sizing.{legal};
ghost use Rattle.beside_spec.specs.Running.{running_by, sound_beside};
ghost use Rattle.beside_spec.specs.Both.{lost_beside};
ghost use Rattle.record.specs.Records.{record_of, running_in};
ghost use Rattle.running_lists.specs.Steps.{Arrays};

use record::{Kept, Running};
use sizes::Sizes;

// Boards from their bytes.
pub fn boards_of(bytes: &[u8], boards: &mut [usize])
    requires { length boards.old ≡ length bytes.now }
    ensures { boards.new ≡ bytes.now }
{
    for i in 0..bytes.len() {
        boards[i] = usize::from(bytes[i]);
    }
}

// The byte of a board at a place; 00 past the end.
fn byte_at(boards: &[usize], at: usize) -> u8
    requires { below 256 boards.now ≡ true }
    ensures { result ≡ get_or boards.now at 0 }
{
    if at < boards.len() {
        boards[at] as u8
    } else {
        0
    }
}

// Boards as bytes, with 00 in what is left.
pub fn bytes_of(boards: &[usize], bytes: &mut [u8])
    requires { below 256 boards.now ≡ true }
    ensures { bytes.new ≡ fit (length bytes.old) boards.now }
{
    for i in 0..bytes.len() {
        bytes[i] = byte_at(boards, i);
    }
}

// The record of a repair by these lists of which no packet is carried.
pub fn started(fresh: &[usize], helpers: &[usize], standins: &[usize]) -> Running
    requires { (below 256 fresh.now ≡ true) × (below 256 helpers.now ≡ true) × (below 256 standins.now ≡ true) }
    ensures { running_in result ≡ running_by fresh.now helpers.now standins.now 0 }
{
    let mut a = [0u8; 32];
    let mut b = [0u8; 256];
    let mut c = [0u8; 256];
    bytes_of(fresh, &mut a);
    bytes_of(helpers, &mut b);
    bytes_of(standins, &mut c);
    Running {
        running: true,
        count: fresh.len(),
        carried: 0,
        fresh: a,
        helpers: b,
        stand_ins: c,
    }
}

// Whether a board is named by a repair of t fresh boards whose lists begin these arrays.
fn names(
    sizes: Sizes,
    t: usize,
    fresh: &[u8],
    helpers: &[u8],
    standins: &[u8],
    board: usize,
) -> bool
    requires { Arrays sizes t fresh.now helpers.now standins.now × (board < 32) }
    ensures { result ≡ among (take t fresh.now ++ (take (t * sizes.d) helpers.now ++ take (t * (sizes.r - t)) standins.now)) board }
{
    let x = board as u8;
    let h = t * sizes.d;
    let e = t * (sizes.r - t);
    if line_tests::point_from(&fresh[..t], 0, x) {
        return true;
    }
    if line_tests::point_from(&helpers[..h], 0, x) {
        return true;
    }
    line_tests::point_from(&standins[..e], 0, x)
}

// The record of a repair after the loss of a board: a repair that names it ends.
pub fn lost_beside(kept: Kept, running: Running, board: usize) -> Running
    requires { (legal kept.sizes ≡ true) × (sound_beside (record_of kept) (running_in running) ≡ true) × (board < 32) }
    ensures { running_in result ≡ lost_beside (record_of kept) (running_in running) board }
{
    let sizes = kept.sizes;
    let fresh = running.fresh;
    let helpers = running.helpers;
    let standins = running.stand_ins;
    if running.running {
        if names(sizes, running.count, &fresh, &helpers, &standins, board) {
            return record::idle();
        }
    }
    running
}
