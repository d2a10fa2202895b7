//! The archive's calls of the store, each by the words and bytes that it is lent: `zebrankai` has them under their C names.
//! Each meets its definition in the crate `archive_spec`: the answer as one word, and every word and byte that it was lent.

#![tactic(auto)]

ghost use Rattle.std.specs.Prelude.{◌≡◌, List, [], ℕ, ◌<◌, length};
ghost use Rattle.sizes.specs.Refusals.{said};
ghost use Rattle.beside_spec.specs.Acting.{write, lose, repair, read, careful, edit, move, start, step};
ghost use Rattle.record.specs.Records.{running_in};
ghost use Rattle.store.specs.Handing.{record_in};
ghost use Rattle.answer_word.specs.Answers.{word_of};
ghost use Rattle.record_words.specs.Words.{words_of};
ghost use Rattle.repair_words.specs.RepairWords.{repair_words_of};
ghost use Rattle.archive_spec.specs.Archive.{sizes_of};
ghost use Rattle.archive_spec.specs.Lent.{zbk_set_up, zbk};

use sizes::Sizes;
use store::{Handed, Store};

// The word of SIZE, for words that are no record.
const SIZE: u64 = 1;

// Both records that a call of the store hands on, in their words; and the word of its answer.
fn hand_on(handed: Handed, words: &mut [u64], beside: &mut [u64]) -> u64
    requires { (length words.old ≡ 12) × (length beside.old ≡ 71) × ((said handed.answer).reported < 72057594037927936) }
    ensures { (result ≡ word_of (said handed.answer)) × (words.new ≡ words_of (record_in handed.store)) × (beside.new ≡ repair_words_of (running_in handed.running)) }
{
    words::put_kept(handed.store.record, words);
    running_words::put_running(handed.running, beside);
    let answer = handed.answer;
    answer_word::word_of(answer)
}

// A new store of these sizes, these points and this capacity, in twelve words, with no repair, in 71.
pub fn set_up(
    ws: &mut [u64],
    ps: &mut [u64],
    n: usize,
    k: usize,
    d: usize,
    r: usize,
    points: &[u8],
    capacity: usize,
) -> u64
    ensures { record { answer = result; words = ws.new; repair = ps.new; area = []; output = []; packets = [] } ≡ zbk_set_up ws.old ps.old (sizes_of n k d r) points.now capacity }
{
    if ws.len() != 12 {
        return SIZE;
    }
    if ps.len() != 71 {
        return SIZE;
    }
    let sizes = Sizes {
        n: n,
        k: k,
        d: d,
        r: r,
    };
    let xs = point_array::points_array(points);
    let blank = Store {
        record: record::new_kept(sizes, xs, capacity),
    };
    let idle = record::idle();
    let handed = blank.set_up(idle, sizes, xs, capacity);
    let answer = handed.answer;
    let word = answer_word::word_of(answer);
    if word == 0 {
        words::put_kept(handed.store.record, ws);
        running_words::put_running(handed.running, ps);
    }
    word
}

// Writes a file.
pub fn write(ws: &mut [u64], ps: &mut [u64], area: &mut [u8], file: &[u8]) -> u64
    ensures { record { answer = result; words = ws.new; repair = ps.new; area = area.new; output = []; packets = [] } ≡ zbk ws.old ps.old area.old (write file.now) }
{
    if !words::are_records(ws, ps) {
        return SIZE;
    }
    let store = Store {
        record: words::kept_of(ws),
    };
    let running = running_words::running_of(ps);
    let handed = store.write(running, area, file);
    hand_on(handed, ws, ps)
}

// Takes a board out of service.
pub fn lose(ws: &mut [u64], ps: &mut [u64], board: usize) -> u64
    ensures { (area : List ℕ) → record { answer = result; words = ws.new; repair = ps.new; area = area; output = []; packets = [] } ≡ zbk ws.old ps.old area (lose board) }
{
    if !words::are_records(ws, ps) {
        return SIZE;
    }
    let store = Store {
        record: words::kept_of(ws),
    };
    let running = running_words::running_of(ps);
    let handed = store.lose(running, board);
    hand_on(handed, ws, ps)
}

// Rebuilds one to r fresh boards together, t of them, each from its own run of d helpers and its own run of r − t stand-ins.
pub fn repair(
    ws: &mut [u64],
    ps: &mut [u64],
    area: &mut [u8],
    fresh: &[usize],
    helpers: &[usize],
    standins: &[usize],
) -> u64
    ensures { record { answer = result; words = ws.new; repair = ps.new; area = area.new; output = []; packets = [] } ≡ zbk ws.old ps.old area.old (repair fresh.now helpers.now standins.now) }
{
    if !words::are_records(ws, ps) {
        return SIZE;
    }
    let store = Store {
        record: words::kept_of(ws),
    };
    let running = running_words::running_of(ps);
    let handed = store.repair(running, area, fresh, helpers, standins);
    hand_on(handed, ws, ps)
}

// Reads the file from k boards.
pub fn read(ws: &mut [u64], ps: &mut [u64], area: &[u8], boards: &[usize], out: &mut [u8]) -> u64
    ensures { record { answer = result; words = ws.new; repair = ps.new; area = area.now; output = out.new; packets = [] } ≡ zbk ws.old ps.old area.now (read boards.now out.old) }
{
    if !words::are_records(ws, ps) {
        return SIZE;
    }
    let store = Store {
        record: words::kept_of(ws),
    };
    let running = running_words::running_of(ps);
    let handed = store.read(running, area, boards, out);
    hand_on(handed, ws, ps)
}

// Reads the file from k + 2 boards, of which one may hold wrong bytes.
pub fn read_careful(
    ws: &mut [u64],
    ps: &mut [u64],
    area: &[u8],
    boards: &[usize],
    out: &mut [u8],
) -> u64
    ensures { record { answer = result; words = ws.new; repair = ps.new; area = area.now; output = out.new; packets = [] } ≡ zbk ws.old ps.old area.now (careful boards.now out.old) }
{
    if !words::are_records(ws, ps) {
        return SIZE;
    }
    let store = Store {
        record: words::kept_of(ws),
    };
    let running = running_words::running_of(ps);
    let handed = store.read_careful(running, area, boards, out);
    hand_on(handed, ws, ps)
}

// Puts bytes into the file from an offset on, read from k boards, in all boards in service.
pub fn edit(
    ws: &mut [u64],
    ps: &mut [u64],
    area: &mut [u8],
    offset: usize,
    bytes: &[u8],
    boards: &[usize],
) -> u64
    ensures { record { answer = result; words = ws.new; repair = ps.new; area = area.new; output = []; packets = [] } ≡ zbk ws.old ps.old area.old (edit offset bytes.now boards.now) }
{
    if !words::are_records(ws, ps) {
        return SIZE;
    }
    let store = Store {
        record: words::kept_of(ws),
    };
    let running = running_words::running_of(ps);
    let handed = store.edit(running, area, offset, bytes, boards);
    hand_on(handed, ws, ps)
}

// Moves a board to a new point, from d helpers and r − 1 partners.
pub fn move_board(
    ws: &mut [u64],
    ps: &mut [u64],
    area: &mut [u8],
    board: usize,
    point: u8,
    helpers: &[usize],
    partners: &[usize],
) -> u64
    ensures { record { answer = result; words = ws.new; repair = ps.new; area = area.new; output = []; packets = [] } ≡ zbk ws.old ps.old area.old (move board point helpers.now partners.now) }
{
    if !words::are_records(ws, ps) {
        return SIZE;
    }
    let store = Store {
        record: words::kept_of(ws),
    };
    let running = running_words::running_of(ps);
    let handed = store.move_board(running, area, board, point, helpers, partners);
    hand_on(handed, ws, ps)
}

// Starts a repair by these lists: nothing is carried yet.
pub fn start(
    ws: &mut [u64],
    ps: &mut [u64],
    area: &[u8],
    fresh: &[usize],
    helpers: &[usize],
    standins: &[usize],
) -> u64
    ensures { record { answer = result; words = ws.new; repair = ps.new; area = area.now; output = []; packets = [] } ≡ zbk ws.old ps.old area.now (start fresh.now helpers.now standins.now) }
{
    if !words::are_records(ws, ps) {
        return SIZE;
    }
    let store = Store {
        record: words::kept_of(ws),
    };
    let running = running_words::running_of(ps);
    let handed = store.start(running, area, fresh, helpers, standins);
    hand_on(handed, ws, ps)
}

// Carries at most so many packets of the repair that runs, each to its place in the packet area.
pub fn step(
    ws: &mut [u64],
    ps: &mut [u64],
    area: &mut [u8],
    packets: &mut [u8],
    allowance: usize,
) -> u64
    ensures { record { answer = result; words = ws.new; repair = ps.new; area = area.new; output = []; packets = packets.new } ≡ zbk ws.old ps.old area.old (step allowance packets.old) }
{
    if !words::are_records(ws, ps) {
        return SIZE;
    }
    let store = Store {
        record: words::kept_of(ws),
    };
    let running = running_words::running_of(ps);
    let handed = store.step(running, area, packets, allowance);
    hand_on(handed, ws, ps)
}
