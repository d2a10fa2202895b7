//! The archive for C and Rust: every call of the board level and of the store under a C name, and the trial file, for all input, without `requires`.
//! Each meets its definition in the crates `board_spec`, `text_spec`, `prefix_spec`, `generator` and `store_spec`: the answer as one word, and every
//! word and byte that it was lent.
//! A slice is a pointer and a length. A record is a lent slice of twelve words: n, k, d, r, capacity, written, length, marks, and four words
//! with the points of eight boards each. Beside it stands that of a started repair, a lent slice of 71 words: 1 where one runs, else 0; the number of
//! its fresh boards; the packets carried; 4, 32 and 32 words with fresh boards, helpers and stand-ins, eight in each. The head of a text is a lent
//! slice of six words: n, k, d, r, board number, length. Points are a lent slice of 32 bytes. Another number of them than these is SIZE. An answer
//! has the refusal's number in its low eight bits, 0 where there is none, and the number reported above them; the trial file, which refuses nothing,
//! answers the generator's state.

#![tactic(auto)]

ghost use Rattle.std.specs.Prelude.{◌≡◌, List, [], ℕ, length, Ok};
ghost use Rattle.generator.specs.Generator.{after, emitted};
ghost use Rattle.sizes.specs.Refusals.{said};
ghost use Rattle.board_spec.specs.Calls.{share_call, file_call, helper_call, exchange_call, finished_call, text_call};
ghost use Rattle.text_spec.specs.Calls.{gather_call};
ghost use Rattle.prefix_spec.specs.Prefix.{longest};
ghost use Rattle.beside_spec.specs.Acting.{write, lose, repair, read, careful, edit, move, start, step};
ghost use Rattle.answer_word.specs.Answers.{word_of};
ghost use Rattle.archive_spec.specs.Archive.{sizes_of};
ghost use Rattle.archive_spec.specs.Lent.{zbk_set_up, zbk};
ghost use Rattle.archive_spec.specs.Texts.{zbk_read_text};

// The share of board `node` of a file. Reports the number of bytes written.
#[unsafe(no_mangle)]
pub extern "C" fn zbk_share(
    n: usize,
    k: usize,
    d: usize,
    r: usize,
    points: &[u8],
    node: usize,
    file: &[u8],
    out: &mut [u8],
) -> u64
    ensures { (result ≡ word_of (share_call (sizes_of n k d r) points.now node file.now out.old).answer) × (out.new ≡ (share_call (sizes_of n k d r) points.now node file.now out.old).output) }
{
    archive_boards::share(n, k, d, r, points, node, file, out)
}

// The file of so many bytes that k shares give, or DISAGREE where no such file has them. Reports the number of bytes written.
#[unsafe(no_mangle)]
pub extern "C" fn zbk_file(
    n: usize,
    k: usize,
    d: usize,
    r: usize,
    points: &[u8],
    len: usize,
    boards: &[usize],
    shares: &[u8],
    out: &mut [u8],
) -> u64
    ensures { (result ≡ word_of (file_call (sizes_of n k d r) points.now len boards.now shares.now out.old).answer) × (out.new ≡ (file_call (sizes_of n k d r) points.now len boards.now shares.now out.old).output) }
{
    archive_boards::file(n, k, d, r, points, len, boards, shares, out)
}

// The helper packet that a board makes of its share of a file of so many bytes, for another board. Reports the number of bytes written.
#[unsafe(no_mangle)]
pub extern "C" fn zbk_helper_packet(
    n: usize,
    k: usize,
    d: usize,
    r: usize,
    points: &[u8],
    len: usize,
    helper: usize,
    receiver: usize,
    share: &[u8],
    out: &mut [u8],
) -> u64
    ensures { (result ≡ word_of (helper_call (sizes_of n k d r) points.now len helper receiver share.now out.old).answer) × (out.new ≡ (helper_call (sizes_of n k d r) points.now len helper receiver share.now out.old).output) }
{
    archive_boards::helper_packet(n, k, d, r, points, len, helper, receiver, share, out)
}

// The exchange packet that a board being rebuilt makes of its d helper packets, for another. Reports the number of bytes written.
#[unsafe(no_mangle)]
pub extern "C" fn zbk_exchange_packet(
    n: usize,
    k: usize,
    d: usize,
    r: usize,
    points: &[u8],
    len: usize,
    board: usize,
    helpers: &[usize],
    packets: &[u8],
    receiver: usize,
    out: &mut [u8],
) -> u64
    ensures { (result ≡ word_of (exchange_call (sizes_of n k d r) points.now len board helpers.now packets.now receiver out.old).answer) × (out.new ≡ (exchange_call (sizes_of n k d r) points.now len board helpers.now packets.now receiver out.old).output) }
{
    archive_boards::exchange_packet(
        n, k, d, r, points, len, board, helpers, packets, receiver, out,
    )
}

// The share of a board being rebuilt, of its d helper packets and its r - 1 partners' packets. Reports the number of bytes written.
#[unsafe(no_mangle)]
pub extern "C" fn zbk_finished_share(
    n: usize,
    k: usize,
    d: usize,
    r: usize,
    points: &[u8],
    len: usize,
    board: usize,
    helpers: &[usize],
    packets: &[u8],
    partners: &[usize],
    exchanges: &[u8],
    out: &mut [u8],
) -> u64
    ensures { (result ≡ word_of (finished_call (sizes_of n k d r) points.now len board helpers.now packets.now partners.now exchanges.now out.old).answer) × (out.new ≡ (finished_call (sizes_of n k d r) points.now len board helpers.now packets.now partners.now exchanges.now out.old).output) }
{
    archive_boards::finished_share(
        n, k, d, r, points, len, board, helpers, packets, partners, exchanges, out,
    )
}

// A board's share of a file of so many bytes, as text. Reports the number of bytes written.
#[unsafe(no_mangle)]
pub extern "C" fn zbk_share_text(
    n: usize,
    k: usize,
    d: usize,
    r: usize,
    points: &[u8],
    len: usize,
    node: usize,
    share: &[u8],
    out: &mut [u8],
) -> u64
    ensures { (result ≡ word_of (text_call (sizes_of n k d r) points.now len node share.now out.old).answer) × (out.new ≡ (text_call (sizes_of n k d r) points.now len node share.now out.old).output) }
{
    archive_boards::share_text(n, k, d, r, points, len, node, share, out)
}

// What a share text tells: sizes, board number and length to six words, points to 32 bytes, and the share to the first bytes of the output. Reports
// the number of bytes written. Another text than `zbk_share_text` writes is TEXT.
#[unsafe(no_mangle)]
pub extern "C" fn zbk_read_text(
    text: &[u8],
    head: &mut [u64],
    points: &mut [u8],
    out: &mut [u8],
) -> u64
    ensures { record { answer = result; head = head.new; points = points.new; output = out.new } ≡ zbk_read_text text.now head.old points.old out.old }
{
    archive_texts::read_text(text, head, points, out)
}

// The file of k share texts, one after another in one slice. Reports the number of bytes written, which is the file's length.
#[unsafe(no_mangle)]
pub extern "C" fn zbk_gather(text: &[u8], out: &mut [u8]) -> u64
    ensures { (result ≡ word_of (gather_call text.now out.old).answer) × (out.new ≡ (gather_call text.now out.old).output) }
{
    archive_texts::gather(text, out)
}

// How many bytes of a text also begin some text that zbk_share_text writes, at their most. Reports that number, and refuses nothing.
#[unsafe(no_mangle)]
pub extern "C" fn zbk_text_prefix(text: &[u8]) -> u64
    ensures { result ≡ word_of (said (Ok (longest text.now))) }
{
    archive_texts::text_prefix(text)
}

// Fills the output with the bytes that the generator emits from this state on: those of the trial file of this seed. Gives the state after them, from
// which the file goes on. Refuses nothing.
#[unsafe(no_mangle)]
pub extern "C" fn zbk_trial_file(seed: u32, out: &mut [u8]) -> u32
    ensures { (result ≡ after (length out.old) seed) × (out.new ≡ emitted (length out.old) seed) }
{
    generator::fill(seed, out)
}

// A new store of these sizes, these points and this capacity, in twelve words, with no repair, in 71.
#[unsafe(no_mangle)]
pub extern "C" fn zbk_set_up(
    ws: &mut [u64],
    ps: &mut [u64],
    n: usize,
    k: usize,
    d: usize,
    r: usize,
    points: &[u8],
    capacity: usize,
) -> u64
    ensures { record { answer = result; words = ws.new; repair = ps.new; area = []; output = []; packets = [] } ≡ zbk_set_up ws.old ps.old (sizes_of n k d r) points.now capacity }
{
    archive_store::set_up(ws, ps, n, k, d, r, points, capacity)
}

// Writes a file.
#[unsafe(no_mangle)]
pub extern "C" fn zbk_write(ws: &mut [u64], ps: &mut [u64], area: &mut [u8], file: &[u8]) -> u64
    ensures { record { answer = result; words = ws.new; repair = ps.new; area = area.new; output = []; packets = [] } ≡ zbk ws.old ps.old area.old (write file.now) }
{
    archive_store::write(ws, ps, area, file)
}

// Takes a board out of service. A started repair that names it ends.
#[unsafe(no_mangle)]
pub extern "C" fn zbk_lose(ws: &mut [u64], ps: &mut [u64], board: usize) -> u64
    ensures { (area : List ℕ) → record { answer = result; words = ws.new; repair = ps.new; area = area; output = []; packets = [] } ≡ zbk ws.old ps.old area (lose board) }
{
    archive_store::lose(ws, ps, board)
}

// Rebuilds one to r fresh boards together, t of them, each from its own run of d helpers and its own run of r − t stand-ins.
#[unsafe(no_mangle)]
pub extern "C" fn zbk_repair(
    ws: &mut [u64],
    ps: &mut [u64],
    area: &mut [u8],
    fresh: &[usize],
    helpers: &[usize],
    standins: &[usize],
) -> u64
    ensures { record { answer = result; words = ws.new; repair = ps.new; area = area.new; output = []; packets = [] } ≡ zbk ws.old ps.old area.old (repair fresh.now helpers.now standins.now) }
{
    archive_store::repair(ws, ps, area, fresh, helpers, standins)
}

// Reads the file from k boards.
#[unsafe(no_mangle)]
pub extern "C" fn zbk_read(
    ws: &mut [u64],
    ps: &mut [u64],
    area: &[u8],
    boards: &[usize],
    out: &mut [u8],
) -> u64
    ensures { record { answer = result; words = ws.new; repair = ps.new; area = area.now; output = out.new; packets = [] } ≡ zbk ws.old ps.old area.now (read boards.now out.old) }
{
    archive_store::read(ws, ps, area, boards, out)
}

// Reads the file from k + 2 boards, of which one may hold wrong bytes: the answer reports 0, or the number of the odd board plus 1.
#[unsafe(no_mangle)]
pub extern "C" fn zbk_read_careful(
    ws: &mut [u64],
    ps: &mut [u64],
    area: &[u8],
    boards: &[usize],
    out: &mut [u8],
) -> u64
    ensures { record { answer = result; words = ws.new; repair = ps.new; area = area.now; output = out.new; packets = [] } ≡ zbk ws.old ps.old area.now (careful boards.now out.old) }
{
    archive_store::read_careful(ws, ps, area, boards, out)
}

// Puts bytes into the file from an offset on, read from k boards, in all boards in service.
#[unsafe(no_mangle)]
pub extern "C" fn zbk_edit(
    ws: &mut [u64],
    ps: &mut [u64],
    area: &mut [u8],
    offset: usize,
    bytes: &[u8],
    boards: &[usize],
) -> u64
    ensures { record { answer = result; words = ws.new; repair = ps.new; area = area.new; output = []; packets = [] } ≡ zbk ws.old ps.old area.old (edit offset bytes.now boards.now) }
{
    archive_store::edit(ws, ps, area, offset, bytes, boards)
}

// Moves a board to a new point, from d helpers and r − 1 partners: every other board works out its kept values afresh. Reports the bytes moved.
#[unsafe(no_mangle)]
pub extern "C" fn zbk_move(
    ws: &mut [u64],
    ps: &mut [u64],
    area: &mut [u8],
    board: usize,
    point: u8,
    helpers: &[usize],
    partners: &[usize],
) -> u64
    ensures { record { answer = result; words = ws.new; repair = ps.new; area = area.new; output = []; packets = [] } ≡ zbk ws.old ps.old area.old (move board point helpers.now partners.now) }
{
    archive_store::move_board(ws, ps, area, board, point, helpers, partners)
}

// Starts a repair by these lists: nothing is carried yet.
#[unsafe(no_mangle)]
pub extern "C" fn zbk_start(
    ws: &mut [u64],
    ps: &mut [u64],
    area: &[u8],
    fresh: &[usize],
    helpers: &[usize],
    standins: &[usize],
) -> u64
    ensures { record { answer = result; words = ws.new; repair = ps.new; area = area.now; output = []; packets = [] } ≡ zbk ws.old ps.old area.now (start fresh.now helpers.now standins.now) }
{
    archive_store::start(ws, ps, area, fresh, helpers, standins)
}

// Carries at most so many packets of the repair that runs, each to its place in the packet area. Reports the packets that it carried.
#[unsafe(no_mangle)]
pub extern "C" fn zbk_step(
    ws: &mut [u64],
    ps: &mut [u64],
    area: &mut [u8],
    packets: &mut [u8],
    allowance: usize,
) -> u64
    ensures { record { answer = result; words = ws.new; repair = ps.new; area = area.new; output = []; packets = packets.new } ≡ zbk ws.old ps.old area.old (step allowance packets.old) }
{
    archive_store::step(ws, ps, area, packets, allowance)
}
