// The work of a call of the store, past its checks: a repair and a move in the area, the tables of a read, DISAGREE, the file, an edit.
// Assumes nothing.

#![tactic(auto)]

ghost use Rattle.std.specs.Prelude.{◌≡◌, not, ◌+◌, ◌*◌, ◌-◌, ◌≤◌, length, Ok};
ghost use Rattle.lists.specs.Tests.{given};
ghost use Rattle.sizes.specs.declared.Refusal.TheVariants.{Disagree};
ghost use Rattle.sizes.specs.Refusals.{◌when◌, first, store_order};
ghost use Rattle.line_checks.specs.Steps.{asked};
ghost use Rattle.store_spec.specs.Packets.{repair_packets, total};
ghost use Rattle.store_spec.specs.Calls.{repair_lines, read_lines, file_held, repair_done, read_done};
ghost use Rattle.store_spec.specs.Edit.{edit_lines, edit_done};
ghost use Rattle.store_spec.specs.Move.{move_packets, move_lines, move_done};
ghost use Rattle.store_lines.specs.Steps.{Bounded};
ghost use Rattle.decode_stripe.specs.Steps.{Asked};
ghost use Rattle.decode_setup.specs.Steps.{Made};
ghost use Rattle.record.specs.Records.{record_of};
ghost use Rattle.store_work.specs.Steps.{Readable};

use record::Kept;
use sizes::{Refusal, Sizes};

// The bytes that a repair of so many stripes of t fresh boards moves.
fn bytes_moved(sizes: Sizes, t: usize, stripes: usize) -> usize
    requires { Bounded sizes stripes × (t ≤ sizes.r) }
    ensures { result ≡ stripes * t * (2 * sizes.d + sizes.r - 1) }
{
    stripes * t * (2 * sizes.d + sizes.r - 1)
}

// Rebuilds the fresh boards in the area, and answers the bytes that are moved.
pub fn rebuild(
    kept: Kept,
    fresh: &[usize],
    helpers: &[usize],
    standins: &[usize],
    area: &mut [u8],
) -> usize
    requires { first store_order (repair_lines (record_of kept) (length area.old) fresh.now helpers.now standins.now) ≡ Ok tt }
    ensures value { result ≡ total (repair_packets (record_of kept) area.old fresh.now helpers.now standins.now) }
    ensures area_after { area.new ≡ (repair_done (record_of kept) area.old fresh.now helpers.now standins.now).area }
{
    let sizes = kept.sizes;
    let points = kept.points;
    let mut inverses = [0u8; 256];
    inverses::fill_inverses(&mut inverses);
    let stripes = board_lines::stripe_count(sizes, kept.length);
    repair_boards::repair_shares(
        sizes,
        kept.capacity,
        &points,
        &inverses,
        stripes,
        fresh,
        helpers,
        standins,
        area,
    );
    bytes_moved(sizes, fresh.len(), stripes)
}

// Moves a board to a new point in the area, and answers the bytes that are moved.
pub fn move_one(
    kept: Kept,
    board: usize,
    point: u8,
    helpers: &[usize],
    partners: &[usize],
    area: &mut [u8],
) -> usize
    requires { first store_order (move_lines (record_of kept) (length area.old) board point helpers.now partners.now) ≡ Ok tt }
    ensures value { result ≡ total (move_packets (record_of kept) area.old board point helpers.now partners.now) }
    ensures area_after { area.new ≡ (move_done (record_of kept) area.old board point helpers.now partners.now).area }
{
    let sizes = kept.sizes;
    let stripes = board_lines::stripe_count(sizes, kept.length);
    store_move::move_share(kept, stripes, board, point, helpers, partners, area);
    bytes_moved(sizes, 1, stripes)
}

// The tables to read from k boards.
pub fn fill_tables(kept: Kept, boards: &[usize], tables: &mut [u8])
    requires { Asked kept.sizes kept.points boards.now × (length tables.old ≡ 49152) }
    ensures { Made kept.sizes kept.points boards.now tables.new }
{
    let points = kept.points;
    decode_area::fill_tables(kept.sizes, &points, boards, tables);
}

// 10 DISAGREE, of k boards with their tables.
pub fn check_agrees(kept: Kept, boards: &[usize], area: &[u8], tables: &[u8]) -> Result<(), Refusal>
    requires { Readable (record_of kept) (length area.now) boards.now × Made kept.sizes kept.points boards.now tables.now }
    ensures { result ≡ asked (Disagree when not (given (file_held (record_of kept) area.now boards.now))) }
{
    let sizes = kept.sizes;
    let points = kept.points;
    let count = board_lines::stripe_count(sizes, kept.length);
    decode_area::check_agrees(
        sizes,
        kept.capacity,
        &points,
        kept.length,
        count,
        boards,
        area,
        tables,
    )
}

// The file that k boards hold goes to the beginning of the output.
pub fn read_file(kept: Kept, boards: &[usize], area: &[u8], tables: &[u8], out: &mut [u8])
    requires { (first store_order (read_lines (record_of kept) area.now boards.now out.old) ≡ Ok tt) × Made kept.sizes kept.points boards.now tables.now }
    ensures { out.new ≡ (read_done (record_of kept) area.now boards.now out.old).output }
{
    let sizes = kept.sizes;
    let points = kept.points;
    let count = board_lines::stripe_count(sizes, kept.length);
    decode_area::write_file(
        sizes,
        kept.capacity,
        &points,
        kept.length,
        count,
        boards,
        area,
        tables,
        out,
    );
}

// Puts bytes into the file in all boards in service; the file is read from k boards.
pub fn edit_boards(
    kept: Kept,
    offset: usize,
    bytes: &[u8],
    boards: &[usize],
    tables: &[u8],
    area: &mut [u8],
)
    requires { (first store_order (edit_lines (record_of kept) area.old offset bytes.now boards.now) ≡ Ok tt) × Made kept.sizes kept.points boards.now tables.now }
    ensures { area.new ≡ (edit_done (record_of kept) area.old offset bytes.now boards.now).area }
{
    let sizes = kept.sizes;
    let points = kept.points;
    let marks = kept.marks;
    store_edit::edit_shares(
        sizes,
        kept.capacity,
        &points,
        &marks,
        offset,
        bytes,
        boards,
        tables,
        area,
    );
}
