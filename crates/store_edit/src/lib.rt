// An edit of the area (request A.6): "each board in service receives the exclusive or of its share with the share of old against new bytes".
// Assumes nothing.

#![tactic(auto)]

ghost use Rattle.std.specs.Prelude.{◌≡◌, true, List, ℕ, ◌+◌, ◌*◌, ◌<◌, ◌≤◌, length, take};
ghost use Rattle.lists.specs.Tests.{pick};
ghost use Rattle.sizes.specs.Sizing.{α, B};
ghost use Rattle.sizes.specs.Refusals.{first, store_order};
ghost use Rattle.board_spec.specs.Calls.{file_of};
ghost use Rattle.store_spec.specs.Record.{serving, put_shares};
ghost use Rattle.store_spec.specs.Calls.{file_held};
ghost use Rattle.store_spec.specs.Edit.{edit_lines, edited_share};
ghost use Rattle.store_lines.specs.Steps.{record_of};
ghost use Rattle.decode_stripe.specs.Steps.{Asked};
ghost use Rattle.decode_setup.specs.Steps.{Made};
ghost use Rattle.edit_laws.specs.Steps.{serving_of};

use sizes::Sizes;

// One more where a board is in service.
fn counted(m: usize, on: bool) -> usize
    requires { m < 32 }
    ensures { result ≡ pick on (m + 1) m }
{
    if on { m + 1 } else { m }
}

// The boards in service, in the order of their numbers, to the beginning of out: how many they are.
fn boards_on(n: usize, marks: &[bool], out: &mut [usize]) -> usize
    requires { (n ≤ 32) × (length marks.now ≡ 32) × (length out.old ≡ 32) }
    ensures { (result ≤ n) × (take result out.new ≡ serving_of n marks.now) }
{
    let mut m: usize = 0;
    for i in 0..n {
        out[m] = i;
        m = counted(m, marks[i]);
    }
    m
}

// Bytes put into the file from an offset on, in all boards in service. The file is read from k boards, with the tables of a read. Where the lines
// of an edit pass, for the file's length, the area has what the edit gives.
pub fn edit_shares(
    sizes: Sizes,
    capacity: usize,
    points: &[u8],
    marks: &[bool],
    offset: usize,
    bytes: &[u8],
    boards: &[usize],
    tables: &[u8],
    area: &mut [u8],
)
    requires { Asked sizes points.now boards.now × (length points.now ≡ 32) × (length marks.now ≡ 32) × (capacity ≤ 4096) × (offset + length bytes.now ≤ capacity * B sizes) × (length area.old ≡ sizes.n * (capacity * α sizes)) × Made sizes points.now boards.now tables.now }
    ensures { (len : ℕ) → let s = record_of sizes points.now capacity true len marks.now in first store_order (edit_lines s area.old offset bytes.now boards.now) ≡ Ok tt → area.new ≡ put_shares s (edited_share s area.old (file_of (file_held s area.old boards.now)) offset bytes.now) (serving s) area.old }
{
    let k = sizes.k;
    let part = capacity * sizes.share_len();
    let mut starts = [0usize; 32];
    let mut on = [0usize; 32];
    decode_area::places(boards, part, &mut starts[0..k]);
    let m = boards_on(sizes.n, marks, &mut on);
    edit_stripes::edit_reached(
        sizes,
        points,
        boards,
        &starts[0..k],
        tables,
        part,
        offset,
        bytes,
        &on[0..m],
        area,
    );
}
