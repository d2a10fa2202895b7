// The file of a careful read (request A.11): tries, of which each leaves out two boards that stand side by side in the list, from the last two on, until
// one finds the file; and its bytes by the boards and the tables of that try.
// Assumes nothing.

#![tactic(auto)]

ghost use Rattle.std.specs.Prelude.{◌≡◌, true, false, ◌+◌, ◌≤◌, length};
ghost use Rattle.lists.specs.Tests.{given};
ghost use Rattle.lists.specs.Lists.{over};
ghost use Rattle.board_spec.specs.Calls.{file_of};
ghost use Rattle.store_spec.specs.Record.{stripe_count};
ghost use Rattle.store_spec.specs.Calls.{file_held};
ghost use Rattle.store_spec.specs.Careful.{qualifying, careful_file, odd, odd_report};
ghost use Rattle.record.specs.Records.{record_of};
ghost use Rattle.decode_setup.specs.Steps.{Made};
ghost use Rattle.careful_pairs.specs.Steps.{leaving_pair};
ghost use Rattle.careful_tries.specs.Steps.{Careful, Found};

use careful_pairs::Tried;
use record::Kept;

// One try, without the boards at places p and p + 1: whether the others hold a file, and one of the two, at least, its share of it. Stripes are looked at
// from one on. The others go to chosen, and the tables of a read from them to tables.
fn try_pair(
    kept: Kept,
    stripes: usize,
    boards: &[usize],
    p: usize,
    from: usize,
    area: &[u8],
    chosen: &mut [usize],
    tables: &mut [u8],
) -> Tried
    requires { Careful (record_of kept) boards.now area.now × (stripes ≡ stripe_count (record_of kept)) × (p + 2 ≤ length boards.now) × (length chosen.old ≡ kept.sizes.k) × (length tables.old ≡ 49152) }
    ensures found_value { result.found ≡ given (qualifying (record_of kept) area.now boards.now (file_held (record_of kept) area.now (leaving_pair p boards.now))) }
    ensures odd_value { result.found ≡ true → result.odd ≡ odd_report (odd (record_of kept) area.now (file_of (file_held (record_of kept) area.now (leaving_pair p boards.now))) boards.now) }
    ensures chosen_after { chosen.new ≡ leaving_pair p boards.now }
    ensures made { Made kept.sizes kept.points chosen.new tables.new }
{
    let sizes = kept.sizes;
    let points = kept.points;
    let x = boards[p];
    let y = boards[p + 1];
    careful_pairs::leave_pair(boards, p, chosen);
    decode_area::fill_tables(sizes, &points, chosen, tables);
    let held = store_holds::hold_two(kept, stripes, from, chosen, x, y, area, tables);
    let told = careful_pairs::told(held.first, held.second, x, y, held.at);
    if !told.found {
        return told;
    }
    if decode_area::check_agrees(
        sizes,
        kept.capacity,
        &points,
        kept.length,
        stripes,
        chosen,
        area,
        tables,
    )
    .is_err()
    {
        return Tried {
            found: false,
            odd: 0,
            at: from,
        };
    }
    told
}

// The tries, one after another, until one finds the file. What a try found wrong in a stripe the next one looks at first: one board that is wrong
// there makes each try with it fail there.
fn tries(
    kept: Kept,
    stripes: usize,
    boards: &[usize],
    area: &[u8],
    chosen: &mut [usize],
    tables: &mut [u8],
) -> Tried
    requires { Careful (record_of kept) boards.now area.now × (stripes ≡ stripe_count (record_of kept)) × (length chosen.old ≡ kept.sizes.k) × (length tables.old ≡ 49152) }
    ensures found_value { result.found ≡ given (careful_file (record_of kept) area.now boards.now) }
    ensures found { result.found ≡ true → Found (record_of kept) boards.now area.now chosen.new tables.new result.odd }
{
    let mut end = boards.len();
    let mut from: usize = 0;
    while end > 0 {
        let p = careful_pairs::pair_before(end);
        let tried = try_pair(kept, stripes, boards, p, from, area, chosen, tables);
        if tried.found {
            return tried;
        }
        from = tried.at;
        end = p;
    }
    Tried {
        found: false,
        odd: 0,
        at: from,
    }
}

// The file of a careful read of k + 2 boards, to the beginning of out, and the odd board; out stays as it is where there is none.
pub fn read_file(kept: Kept, boards: &[usize], area: &[u8], out: &mut [u8]) -> Tried
    requires { Careful (record_of kept) boards.now area.now × (kept.length ≤ length out.old) }
    ensures found_value { result.found ≡ given (careful_file (record_of kept) area.now boards.now) }
    ensures odd_value { result.found ≡ true → result.odd ≡ odd_report (odd (record_of kept) area.now (file_of (careful_file (record_of kept) area.now boards.now)) boards.now) }
    ensures out_after { result.found ≡ true → out.new ≡ over (file_of (careful_file (record_of kept) area.now boards.now)) out.old }
    ensures out_unchanged { result.found ≡ false → out.new ≡ out.old }
{
    let sizes = kept.sizes;
    let points = kept.points;
    let k = sizes.k;
    let stripes = board_lines::stripe_count(sizes, kept.length);
    let mut chosen = [0usize; 32];
    let mut tables = [0u8; 49152];
    let tried = tries(kept, stripes, boards, area, &mut chosen[0..k], &mut tables);
    if !tried.found {
        return tried;
    }
    decode_area::write_file(
        sizes,
        kept.capacity,
        &points,
        kept.length,
        stripes,
        &chosen[0..k],
        area,
        &tables,
        out,
    );
    tried
}
