// All sizes for the order form (request A.12): reads a limit from standard input, and writes a line for each legal combination of sizes up to it, or
// one line with a refusal. It only reads and writes; the limit and the lines are decided by the crate `size_rows`.
#![tactic(auto)]

ghost use Rattle.std.specs.Prelude.{◌≡◌, false, ◌≤◌, length, None};
ghost use Rattle.size_list.specs.Combinations.{combinations, rows};

use size_rows::Run;

// Writes a block, where all before it were written. Answers whether it was: where one was not, none behind it is.
fn put_block(good: bool, block: &[u8]) -> bool
    ensures { good ≡ false → result ≡ false }
{
    if good {
        return io::write_all(1, block);
    }
    false
}

// Writes the lines up to a limit, in 46 blocks of 1,024 lines, of which the last ones may be empty; behind a block that could not be written it writes
// no other. Answers how many bytes the blocks have, those of the whole list, whether written or not, and the place where the walk ended: none is left.
fn print(most: usize) -> Run
    requires { (2 ≤ most) × (most ≤ 32) }
    ensures count_value { result.count ≡ length (rows (combinations most)) }
    ensures place_value { result.place ≡ None }
{
    let mut out = [0u8; 40960];
    let mut place = size_rows::first();
    let mut total: usize = 0;
    let mut good = true;
    for _ in 0..46usize {
        let run = size_rows::fill(most, place, 1024, &mut out);
        let count = run.count;
        good = put_block(good, &out[..count]);
        place = run.place;
        total += count;
    }
    Run {
        count: total,
        place: place,
    }
}

fn main(rt: HostRuntime) {
    let mut reader = rt.stdin();
    let mut input = [0u8; 4];
    let count = standard_input::read_input(&mut reader, &mut input);
    let most = size_rows::limit(&input[..count]);
    if most == 0 {
        io::write_all(1, b"refused=1\n");
    } else {
        print(most);
    }
}
