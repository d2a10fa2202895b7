// The tries of a careful read (request A.11): each leaves out two of k + 2 boards that stand side by side in the list, and asks whether one of the two,
// at least, holds its share of the file that the others hold.
// Assumes nothing.

#![tactic(auto)]

ghost use Rattle.std.specs.Prelude.{◌≡◌, ◌+◌, ◌-◌, ◌<◌, ◌≤◌, length};
ghost use Rattle.careful_pairs.specs.Steps.{leaving_pair, found_of, odd_of};

// Whether a try found the file, and the odd board: 0 for none, else its number plus 1; and a stripe to look at first in the next try, on which nothing
// rests.
#[derive(Clone, Copy)]
pub struct Tried {
    pub found: bool,
    pub odd: usize,
    pub at: usize,
}

// The place in a list of what stands at place t where places p and p + 1 are left out.
fn place(p: usize, t: usize) -> usize
    requires { t ≤ 32 }
    ensures { (t < p → result ≡ t) × (p ≤ t → result ≡ t + 2) }
{
    if t < p { t } else { t + 2 }
}

// The boards without those at places p and p + 1.
pub fn leave_pair(boards: &[usize], p: usize, out: &mut [usize])
    requires { (p + 2 ≤ length boards.now) × (length out.old ≤ 32) × (length out.old + 2 ≡ length boards.now) }
    ensures { out.new ≡ leaving_pair p boards.now }
{
    for t in 0..out.len() {
        out[t] = boards[place(p, t)];
    }
}

// Where the pair before a place begins: two before it, or at 0.
pub fn pair_before(end: usize) -> usize
    ensures { result ≡ end - 2 }
{
    if end < 2 { 0 } else { end - 2 }
}

// What is told where boards x and y are left out, by whether each holds its share; at is the stripe that was looked at last.
pub fn told(first: bool, second: bool, x: usize, y: usize, at: usize) -> Tried
    requires { (x < 32) × (y < 32) }
    ensures { (result.found ≡ found_of first second) × (result.odd ≡ odd_of first second x y) }
{
    if !first {
        return Tried {
            found: second,
            odd: x + 1,
            at: at,
        };
    }
    if !second {
        return Tried {
            found: true,
            odd: y + 1,
            at: at,
        };
    }
    Tried {
        found: true,
        odd: 0,
        at: at,
    }
}
