// The bytes that fresh boards hear of the others named, in one row.
// Assumes nothing.

#![tactic(auto)]

ghost use Rattle.std.specs.Prelude.{◌≡◌, true, ◌++◌, ◌+◌, ◌-◌, ◌*◌, ◌<◌, ◌≤◌, length, take};
ghost use Rattle.lists.specs.Lists.{piece};
ghost use Rattle.sizes.specs.Sizing.{legal};
ghost use Rattle.repair_hear.specs.Steps.{Naming};
ghost use Rattle.repair_sent.specs.Steps.{sent_by};

use sizes::Sizes;

// The bytes that the other fresh boards send the a-th, board i.
pub fn sent(lanes: usize, gs: &[u8], i: usize, a: usize, out: &mut [u8])
    requires { (lanes ≤ 32) × (i < lanes) × (length out.old < 32) × (length gs.now ≡ (length out.old + 1) * lanes) }
    ensures { out.new ≡ sent_by (length out.old + 1) lanes gs.now i a }
{
    let m = out.len();
    for u in 0..m {
        let b = repair_rows::past(a, u);
        let at = b * lanes + i;
        out[u] = gs[at];
    }
}

// What the a-th of t fresh boards, board i, has of f: the second bytes of the c boards that it names, its helpers and stand-ins, then what the other
// fresh boards send, in all places of got but the last.
pub fn gather(
    sizes: Sizes,
    lanes: usize,
    t: usize,
    c: usize,
    seconds: &[u8],
    gs: &[u8],
    i: usize,
    a: usize,
    got: &mut [u8],
)
    requires { (legal sizes ≡ true) × (lanes ≤ 32) × (i < lanes) × (a < t) × (length seconds.now ≡ t * c) × (length gs.now ≡ t * lanes) × (length got.old ≡ sizes.d + sizes.r) × Naming sizes t c }
    ensures { take (length got.old - 1) got.new ≡ piece c a seconds.now ++ sent_by t lanes gs.now i a }
{
    let from = a * c;
    let to = from + c;
    let last = got.len() - 1;
    row_dots::copy(&seconds[from..to], &mut got[0..c]);
    sent(lanes, gs, i, a, &mut got[c..last]);
}
