//! The boards that each fresh board of a repair names, its helpers and then its stand-ins, in one list.

#![tactic(auto)]

ghost use Rattle.std.specs.Prelude.{◌≡◌, ◌++◌, ◌+◌, ◌*◌, ◌≤◌, length};
ghost use Rattle.lists.specs.Lists.{join, piece};

// Two lists, one after the other.
fn put_run(helpers: &[usize], standins: &[usize], out: &mut [usize])
    requires { length out.old ≡ length helpers.now + length standins.now }
    ensures { out.new ≡ helpers.now ++ standins.now }
{
    let d = helpers.len();
    stripe_finish::copy_boards(helpers, &mut out[0..d]);
    stripe_finish::copy_boards(standins, &mut out[d..]);
}

// For each of t fresh boards its run of d helpers, then its run of e stand-ins.
pub fn name_boards(
    t: usize,
    d: usize,
    e: usize,
    helpers: &[usize],
    standins: &[usize],
    out: &mut [usize],
)
    requires { (length helpers.now ≡ t * d) × (length standins.now ≡ t * e) × (length out.old ≡ t * (d + e)) × (length out.old ≤ 256) × (d ≤ 32) × (e ≤ 32) }
    ensures { out.new ≡ join t (λ a. piece d a helpers.now ++ piece e a standins.now) }
{
    let c = d + e;
    for a in 0..t {
        let from = a * d;
        let to = from + d;
        let start = a * e;
        let end = start + e;
        let at = a * c;
        let next = at + c;
        put_run(
            &helpers[from..to],
            &standins[start..end],
            &mut out[at..next],
        );
    }
}
