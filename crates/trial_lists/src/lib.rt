//! Request A.2: the lists of boards that the trial load draws. "Lists count on from there modulo n".

#![tactic(auto)]

ghost use Rattle.std.specs.Prelude.{◌≡◌, ◌*◌, ◌≤◌, length};
ghost use Rattle.lists.specs.Lists.{join};
ghost use Rattle.trial_spec.specs.Trial.{counted};

// The boards from a first one on, modulo n, as many as there is room for.
pub fn count_on(n: usize, first: usize, out: &mut [usize])
    requires { (1 ≤ n) × (first ≤ 64) × (length out.old ≤ 32) }
    ensures { out.new ≡ counted n first (length out.old) }
{
    for i in 0..out.len() {
        out[i] = (first + i) % n;
    }
}

// The same d boards, once for each of r.
pub fn repeat_on(n: usize, first: usize, d: usize, r: usize, out: &mut [usize])
    requires { (1 ≤ n) × (first ≤ 64) × (d ≤ 32) × (r ≤ 32) × (length out.old ≡ r * d) }
    ensures { out.new ≡ join r (λ _. counted n first d) }
{
    for t in 0..r {
        let a = t * d;
        let e = a + d;
        count_on(n, first, &mut out[a..e]);
    }
}
