//! Request A.14: how far bytes of a text go along with those of an accepted text, from a place on: a name, and whether digits can go on.

#![tactic(auto)]

ghost use Rattle.std.specs.Prelude.{◌≡◌, [], ◌∷◌, ◌≤◌, leb, drop};
ghost use Rattle.lists.specs.Tests.{alls};
ghost use Rattle.prefix_spec.specs.Prefix.{name_on, opens};
ghost use Rattle.prefix_steps.specs.Steps.{stopped, Goes};

// Whether a line went through; its number; the place behind it, or the place from which on the text makes no sense.
#[derive(Clone, Copy)]
pub struct Went {
    pub ok: bool,
    pub value: usize,
    pub at: usize,
}

// No further than this place.
pub fn stopped(at: usize) -> Went
    ensures { result ≡ stopped at }
{
    Went {
        ok: false,
        value: 0,
        at,
    }
}

// These bytes from a place on.
pub fn name_on(text: &[u8], at: usize, name: &[u8]) -> Went
    ensures { Goes text.now at (λ go. name_on name.now (drop at text.now) (go 0)) result }
{
    let mut i = at;
    for b in name {
        if text.len() <= i {
            return stopped(i);
        }
        if text[i] != *b {
            return stopped(i);
        }
        i += 1;
    }
    Went {
        ok: true,
        value: 0,
        at: i,
    }
}

// Whether a is at most b and c at most d.
fn both(a: usize, b: usize, c: usize, d: usize) -> bool
    ensures { result ≡ alls (leb a b ∷ leb c d ∷ []) }
{
    if a <= b {
        return c <= d;
    }
    false
}

// Whether some number from lo to hi begins with the digits of v.
pub fn opens(lo: usize, hi: usize, v: usize) -> bool
    requires { v ≤ 1000000000 }
    ensures { result ≡ opens lo hi v }
{
    if both(lo, v, v, hi) {
        return true;
    }
    both(10 * v, hi, lo, 10 * v + 9)
}
