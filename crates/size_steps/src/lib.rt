//! The list of all legal combinations of sizes, step by step: the place behind each, and what a whole line of input gives as its limit.

#![tactic(auto)]

ghost use Rattle.std.specs.Prelude.{◌≡◌, true, ◌≤◌};
ghost use Rattle.sizes.specs.Sizing.{legal};
ghost use Rattle.size_steps.specs.Steps.{next_of, from_d, whole_limit};

use sizes::Sizes;

// The first combination of n, k and d; where there is none, that of the next k, or of the next n up to the limit.
fn from_helpers(n: usize, k: usize, d: usize, most: usize) -> Option<Sizes>
    requires { (n ≤ 32) × (k ≤ 32) }
    ensures { result ≡ from_d most n k d }
{
    if d < n {
        return Some(Sizes {
            n: n,
            k: k,
            d: d,
            r: 1,
        });
    }
    if k + 1 < n {
        return Some(Sizes {
            n: n,
            k: k + 1,
            d: k + 1,
            r: 1,
        });
    }
    if n < most {
        return Some(Sizes {
            n: n + 1,
            k: 1,
            d: 1,
            r: 1,
        });
    }
    None
}

// The place behind a combination.
pub fn next(z: Sizes, most: usize) -> Option<Sizes>
    requires { legal z ≡ true }
    ensures { result ≡ next_of most z }
{
    if z.d + z.r < z.n {
        return Some(Sizes {
            n: z.n,
            k: z.k,
            d: z.d,
            r: z.r + 1,
        });
    }
    from_helpers(z.n, z.k, z.d + 1, most)
}

// What a whole line gives: its number, where it is a limit and nothing stands behind it.
pub fn whole(v: usize, behind: usize) -> usize
    ensures { result ≡ whole_limit v behind }
{
    if v < 2 {
        return 0;
    }
    if Sizes::MAX_BOARDS < v {
        return 0;
    }
    if behind != 0 {
        return 0;
    }
    v
}
