// The bytes that a board keeps of a stripe as two rows: those of f and those of g.
// Assumes nothing.

#![tactic(auto)]

ghost use Rattle.std.specs.Prelude.{◌≡◌, ◌++◌, ◌+◌, ◌-◌, ◌≤◌, length, take, drop};

// Of the bytes held, of which w are of f: those of f to the beginning of f; the first of them and the others to the beginning of g, d in all.
pub fn own_rows(d: usize, w: usize, held: &[u8], f: &mut [u8], g: &mut [u8])
    requires { (1 ≤ d) × (1 ≤ w) × (length held.now ≡ w + d - 1) × (w ≤ length f.old) × (d ≤ length g.old) }
    ensures { (f.new ≡ take w held.now ++ drop w f.old) × (g.new ≡ (take 1 held.now ++ drop w held.now) ++ drop d g.old) }
{
    let a = held.len();
    row_dots::copy(&held[0..w], &mut f[0..w]);
    g[0] = held[0];
    row_dots::copy(&held[w..a], &mut g[1..d]);
}
