// What one board keeps of a stripe, as two rows, and a value of its polynomials at another board.
// Assumes nothing.

#![tactic(auto)]

ghost use Rattle.std.specs.Prelude.{◌≡◌, ◌+◌, ◌-◌, ◌*◌, ◌<◌, ◌≤◌, length};
ghost use Rattle.lists.specs.Lists.{fit};
ghost use Rattle.decode_laws.specs.Steps.{offset, value_by, f_row, g_row};

// Bytes to the beginning of a row, and 00 behind: the whole row is cleared first, since its length is known where it is lent.
pub fn padded(a: &[u8], out: &mut [u8])
    requires { length a.now ≤ length out.old }
    ensures { out.new ≡ fit (length out.old) a.now }
{
    let m = a.len();
    row_dots::clear(out);
    row_dots::copy(a, &mut out[0..m]);
}

// The bytes of f and those of g, of the bytes that a board keeps, of which w are of f.
pub fn board_rows(d: usize, w: usize, held: &[u8], f: &mut [u8], g: &mut [u8])
    requires { (1 ≤ d) × (d ≤ 32) × (1 ≤ w) × (w ≤ 32) × (length held.now ≡ w + (d - 1)) × (length f.old ≡ 32) × (length g.old ≡ 32) }
    ensures { (f.new ≡ f_row w held.now) × (g.new ≡ g_row w held.now) }
{
    let a = held.len();
    padded(&held[0..w], f);
    g[0] = held[0];
    padded(&held[w..a], &mut g[1..32]);
}

// By how many boards b comes after a, modulo n.
pub fn offset(n: usize, a: usize, b: usize) -> usize
    requires { (n ≤ 32) × (a < n) × (b < n) }
    ensures { result ≡ offset n a b }
{
    if a <= b { b - a } else { b + n - a }
}

// The value at the o-th board after its own of the polynomial through the c bytes of a row.
pub fn value(n: usize, c: usize, m: usize, o: usize, factors: &[u8], row: &[u8]) -> u8
    requires { (n ≤ 32) × (c ≤ n) × (m ≤ 32) × (o < n) × ((n - c) * 32 ≤ length factors.now) × (length row.now ≡ 32) }
    ensures { result ≡ value_by c o m factors.now row.now }
{
    if o < c {
        row[o]
    } else {
        let at = (o - c) * 32;
        let end = at + m;
        row_dots::dot(&factors[at..end], row)
    }
}
