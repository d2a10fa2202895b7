// What boards keep of a stripe, as rows of 32 bytes, and the values of their f and g at other boards: bytes that they keep, or sums of these
// times Lagrange's factors. specs/Steps.antt of the crate decode_laws says what each function works out.
// Assumes nothing.

#![tactic(auto)]

ghost use Rattle.std.specs.Prelude.{◌≡◌, true, ◌+◌, ◌-◌, ◌*◌, ◌<◌, ◌≤◌, length, get_or, take, drop};
ghost use Rattle.lists.specs.Tests.{below};
ghost use Rattle.lists.specs.Lists.{All, tabulate, join};
ghost use Rattle.gf256.specs.Field.{mul};
ghost use Rattle.polynomial.specs.Polynomial.{sum};
ghost use Rattle.decode_laws.specs.Steps.{offset, value_by, values_of, tops_of, f_row, g_row};

// The same of each of some boards, whose bytes start at these places and a number of bytes behind them.
pub fn rows_of(
    d: usize,
    w: usize,
    starts: &[usize],
    at: usize,
    bytes: &[u8],
    fs: &mut [u8],
    gs: &mut [u8],
)
    requires { (1 ≤ d) × (d ≤ 32) × (1 ≤ w) × (w ≤ 32) × (length starts.now ≤ 32) × All (λ p. p + at + (w + (d - 1)) ≤ length bytes.now) starts.now × (length fs.old ≡ length starts.now * 32) × (length gs.old ≡ length starts.now * 32) }
    ensures { (fs.new ≡ join (length starts.now) (λ t. f_row w (take (w + (d - 1)) (drop (get_or starts.now t 0 + at) bytes.now)))) × (gs.new ≡ join (length starts.now) (λ t. g_row w (take (w + (d - 1)) (drop (get_or starts.now t 0 + at) bytes.now)))) }
{
    let a = w + (d - 1);
    for t in 0..starts.len() {
        let from = starts[t] + at;
        let to = from + a;
        let row = t * 32;
        let end = row + 32;
        kept_rows::board_rows(d, w, &bytes[from..to], &mut fs[row..end], &mut gs[row..end]);
    }
}

// The values at some boards of the polynomial of board b.
fn board_values(
    n: usize,
    c: usize,
    m: usize,
    b: usize,
    targets: &[usize],
    factors: &[u8],
    row: &[u8],
    out: &mut [u8],
)
    requires { (n ≤ 32) × (c ≤ n) × (m ≤ 32) × (b < n) × (below n targets.now ≡ true) × ((n - c) * 32 ≤ length factors.now) × (length row.now ≡ 32) × (length out.old ≡ length targets.now) }
    ensures { out.new ≡ tabulate (length targets.now) (λ i. value_by c (offset n b (get_or targets.now i 0)) m factors.now row.now) }
{
    for i in 0..targets.len() {
        let o = kept_rows::offset(n, b, targets[i]);
        out[i] = kept_rows::value(n, c, m, o, factors, row);
    }
}

// The values at some boards of the polynomial of each of others.
pub fn values(
    n: usize,
    c: usize,
    m: usize,
    boards: &[usize],
    targets: &[usize],
    factors: &[u8],
    rows: &[u8],
    out: &mut [u8],
)
    requires { (n ≤ 32) × (c ≤ n) × (m ≤ 32) × (length boards.now ≤ 32) × (below n boards.now ≡ true) × (length targets.now ≤ 32) × (below n targets.now ≡ true) × (length boards.now * ((n - c) * 32) ≤ length factors.now) × (length rows.now ≡ length boards.now * 32) × (length out.old ≡ length boards.now * length targets.now) }
    ensures { out.new ≡ values_of n c m boards.now targets.now factors.now rows.now }
{
    let q = targets.len();
    let all = (n - c) * 32;
    for t in 0..boards.len() {
        let b = boards[t];
        let from = t * all;
        let row = t * 32;
        let row_end = row + 32;
        let at = t * q;
        let end = at + q;
        board_values(
            n,
            c,
            m,
            b,
            targets,
            &factors[from..],
            &rows[row..row_end],
            &mut out[at..end],
        );
    }
}

// For one row of coefficients, the sum of its first m bytes times those of each board, of which d stand one after another.
fn top(d: usize, m: usize, row: &[u8], va: &[u8], out: &mut [u8])
    requires { (d ≤ 32) × (m ≤ 32) × (length row.now ≡ 32) × (length out.old ≤ 32) × (length out.old * d + 32 ≤ length va.now) }
    ensures { out.new ≡ tabulate (length out.old) (λ t. sum m (λ s. mul (get_or row.now s 0) (get_or va.now (t * d + s) 0))) }
{
    for t in 0..out.len() {
        let from = t * d;
        let to = from + 32;
        out[t] = row_dots::dot(&row[0..m], &va[from..to]);
    }
}

// The same for each row of coefficients.
pub fn tops(count: usize, k: usize, d: usize, m: usize, rows: &[u8], va: &[u8], out: &mut [u8])
    requires { (count ≤ 32) × (k ≤ 32) × (d ≤ 32) × (m ≤ 32) × (count * 32 ≤ length rows.now) × (k * d + 32 ≤ length va.now) × (length out.old ≡ count * k) }
    ensures { out.new ≡ tops_of count k d m rows.now va.now }
{
    for i in 0..count {
        let from = i * 32;
        let to = from + 32;
        let at = i * k;
        let end = at + k;
        top(d, m, &rows[from..to], va, &mut out[at..end]);
    }
}
