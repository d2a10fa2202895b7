// The sum of multiples of rows, looked up in tables of 16 multiples of each.
// Assumes nothing.

#![tactic(auto)]

ghost use Rattle.std.specs.Prelude.{◌≡◌, List, ℕ, ◌+◌, ◌*◌, ◌<◌, ◌≤◌, length, get_or};
ghost use Rattle.lists.specs.Lists.{tabulate};
ghost use Rattle.polynomial.specs.Polynomial.{scale};
ghost use Rattle.row_sums.specs.Steps.{row_bytes, multiples, Tabled, Wide, combined};

use row_sums::Row;

// c times the row of which t has the multiples.
pub fn product(t: &[u8], c: u8) -> Row
    requires { length t.now ≡ 512 }
    ensures { (row : List ℕ) → length row ≡ 32 → t.now ≡ multiples row → row_bytes result ≡ scale c row }
{
    let a = (c % 4) as usize * 32;
    let b = (c / 4 % 4) as usize * 32 + 128;
    let g = (c / 16 % 4) as usize * 32 + 256;
    let h = (c / 64) as usize * 32 + 384;
    let low = row_sums::plus(row_sums::row_at(t, a), row_sums::row_at(t, b));
    let high = row_sums::plus(row_sums::row_at(t, g), row_sums::row_at(t, h));
    row_sums::plus(low, high)
}

// The sum of cs[i] times row i, of rows whose multiples are in the tables, 512 bytes each.
pub fn row_sum(tables: &[u8], cs: &[u8]) -> Row
    requires { (length cs.now ≤ 32) × (length cs.now * 512 ≤ length tables.now) }
    ensures { (rows : List (List ℕ)) → length cs.now ≤ length rows → Wide rows → Tabled rows tables.now → row_bytes result ≡ combined cs.now rows }
{
    let mut sum = Row {
        a: 0,
        b: 0,
        c: 0,
        d: 0,
    };
    for i in 0..cs.len() {
        let at = i * 512;
        let end = at + 512;
        let p = product(&tables[at..end], cs[i]);
        sum = row_sums::plus(sum, p);
    }
    sum
}

// The sum of byte j of each of m lines of 32 bytes, times row i for line i, of rows whose multiples are in the tables.
pub fn column_sum(tables: &[u8], lines: &[u8], j: usize, m: usize) -> Row
    requires { (m ≤ 32) × (j < 32) × (m * 512 ≤ length tables.now) × (m * 32 ≤ length lines.now) }
    ensures { (rows : List (List ℕ)) → m ≤ length rows → Wide rows → Tabled rows tables.now → row_bytes result ≡ combined (tabulate m (λ i. get_or lines.now (i * 32 + j) 0)) rows }
{
    let mut sum = Row {
        a: 0,
        b: 0,
        c: 0,
        d: 0,
    };
    for i in 0..m {
        let at = i * 512;
        let end = at + 512;
        let from = i * 32 + j;
        let p = product(&tables[at..end], lines[from]);
        sum = row_sums::plus(sum, p);
    }
    sum
}
