// Lagrange's factors as rows: what the value at the point of each of some boards adds at the point of every board.
// Assumes nothing.

#![tactic(auto)]

ghost use Rattle.std.specs.Prelude.{◌≡◌, true, ◌*◌, ◌<◌, ◌≤◌, length, get_or, take};
ghost use Rattle.lists.specs.Tests.{below};
ghost use Rattle.lists.specs.Lists.{tabulate, join};
ghost use Rattle.gf256.specs.Field.{mul, inverse};
ghost use Rattle.mbcr.specs.Share.{points as points_of};
ghost use Rattle.lagrange_rows.specs.Steps.{before_row, lagrange_rows};

// The points of boards.
pub fn points_of(points: &[u8], boards: &[usize], out: &mut [u8])
    requires { (below (length points.now) boards.now ≡ true) × (length out.old ≡ length boards.now) }
    ensures { out.new ≡ points_of points.now boards.now }
{
    for t in 0..boards.len() {
        out[t] = points[boards[t]];
    }
}

// Row t: the product of y - x_s over s below t, at all points y.
fn products_before(points: &[u8], xs: &[u8], rows: &mut [u8])
    requires { (length points.now ≡ 32) × (length xs.now ≤ 32) × (length rows.old ≡ length xs.now * 32) }
    ensures { rows.new ≡ join (length xs.now) (before_row points.now xs.now) }
{
    let mut row = [1u8; 32];
    for t in 0..xs.len() {
        let at = t * 32;
        let end = at + 32;
        row_dots::copy(&row, &mut rows[at..end]);
        row_dots::scale_by_difference(xs[t], points, &mut row);
    }
}

// A row times another, divided by what that is at the place `own`.
fn divide(after: &[u8], own: usize, inverses: &[u8], row: &mut [u8])
    requires { (inverses.now ≡ tabulate 256 inverse) × (length after.now ≡ 32) × (own < 32) × (length row.old ≡ 32) }
    ensures { row.new ≡ tabulate (length row.old) (λ m. mul (inverse (mul (get_or row.old own 0) (get_or after.now own 0))) (mul (get_or row.old m 0) (get_or after.now m 0))) }
{
    row_dots::scale_by(after, row);
    let v = row[own];
    row_dots::scale(inverses[v as usize], row);
}

// Row t times the product of y - x_s over s above t, divided by what that is at x_t.
fn products_after(points: &[u8], boards: &[usize], xs: &[u8], inverses: &[u8], rows: &mut [u8])
    requires { (inverses.now ≡ tabulate 256 inverse) × (length points.now ≡ 32) × (below 32 boards.now ≡ true) × (length boards.now ≤ 32) × (xs.now ≡ points_of points.now boards.now) × (rows.old ≡ join (length boards.now) (before_row points.now xs.now)) }
    ensures { rows.new ≡ lagrange_rows points.now boards.now }
{
    let mut row = [1u8; 32];
    for t in (0..xs.len()).rev() {
        let at = t * 32;
        let end = at + 32;
        divide(&row, boards[t], inverses, &mut rows[at..end]);
        row_dots::scale_by_difference(xs[t], points, &mut row);
    }
}

// Lagrange's rows of boards. xs is for work.
fn rows_in(points: &[u8], boards: &[usize], inverses: &[u8], xs: &mut [u8], rows: &mut [u8])
    requires { (inverses.now ≡ tabulate 256 inverse) × (length points.now ≡ 32) × (below 32 boards.now ≡ true) × (length boards.now ≤ 32) × (length xs.old ≡ length boards.now) × (length rows.old ≡ length boards.now * 32) }
    ensures { rows.new ≡ lagrange_rows points.now boards.now }
{
    points_of(points, boards, xs);
    products_before(points, xs, rows);
    products_after(points, boards, xs, inverses, rows);
}

// Row t: at all points, the polynomial of degree below the number of boards that is 1 at the point of boards[t] and 0 at those of the others.
pub fn lagrange_rows(points: &[u8], boards: &[usize], inverses: &[u8], rows: &mut [u8])
    requires { (inverses.now ≡ tabulate 256 inverse) × (length points.now ≡ 32) × (below 32 boards.now ≡ true) × (length boards.now ≤ 32) × (length rows.old ≡ length boards.now * 32) }
    ensures { rows.new ≡ lagrange_rows points.now boards.now }
{
    let m = boards.len();
    let mut xs = [0u8; 32];
    rows_in(points, boards, inverses, &mut xs[0..m], rows);
}
