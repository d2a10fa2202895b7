// The powers of the boards' points, each as a row of 32 bytes with its sixteen multiples.
// Assumes nothing.

#![tactic(auto)]

ghost use Rattle.std.specs.Prelude.{◌≡◌, ◌++◌, ◌*◌, ◌≤◌, length, drop};
ghost use Rattle.lists.specs.Lists.{join};
ghost use Rattle.row_sums.specs.Steps.{multiples};
ghost use Rattle.powers.specs.Steps.{power_row};

// The multiples of the j-th powers of 32 points, for each j below w, to the beginning of the tables.
pub fn fill_powers(points: &[u8], w: usize, tables: &mut [u8])
    requires { (length points.now ≡ 32) × (w ≤ 32) × (w * 512 ≤ length tables.old) }
    ensures { tables.new ≡ join w (λ j. multiples (power_row points.now j)) ++ drop (w * 512) tables.old }
{
    let mut power = [1u8; 32];
    for j in 0..w {
        let at = j * 512;
        let end = at + 512;
        multiples::fill_multiples(&power, &mut tables[at..end]);
        row_products::scale_by(points, &mut power);
    }
}
