//! Points that are lent, as an array.

#![tactic(auto)]

ghost use Rattle.std.specs.Prelude.{◌≡◌};
ghost use Rattle.point_array.specs.Steps.{array_of};

// Points that are lent, as an array; another number of them than 32 gives 32 times 00, which no boards have.
pub fn points_array(points: &[u8]) -> [u8; 32]
    ensures { result ≡ array_of points.now }
{
    let mut given = [0u8; 32];
    if points.len() == 32 {
        let row = row_sums::row_at(points, 0);
        row_sums::put_row(row, &mut given);
    }
    given
}
