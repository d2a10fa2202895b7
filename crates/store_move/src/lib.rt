//! A move in the area (request A.10): every other board's kept values afresh, then the repair of the one board at the new points.
//! No byte that the board held is read.

#![tactic(auto)]

ghost use Rattle.std.specs.Prelude.{◌≡◌, [], ◌∷◌, length, Ok};
ghost use Rattle.sizes.specs.Refusals.{first, store_order};
ghost use Rattle.store_spec.specs.Record.{stripe_count, put_shares};
ghost use Rattle.store_spec.specs.Move.{afresh_area, moved_share, move_lines};
ghost use Rattle.record.specs.Records.{record_of};

use record::Kept;

// Moves a board to a new point, from its d helpers and its r − 1 partners, in the first stripes of the area.
pub fn move_share(
    kept: Kept,
    stripes: usize,
    board: usize,
    point: u8,
    helpers: &[usize],
    partners: &[usize],
    area: &mut [u8],
)
    requires { (first store_order (move_lines (record_of kept) (length area.old) board point helpers.now partners.now) ≡ Ok tt) × (stripes ≡ stripe_count (record_of kept)) }
    ensures { area.new ≡ put_shares (record_of kept) (moved_share (record_of kept) area.old board point helpers.now partners.now) (board ∷ []) (afresh_area (record_of kept) area.old board point) }
{
    let mut points = kept.points;
    points[board] = point;
    let mut inverses = [0u8; 256];
    inverses::fill_inverses(&mut inverses);
    rekeep::rekeep(kept, stripes, &inverses, board, point, area);
    let fresh = [board];
    repair_boards::repair_shares(
        kept.sizes,
        kept.capacity,
        &points,
        &inverses,
        stripes,
        &fresh,
        helpers,
        partners,
        area,
    );
}
