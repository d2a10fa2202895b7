// Whether a stripe that is cut ends in 00.
// Assumes nothing.

#![tactic(auto)]

ghost use Rattle.std.specs.Prelude.{◌≡◌, ◌+◌, ◌≤◌, length, drop};
ghost use Rattle.sizes.specs.Sizing.{B};
ghost use Rattle.decode_laws.specs.Steps.{zeros, Placed};
ghost use Rattle.decode_stripe.specs.Steps.{Asked};
ghost use Rattle.decode_setup.specs.Steps.{Made};
ghost use Rattle.stripes_cut.specs.Steps.{stripe_at};

use sizes::Sizes;

// Whether each byte is 00.
fn zeros(a: &[u8]) -> bool
    ensures { result ≡ zeros a.now }
{
    for i in 0..a.len() {
        if a[i] != 0 {
            return false;
        }
    }
    true
}

// Whether the bytes of stripe s from a place on are 00. The stripe is decoded to the working array.
pub fn padding(
    sizes: Sizes,
    points: &[u8],
    s: usize,
    rest: usize,
    boards: &[usize],
    starts: &[usize],
    bytes: &[u8],
    tables: &[u8],
) -> bool
    requires { Asked sizes points.now boards.now × (length starts.now ≡ sizes.k) × Placed sizes starts.now bytes.now (s + 1) × (s + 1 ≤ 4096) × (rest ≤ B sizes) × Made sizes points.now boards.now tables.now }
    ensures { result ≡ zeros (drop rest (stripe_at sizes points.now boards.now starts.now bytes.now s)) }
{
    let b = sizes.stripe_len();
    let mut u = [0u8; 992];
    decode_stripes::stripes(
        sizes,
        points,
        boards,
        starts,
        bytes,
        s,
        1,
        tables,
        &mut u[0..b],
    );
    zeros(&u[rest..b])
}
