// What a fresh board hears of a stripe, in two rows.
// Assumes nothing.

#![tactic(auto)]

ghost use Rattle.std.specs.Prelude.{◌≡◌, ◌++◌, ◌+◌, ◌-◌, ◌*◌, ◌<◌, ◌≤◌, length, take};
ghost use Rattle.mbcr.specs.Rebuild.{received, exchanged};

use sizes::Sizes;

// The second bytes of the helpers for stripe s and those of the partners, in all places of f but the last.
pub fn gather(
    sizes: Sizes,
    stripes: usize,
    s: usize,
    packets: &[u8],
    exchanges: &[u8],
    f: &mut [u8],
)
    requires { (1 ≤ sizes.r) × (s < stripes) × (stripes ≤ 4096) × (length packets.now ≡ sizes.d * (2 * stripes)) × (length exchanges.now ≡ (sizes.r - 1) * stripes) × (length f.old ≡ sizes.d + sizes.r) }
    ensures { take (length f.old - 1) f.new ≡ received sizes stripes 1 s packets.now ++ exchanged sizes stripes s exchanges.now }
{
    let d = sizes.d;
    let last = f.len() - 1;
    stripe_exchange::received(sizes, stripes, 1, s, packets, &mut f[0..d]);
    stripe_exchange::exchanged(sizes, stripes, s, exchanges, &mut f[d..last]);
}
