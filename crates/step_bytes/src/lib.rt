// What a fresh board of a started repair hears of a stripe, in two rows, from the packets that lie for it: those of its helpers, of its stand-ins and of
// the other fresh boards.
// Assumes nothing.

#![tactic(auto)]

ghost use Rattle.std.specs.Prelude.{◌≡◌, ◌++◌, ◌+◌, ◌-◌, ◌*◌, ◌<◌, ◌≤◌, length, get_or, take};
ghost use Rattle.lists.specs.Lists.{tabulate};
ghost use Rattle.mbcr.specs.Rebuild.{received, exchanged};

use sizes::Sizes;

// Byte s of each of m packets that have one byte for each stripe.
fn sent_bytes(stripes: usize, s: usize, m: usize, sent: &[u8], out: &mut [u8])
    requires { (s < stripes) × (stripes ≤ 4096) × (m ≤ 32) × (length sent.now ≡ m * stripes) × (length out.old ≡ m) }
    ensures { out.new ≡ tabulate m (λ u. get_or sent.now (u * stripes + s) 0) }
{
    for u in 0..m {
        let at = u * stripes + s;
        let b = sent[at];
        out[u] = b;
    }
}

// The second bytes of the helpers for stripe s, those of e stand-ins and those of the other fresh boards, in all places of got but the last.
fn gather(
    sizes: Sizes,
    stripes: usize,
    s: usize,
    e: usize,
    packets: &[u8],
    stood: &[u8],
    exchanges: &[u8],
    got: &mut [u8],
)
    requires { (sizes.d + sizes.r ≤ 32) × (e < sizes.r) × (s < stripes) × (stripes ≤ 4096) × (length packets.now ≡ sizes.d * (2 * stripes)) × (length stood.now ≡ e * stripes) × (length exchanges.now ≡ (sizes.r - 1 - e) * stripes) × (length got.old ≡ sizes.d + sizes.r) }
    ensures { take (length got.old - 1) got.new ≡ received sizes stripes 1 s packets.now ++ exchanged sizes stripes s (stood.now ++ exchanges.now) }
{
    let d = sizes.d;
    let mid = d + e;
    let last = got.len() - 1;
    let rest = sizes.r - 1 - e;
    stripe_exchange::received(sizes, stripes, 1, s, packets, &mut got[0..d]);
    sent_bytes(stripes, s, e, stood, &mut got[d..mid]);
    sent_bytes(stripes, s, rest, exchanges, &mut got[mid..last]);
}

// The same, and the first bytes of the helpers.
pub fn hear(
    sizes: Sizes,
    stripes: usize,
    s: usize,
    e: usize,
    packets: &[u8],
    stood: &[u8],
    exchanges: &[u8],
    firsts: &mut [u8],
    got: &mut [u8],
)
    requires { (sizes.d + sizes.r ≤ 32) × (e < sizes.r) × (s < stripes) × (stripes ≤ 4096) × (length packets.now ≡ sizes.d * (2 * stripes)) × (length stood.now ≡ e * stripes) × (length exchanges.now ≡ (sizes.r - 1 - e) * stripes) × (length firsts.old ≡ sizes.d) × (length got.old ≡ sizes.d + sizes.r) }
    ensures { (firsts.new ≡ received sizes stripes 0 s packets.now) × (take (length got.old - 1) got.new ≡ received sizes stripes 1 s packets.now ++ exchanged sizes stripes s (stood.now ++ exchanges.now)) }
{
    stripe_exchange::received(sizes, stripes, 0, s, packets, firsts);
    gather(sizes, stripes, s, e, packets, stood, exchanges, got);
}
