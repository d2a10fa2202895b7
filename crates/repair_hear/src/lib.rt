// What the fresh boards of a repair hear of one stripe from their helpers, from the area.
// Assumes nothing.

#![tactic(auto)]

ghost use Rattle.std.specs.Prelude.{◌≡◌, true, ◌+◌, ◌*◌, ◌<◌, ◌≤◌, length, drop};
ghost use Rattle.lists.specs.Lists.{tabulate, piece};
ghost use Rattle.lists.specs.Tests.{below};
ghost use Rattle.sizes.specs.Sizing.{legal, α};
ghost use Rattle.repair_hear.specs.Steps.{heard_first, heard_second};

use sizes::Sizes;

// The first and second bytes of these helpers, of stripe s, each by its own factors of f and of g, of which fl and gl bytes count.
pub fn hear(
    sizes: Sizes,
    fl: usize,
    gl: usize,
    ff: &[u8],
    gf: &[u8],
    area: &[u8],
    part: usize,
    s: usize,
    helpers: &[usize],
    firsts: &mut [u8],
    seconds: &mut [u8],
)
    requires { (legal sizes ≡ true) × (fl ≤ 32) × (gl ≤ 32) × (length helpers.now ≤ 256) × (length ff.now ≡ length helpers.now * 32) × (length gf.now ≡ length helpers.now * 32) × (part ≤ 253952) × (s * α sizes + α sizes ≤ part) × (length area.now ≡ sizes.n * part) × (below sizes.n helpers.now ≡ true) × (length firsts.old ≡ length helpers.now) × (length seconds.old ≡ length helpers.now) }
    ensures { (firsts.new ≡ tabulate (length helpers.now) (heard_first (sizes.d + sizes.r) fl gl ff.now gf.now (λ j. piece (α sizes) s (drop (j * part) area.now)) helpers.now)) × (seconds.new ≡ tabulate (length helpers.now) (heard_second (sizes.d + sizes.r) fl gl ff.now gf.now (λ j. piece (α sizes) s (drop (j * part) area.now)) helpers.now)) }
{
    let d = sizes.d;
    let w = d + sizes.r;
    let a = 2 * d + sizes.r - 1;
    for p in 0..helpers.len() {
        let j = helpers[p];
        let from = j * part + s * a;
        let to = from + a;
        let row = p * 32;
        let fend = row + fl;
        let gend = row + gl;
        let q = stripe_helper::helper_pair(d, w, &ff[row..fend], &gf[row..gend], &area[from..to]);
        firsts[p] = q.first;
        seconds[p] = q.second;
    }
}
