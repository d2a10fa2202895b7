//! Texts that stand one after another in a lent slice: whether they do, whether they are alike in sizes, points and length, how many there are, and
//! of the first 32 the board and the place where its pairs begin.

#![tactic(auto)]

ghost use Rattle.std.specs.Prelude.{◌≡◌, [], ◌∷◌, eqb, set};
ghost use Rattle.lists.specs.Tests.{alls, same};
ghost use Rattle.lists.specs.Lists.{fit};
ghost use Rattle.text_spec.specs.Calls.{like_sizes};
ghost use Rattle.text_scan.specs.Steps.{Scanned};

use sizes::Sizes;

// Whether texts stand there, one after another to the end; whether each is like the one that they are measured by; how many there are.
#[derive(Clone, Copy)]
pub struct Scan {
    pub ok: bool,
    pub alike: bool,
    pub count: usize,
}

// A number at a place of a list, where the list is as long.
fn note(list: &mut [usize], at: usize, v: usize)
    ensures { list.new ≡ set list.old at v }
{
    if at < list.len() {
        list[at] = v;
    }
}

// Whether two sizes are the same.
fn same_sizes(y: Sizes, z: Sizes) -> bool
    ensures { result ≡ like_sizes y z }
{
    y.n == z.n && y.k == z.k && y.d == z.d && y.r == z.r
}

// Whether a text tells these sizes, points and length.
fn like(sizes: Sizes, points: &[u8], length: usize, z: Sizes, theirs: &[u8], told: usize) -> bool
    ensures { result ≡ alls (like_sizes sizes z ∷ same points.now theirs.now ∷ eqb length told ∷ []) }
{
    same_sizes(sizes, z) && byte_tests::same_bytes(points, theirs) && length == told
}

// Walks over the texts, each from behind the last.
pub fn scan_texts(
    text: &[u8],
    sizes: Sizes,
    points: &[u8],
    length: usize,
    nodes: &mut [usize],
    places: &mut [usize],
) -> Scan
    requires { (nodes.old ≡ fit 32 []) × (places.old ≡ fit 32 []) }
    ensures { Scanned text.now sizes points.now length result nodes.new places.new }
{
    let mut at: usize = 0;
    let mut count: usize = 0;
    let mut alike = true;
    while at < text.len() {
        let head = text_head::head_at(text, at);
        if !head.ok {
            return Scan {
                ok: false,
                alike: false,
                count: 0,
            };
        }
        let theirs = head.points;
        if !like(sizes, points, length, head.sizes, &theirs, head.length) {
            alike = false;
        }
        note(nodes, count, head.node);
        note(places, count, head.place);
        count += 1;
        at = head.next;
    }
    Scan {
        ok: true,
        alike,
        count,
    }
}
