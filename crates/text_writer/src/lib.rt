//! Share text, written whole into a lent slice, and its length.

#![tactic(auto)]

ghost use Rattle.std.specs.Prelude.{◌≡◌, List, ℕ, ◌≤◌, length};
ghost use Rattle.lists.specs.Lists.{over};
ghost use Rattle.board_spec.specs.Text.{share_text};
ghost use Rattle.text_writer.specs.Steps.{Writes, Fits};

use sizes::Sizes;

// How many bytes the text of a share of `held` bytes has.
pub fn text_len(sizes: Sizes, points: &[u8], total: usize, node: usize, held: usize) -> usize
    requires { Writes sizes points.now total node held }
    ensures { (share : List ℕ) → length share ≡ held → result ≡ length (share_text sizes points.now total node share) }
{
    let boards = text_lines::decimal_len(sizes.n)
        + text_lines::decimal_len(sizes.k)
        + text_lines::decimal_len(sizes.d)
        + text_lines::decimal_len(sizes.r);
    let n = sizes.n;
    let line = text_lines::points_len(&points[..n]);
    32 + boards + text_lines::decimal_len(node) + text_lines::decimal_len(total) + line + held * 2
}

// The text of a share, to the beginning of out.
pub fn write_text(
    sizes: Sizes,
    points: &[u8],
    total: usize,
    node: usize,
    share: &[u8],
    out: &mut [u8],
)
    requires { Fits sizes points.now total node share.now out.old }
    ensures { out.new ≡ over (share_text sizes points.now total node share.now) out.old }
{
    let k = text_lines::put_line(b"n", sizes.n, 0, out);
    let d = text_lines::put_line(b"k", sizes.k, k, out);
    let r = text_lines::put_line(b"d", sizes.d, d, out);
    let board = text_lines::put_line(b"r", sizes.r, r, out);
    let length = text_lines::put_line(b"node", node, board, out);
    let places = text_lines::put_line(b"length", total, length, out);
    let count = sizes.n;
    let data = text_lines::put_points(&points[..count], places, out);
    text_lines::put_pairs_line(b"data", share, data, out);
}
