//! The archive's calls of board level, each by the words and bytes that it is lent: `zebrankai` has them under their C names.
//! Each meets its definition in the crate `board_spec` at the points that are lent: the answer as one word, and every byte of the output.

#![tactic(auto)]

ghost use Rattle.std.specs.Prelude.{◌≡◌};
ghost use Rattle.board_spec.specs.Calls.{share_call, file_call, helper_call, exchange_call, finished_call, text_call};
ghost use Rattle.answer_word.specs.Answers.{word_of};
ghost use Rattle.archive_spec.specs.Archive.{sizes_of};

use sizes::Sizes;

// The share of board `node` of a file. Reports the number of bytes written.
pub fn share(
    n: usize,
    k: usize,
    d: usize,
    r: usize,
    points: &[u8],
    node: usize,
    file: &[u8],
    out: &mut [u8],
) -> u64
    ensures { (result ≡ word_of (share_call (sizes_of n k d r) points.now node file.now out.old).answer) × (out.new ≡ (share_call (sizes_of n k d r) points.now node file.now out.old).output) }
{
    let sizes = Sizes {
        n: n,
        k: k,
        d: d,
        r: r,
    };
    let xs = point_array::points_array(points);
    answer_word::word_of(board_share::share(sizes, xs, node, file, out))
}

// The file of so many bytes that k shares give, or DISAGREE where no such file has them. Reports the number of bytes written.
pub fn file(
    n: usize,
    k: usize,
    d: usize,
    r: usize,
    points: &[u8],
    len: usize,
    boards: &[usize],
    shares: &[u8],
    out: &mut [u8],
) -> u64
    ensures { (result ≡ word_of (file_call (sizes_of n k d r) points.now len boards.now shares.now out.old).answer) × (out.new ≡ (file_call (sizes_of n k d r) points.now len boards.now shares.now out.old).output) }
{
    let sizes = Sizes {
        n: n,
        k: k,
        d: d,
        r: r,
    };
    let xs = point_array::points_array(points);
    answer_word::word_of(board_file::file(sizes, xs, len, boards, shares, out))
}

// The helper packet that a board makes of its share of a file of so many bytes, for another board. Reports the number of bytes written.
pub fn helper_packet(
    n: usize,
    k: usize,
    d: usize,
    r: usize,
    points: &[u8],
    len: usize,
    helper: usize,
    receiver: usize,
    share: &[u8],
    out: &mut [u8],
) -> u64
    ensures { (result ≡ word_of (helper_call (sizes_of n k d r) points.now len helper receiver share.now out.old).answer) × (out.new ≡ (helper_call (sizes_of n k d r) points.now len helper receiver share.now out.old).output) }
{
    let sizes = Sizes {
        n: n,
        k: k,
        d: d,
        r: r,
    };
    let xs = point_array::points_array(points);
    answer_word::word_of(board_helper::helper_packet(sizes, xs, len, helper, receiver, share, out))
}

// The exchange packet that a board being rebuilt makes of its d helper packets, for another. Reports the number of bytes written.
pub fn exchange_packet(
    n: usize,
    k: usize,
    d: usize,
    r: usize,
    points: &[u8],
    len: usize,
    board: usize,
    helpers: &[usize],
    packets: &[u8],
    receiver: usize,
    out: &mut [u8],
) -> u64
    ensures { (result ≡ word_of (exchange_call (sizes_of n k d r) points.now len board helpers.now packets.now receiver out.old).answer) × (out.new ≡ (exchange_call (sizes_of n k d r) points.now len board helpers.now packets.now receiver out.old).output) }
{
    let sizes = Sizes {
        n: n,
        k: k,
        d: d,
        r: r,
    };
    let xs = point_array::points_array(points);
    answer_word::word_of(board_exchange::exchange_packet(
        sizes, xs, len, board, helpers, packets, receiver, out,
    ))
}

// The share of a board being rebuilt, of its d helper packets and its r - 1 partners' packets. Reports the number of bytes written.
pub fn finished_share(
    n: usize,
    k: usize,
    d: usize,
    r: usize,
    points: &[u8],
    len: usize,
    board: usize,
    helpers: &[usize],
    packets: &[u8],
    partners: &[usize],
    exchanges: &[u8],
    out: &mut [u8],
) -> u64
    ensures { (result ≡ word_of (finished_call (sizes_of n k d r) points.now len board helpers.now packets.now partners.now exchanges.now out.old).answer) × (out.new ≡ (finished_call (sizes_of n k d r) points.now len board helpers.now packets.now partners.now exchanges.now out.old).output) }
{
    let sizes = Sizes {
        n: n,
        k: k,
        d: d,
        r: r,
    };
    let xs = point_array::points_array(points);
    answer_word::word_of(board_finish::finished_share(
        sizes, xs, len, board, helpers, packets, partners, exchanges, out,
    ))
}

// A board's share of a file of so many bytes, as text. Reports the number of bytes written.
pub fn share_text(
    n: usize,
    k: usize,
    d: usize,
    r: usize,
    points: &[u8],
    len: usize,
    node: usize,
    share: &[u8],
    out: &mut [u8],
) -> u64
    ensures { (result ≡ word_of (text_call (sizes_of n k d r) points.now len node share.now out.old).answer) × (out.new ≡ (text_call (sizes_of n k d r) points.now len node share.now out.old).output) }
{
    let sizes = Sizes {
        n: n,
        k: k,
        d: d,
        r: r,
    };
    let xs = point_array::points_array(points);
    answer_word::word_of(board_text::text(sizes, xs, len, node, share, out))
}
