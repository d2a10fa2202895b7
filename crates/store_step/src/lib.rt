//! The work of a step of a started repair (request A.8): packets are carried on from where it stands, and with the last of them the fresh boards get
//! their shares and come into service.

#![tactic(auto)]

ghost use Rattle.std.specs.Prelude.{◌≡◌, ◌+◌, ◌≤◌, length, Ok};
ghost use Rattle.sizes.specs.Refusals.{first, store_order};
ghost use Rattle.store_spec.specs.Record.{with_marks, turn_on, put_shares};
ghost use Rattle.beside_spec.specs.Running.{packet_count};
ghost use Rattle.beside_spec.specs.Lying.{share_lying, carry};
ghost use Rattle.beside_spec.specs.Both.{step_lines, step_done};
ghost use Rattle.record.specs.Records.{record_of, running_in};
ghost use Rattle.store_step.specs.Steps.{Going, Listing, left_by};

use record::{Kept, Running};

// What a step leaves: both records, and how many packets it carried.
#[derive(Clone, Copy)]
pub struct Stepped {
    pub record: Kept,
    pub running: Running,
    pub count: usize,
}

// Carries so many packets, from one on.
fn carry_on(
    kept: Kept,
    fresh: &[usize],
    helpers: &[usize],
    standins: &[usize],
    area: &[u8],
    from: usize,
    count: usize,
    packets: &mut [u8],
)
    requires { Going (record_of kept) fresh.now helpers.now standins.now area.now packets.old × (from + count ≤ packet_count kept.sizes (length fresh.now)) }
    ensures { packets.new ≡ carry (record_of kept) fresh.now helpers.now standins.now area.now from count packets.old }
{
    let sizes = kept.sizes;
    let points = kept.points;
    let stripes = board_lines::stripe_count(sizes, kept.length);
    step_packet::carry_packets(
        sizes,
        &points,
        kept.capacity,
        stripes,
        fresh,
        helpers,
        standins,
        area,
        from,
        count,
        packets,
    );
}

// The fresh boards get their shares, of the packets that lie there, and come into service.
fn finish(
    kept: Kept,
    fresh: &[usize],
    helpers: &[usize],
    standins: &[usize],
    packets: &[u8],
    area: &mut [u8],
) -> Kept
    requires { Going (record_of kept) fresh.now helpers.now standins.now area.old packets.now }
    ensures result_value { record_of result ≡ with_marks (record_of kept) (turn_on fresh.now kept.marks) }
    ensures area_after { area.new ≡ put_shares (record_of kept) (share_lying (record_of kept) fresh.now helpers.now standins.now packets.now) fresh.now area.old }
{
    let sizes = kept.sizes;
    let points = kept.points;
    let mut marks = kept.marks;
    let stripes = board_lines::stripe_count(sizes, kept.length);
    step_finish::finish_shares(
        sizes,
        &points,
        kept.capacity,
        stripes,
        fresh,
        helpers,
        standins,
        packets,
        area,
    );
    store_lines::marks_on(fresh, &mut marks);
    let mut next = kept;
    next.marks = marks;
    next
}

// A step of the repair by these lists.
fn step_by(
    kept: Kept,
    running: Running,
    fresh: &[usize],
    helpers: &[usize],
    standins: &[usize],
    area: &mut [u8],
    packets: &mut [u8],
    allowance: usize,
) -> Stepped
    requires { Going (record_of kept) fresh.now helpers.now standins.now area.old packets.old × Listing (record_of kept) (running_in running) fresh.now helpers.now standins.now }
    ensures { left_by result area.new packets.new ≡ step_done (record_of kept) (running_in running) area.old packets.old allowance }
{
    let sizes = kept.sizes;
    let from = running.carried;
    let left = fresh.len() * (sizes.d + sizes.r - 1) - from;
    if allowance < left {
        carry_on(
            kept, fresh, helpers, standins, area, from, allowance, packets,
        );
        let mut next = running;
        next.carried = from + allowance;
        return Stepped {
            record: kept,
            running: next,
            count: allowance,
        };
    }
    carry_on(kept, fresh, helpers, standins, area, from, left, packets);
    let last = finish(kept, fresh, helpers, standins, packets, area);
    let idle = record::idle();
    Stepped {
        record: last,
        running: idle,
        count: left,
    }
}

// A step that passed its checks.
pub fn step(
    kept: Kept,
    running: Running,
    area: &mut [u8],
    packets: &mut [u8],
    allowance: usize,
) -> Stepped
    requires { first store_order (step_lines (record_of kept) (running_in running) (length area.old) (length packets.old)) ≡ Ok tt }
    ensures { left_by result area.new packets.new ≡ step_done (record_of kept) (running_in running) area.old packets.old allowance }
{
    let fresh = running.fresh;
    let helpers = running.helpers;
    let standins = running.stand_ins;
    let mut a = [0usize; 32];
    let mut b = [0usize; 256];
    let mut c = [0usize; 256];
    running_lists::boards_of(&fresh, &mut a);
    running_lists::boards_of(&helpers, &mut b);
    running_lists::boards_of(&standins, &mut c);
    let t = running.count;
    let h = t * kept.sizes.d;
    let e = t * (kept.sizes.r - t);
    step_by(
        kept,
        running,
        &a[..t],
        &b[..h],
        &c[..e],
        area,
        packets,
        allowance,
    )
}
