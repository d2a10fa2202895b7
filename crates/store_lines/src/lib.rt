//! The checks of the store's lines, over its record, and the marks that its calls turn on. A check answers the refusal where its
//! line holds.

#![tactic(auto)]

ghost use Rattle.std.specs.Prelude.{◌≡◌, true, false, not, ◌++◌, ◌*◌, ltb, length, get_or, drop};
ghost use Rattle.lists.specs.Lists.{tabulate};
ghost use Rattle.lists.specs.Tests.{every, below};
ghost use Rattle.sizes.specs.declared.Refusal.TheVariants.{Long, Empty, Busy, Idle, Down};
ghost use Rattle.sizes.specs.Sizing.{legal, B};
ghost use Rattle.sizes.specs.Refusals.{◌when◌};
ghost use Rattle.board_spec.specs.Calls.{node_line};
ghost use Rattle.store_spec.specs.Record.{all_off, sound, turn_on};
ghost use Rattle.store_spec.specs.Calls.{record_line};
ghost use Rattle.line_checks.specs.Steps.{asked};
ghost use Rattle.record.specs.Records.{record_of};
ghost use Rattle.store_lines.specs.Steps.{Bounded};

use record::Kept;
use sizes::{Refusal, Sizes};

// Whether some mark at place `from` or after it is on.
pub fn some_on(marks: &[bool], from: usize) -> bool
    ensures { not result ≡ all_off (drop from marks.now) }
{
    for i in from..marks.len() {
        if marks[i] {
            return true;
        }
    }
    false
}

// Whether a record with legal sizes is one that calls return.
fn sound_in(kept: Kept) -> bool
    requires { legal kept.sizes ≡ true }
    ensures { result ≡ sound (record_of kept) }
{
    let sizes = kept.sizes;
    let points = kept.points;
    let marks = kept.marks;
    if !line_checks::points_taken(sizes, &points) {
        return false;
    }
    if kept.capacity < 1 {
        return false;
    }
    if Sizes::MAX_STRIPES < kept.capacity {
        return false;
    }
    if kept.capacity * sizes.stripe_len() < kept.length {
        return false;
    }
    if some_on(&marks, sizes.n) {
        return false;
    }
    if kept.written {
        return true;
    }
    if 0 < kept.length {
        return false;
    }
    if some_on(&marks, 0) {
        return false;
    }
    true
}

// 1 SIZE of a record.
pub fn check_record(kept: Kept) -> Result<(), Refusal>
    ensures { result ≡ asked (record_line (record_of kept)) }
{
    let sizes = kept.sizes;
    if sizes.legal() {
        if sound_in(kept) {
            return Ok(());
        }
    }
    Err(Refusal::Size)
}

// 3 LONG, the store.
pub fn check_fits(sizes: Sizes, capacity: usize, got: usize) -> Result<(), Refusal>
    requires { Bounded sizes capacity }
    ensures { result ≡ asked (Long when ltb (capacity * B sizes) got) }
{
    if capacity * sizes.stripe_len() < got {
        Err(Refusal::Long)
    } else {
        Ok(())
    }
}

// 5 NODE of two lists.
pub fn check_two_lists(sizes: Sizes, boards: &[usize], others: &[usize]) -> Result<(), Refusal>
    ensures { result ≡ asked (node_line sizes (boards.now ++ others.now)) }
{
    if line_tests::below(sizes.n, boards) {
        return board_lines::check_nodes(sizes, others);
    }
    Err(Refusal::Node)
}

// 8 EMPTY.
pub fn check_written(written: bool) -> Result<(), Refusal>
    ensures { result ≡ asked (Empty when not written) }
{
    if !written {
        return Err(Refusal::Empty);
    }
    Ok(())
}

// 16 BUSY.
pub fn check_busy(running: bool) -> Result<(), Refusal>
    ensures { result ≡ asked (Busy when running) }
{
    if running {
        return Err(Refusal::Busy);
    }
    Ok(())
}

// 17 IDLE.
pub fn check_idle(running: bool) -> Result<(), Refusal>
    ensures { result ≡ asked (Idle when not running) }
{
    if !running {
        return Err(Refusal::Idle);
    }
    Ok(())
}

// The mark of a board; off where it has none.
pub fn mark_of(marks: &[bool], board: usize) -> bool
    ensures { result ≡ get_or marks.now board false }
{
    if board < marks.len() {
        marks[board]
    } else {
        false
    }
}

// Whether each board is in service.
pub fn all_on(marks: &[bool], boards: &[usize]) -> bool
    ensures { result ≡ every (λ i. get_or marks.now i false) boards.now }
{
    for board in boards {
        if !mark_of(marks, *board) {
            return false;
        }
    }
    true
}

// 9 DOWN.
pub fn check_service(marks: &[bool], boards: &[usize]) -> Result<(), Refusal>
    ensures { result ≡ asked (Down when not (every (λ i. get_or marks.now i false) boards.now)) }
{
    if all_on(marks, boards) {
        Ok(())
    } else {
        Err(Refusal::Down)
    }
}

// The marks of the first n boards on, the others off.
pub fn first_on(n: usize) -> [bool; 32]
    ensures { result ≡ tabulate 32 (λ i. ltb i n) }
{
    let mut marks = [false; 32];
    turn_on(n, &mut marks);
    marks
}

// Each mark by its board's number.
fn turn_on(n: usize, marks: &mut [bool])
    ensures { marks.new ≡ tabulate (length marks.old) (λ i. ltb i n) }
{
    for i in 0..marks.len() {
        marks[i] = i < n;
    }
}

// The marks of these boards go on.
pub fn marks_on(boards: &[usize], marks: &mut [bool])
    requires { below (length marks.old) boards.now ≡ true }
    ensures { marks.new ≡ turn_on boards.now marks.old }
{
    for board in boards {
        marks[*board] = true;
    }
}
