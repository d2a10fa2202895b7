//! Document 01, the store: its record, and the calls as methods by value. Each takes the record of a started repair beside it (request A.8), hands on
//! both records with its answer, and meets its definition in the crate `store_spec`, for all input: the answer, the records, and every lent byte.

#![tactic(auto)]

ghost use Rattle.std.specs.Prelude.{◌≡◌, List, [], ℕ};
ghost use Rattle.beside_spec.specs.Both.{set_up_both, write_both, lose_both, repair_both, read_both, careful_both, edit_both, move_both, start_call, step_call};
ghost use Rattle.record.specs.Records.{running_in};
ghost use Rattle.store_work.specs.Handing.{turned_down};
ghost use Rattle.store.specs.Handing.{record_in, outcome_both};

use record::{Kept, Running};
use sizes::{Refusal, Sizes};

// A store is its record: the sizes, a point for each board, the capacity in stripes, whether a file was accepted, its length, and a mark for each
// board: in service or not.
#[derive(Clone, Copy)]
pub struct Store {
    pub record: Kept,
}

// What a call hands on: both records after it, and its answer.
#[derive(Clone, Copy)]
pub struct Handed {
    pub store: Store,
    pub running: Running,
    pub answer: Result<usize, Refusal>,
}

// A refused call hands both records back as they came.
fn refuse(kept: Store, running: Running, x: Refusal) -> Handed
    ensures { (area output packets : List ℕ) → outcome_both result area output packets ≡ turned_down (record_in kept) (running_in running) area output packets x }
{
    let answer = Err(x);
    Handed {
        store: kept,
        running: running,
        answer: answer,
    }
}

impl Store {
    // A store of these sizes, these points and this capacity, with no file and no repair. The records that it is handed are not examined.
    pub fn set_up(self, running: Running, sizes: Sizes, points: [u8; 32], capacity: usize) -> Handed
        ensures { outcome_both result [] [] [] ≡ set_up_both (record_in self) (running_in running) sizes points capacity }
    {
        if let Err(x) = check_set_up_lose::check_set_up(sizes, points, capacity) {
            return refuse(self, running, x);
        }
        let next = record::new_kept(sizes, points, capacity);
        let idle = record::idle();
        Handed {
            store: Store { record: next },
            running: idle,
            answer: Ok(0),
        }
    }

    // Writes a file: each board gets its share, and all n come into service.
    pub fn write(self, running: Running, area: &mut [u8], file: &[u8]) -> Handed
        ensures { outcome_both result area.new [] [] ≡ write_both (record_in self) (running_in running) area.old file.now }
    {
        let kept = self.record;
        if let Err(x) = check_write::check_write(kept, running, area.len(), file) {
            return refuse(self, running, x);
        }
        let sizes = kept.sizes;
        let points = kept.points;
        let count = board_lines::stripe_count(sizes, file.len());
        store_write::write_shares(sizes, kept.capacity, &points, file, count, area);
        let marks = store_lines::first_on(sizes.n);
        let mut next = kept;
        next.written = true;
        next.length = file.len();
        next.marks = marks;
        Handed {
            store: Store { record: next },
            running: running,
            answer: Ok(0),
        }
    }

    // Takes a board out of service. A started repair that names it ends.
    pub fn lose(self, running: Running, board: usize) -> Handed
        ensures { (area : List ℕ) → outcome_both result area [] [] ≡ lose_both (record_in self) (running_in running) area board }
    {
        let kept = self.record;
        if let Err(x) = check_set_up_lose::check_lose(kept, running, board) {
            return refuse(self, running, x);
        }
        let beside = running_lists::lost_beside(kept, running, board);
        let mut next = kept;
        next.marks[board] = false;
        Handed {
            store: Store { record: next },
            running: beside,
            answer: Ok(0),
        }
    }

    // Rebuilds one to r fresh boards together, t of them, each from its own run of d helpers and its own run of r − t stand-ins, and puts them in
    // service. Answers the bytes that are moved.
    pub fn repair(
        self,
        running: Running,
        area: &mut [u8],
        fresh: &[usize],
        helpers: &[usize],
        standins: &[usize],
    ) -> Handed
        ensures { outcome_both result area.new [] [] ≡ repair_both (record_in self) (running_in running) area.old fresh.now helpers.now standins.now }
    {
        let kept = self.record;
        if let Err(x) = check_repair::check_repair(
            kept,
            running,
            area.len(),
            fresh,
            helpers,
            standins,
        ) {
            return refuse(self, running, x);
        }
        let moved = store_work::rebuild(kept, fresh, helpers, standins, area);
        let mut marks = kept.marks;
        store_lines::marks_on(fresh, &mut marks);
        let mut next = kept;
        next.marks = marks;
        Handed {
            store: Store { record: next },
            running: running,
            answer: Ok(moved),
        }
    }

    // Reads the file from k boards: it goes to the beginning of the output, the rest of which stays.
    pub fn read(self, running: Running, area: &[u8], boards: &[usize], out: &mut [u8]) -> Handed
        ensures { outcome_both result area.now out.new [] ≡ read_both (record_in self) (running_in running) area.now boards.now out.old }
    {
        let kept = self.record;
        if let Err(x) = check_read::check_read(kept, running, area.len(), boards, out) {
            return refuse(self, running, x);
        }
        let mut tables = [0u8; 49152];
        store_work::fill_tables(kept, boards, &mut tables);
        if let Err(disagree) = store_work::check_agrees(kept, boards, area, &tables) {
            return refuse(self, running, disagree);
        }
        store_work::read_file(kept, boards, area, &tables, out);
        Handed {
            store: self,
            running: running,
            answer: Ok(0),
        }
    }

    // Reads the file from k + 2 boards, of which one may hold wrong bytes: the file whose shares all of them hold, or all but one, goes to the
    // beginning of the output. Answers 0, or the number of the odd board plus 1.
    pub fn read_careful(
        self,
        running: Running,
        area: &[u8],
        boards: &[usize],
        out: &mut [u8],
    ) -> Handed
        ensures { outcome_both result area.now out.new [] ≡ careful_both (record_in self) (running_in running) area.now boards.now out.old }
    {
        let kept = self.record;
        if let Err(x) = check_careful::check_careful(kept, running, area.len(), boards, out) {
            return refuse(self, running, x);
        }
        let tried = careful_tries::read_file(kept, boards, area, out);
        if !tried.found {
            return refuse(self, running, Refusal::Disagree);
        }
        Handed {
            store: self,
            running: running,
            answer: Ok(tried.odd),
        }
    }

    // Puts bytes into the file from an offset on, in all boards in service: each gets the exclusive or of its share with the share of old against
    // new bytes. The file is read from k boards.
    pub fn edit(
        self,
        running: Running,
        area: &mut [u8],
        offset: usize,
        bytes: &[u8],
        boards: &[usize],
    ) -> Handed
        ensures { outcome_both result area.new [] [] ≡ edit_both (record_in self) (running_in running) area.old offset bytes.now boards.now }
    {
        let kept = self.record;
        if let Err(x) = check_edit::check_edit(
            kept,
            running,
            area.len(),
            offset,
            bytes.len(),
            boards,
        ) {
            return refuse(self, running, x);
        }
        let mut tables = [0u8; 49152];
        store_work::fill_tables(kept, boards, &mut tables);
        if let Err(disagree) = store_work::check_agrees(kept, boards, area, &tables) {
            return refuse(self, running, disagree);
        }
        store_work::edit_boards(kept, offset, bytes, boards, &tables, area);
        Handed {
            store: self,
            running: running,
            answer: Ok(0),
        }
    }

    // Moves a board to a new point: every other board works out its kept values afresh, and the board gets the share that the packets of its d
    // helpers and its r − 1 partners give there. Answers the bytes that are moved.
    pub fn move_board(
        self,
        running: Running,
        area: &mut [u8],
        board: usize,
        point: u8,
        helpers: &[usize],
        partners: &[usize],
    ) -> Handed
        ensures { outcome_both result area.new [] [] ≡ move_both (record_in self) (running_in running) area.old board point helpers.now partners.now }
    {
        let kept = self.record;
        if let Err(x) = check_move::check_move(
            kept,
            running,
            area.len(),
            board,
            point,
            helpers,
            partners,
        ) {
            return refuse(self, running, x);
        }
        let moved = store_work::move_one(kept, board, point, helpers, partners, area);
        let mut next = kept;
        next.points[board] = point;
        Handed {
            store: Store { record: next },
            running: running,
            answer: Ok(moved),
        }
    }

    // Starts a repair, by the lists of a repair, of which no packet is carried yet.
    pub fn start(
        self,
        running: Running,
        area: &[u8],
        fresh: &[usize],
        helpers: &[usize],
        standins: &[usize],
    ) -> Handed
        ensures { outcome_both result area.now [] [] ≡ start_call (record_in self) (running_in running) area.now fresh.now helpers.now standins.now }
    {
        let kept = self.record;
        if let Err(x) = check_repair::check_repair(
            kept,
            running,
            area.len(),
            fresh,
            helpers,
            standins,
        ) {
            return refuse(self, running, x);
        }
        let next = running_lists::started(fresh, helpers, standins);
        Handed {
            store: self,
            running: next,
            answer: Ok(0),
        }
    }

    // Carries at most so many packets of a started repair, each to its place in the packet area. With the last the fresh boards get their shares and
    // come into service. Answers the packets that it carried.
    pub fn step(
        self,
        running: Running,
        area: &mut [u8],
        packets: &mut [u8],
        allowance: usize,
    ) -> Handed
        ensures { outcome_both result area.new [] packets.new ≡ step_call (record_in self) (running_in running) area.old packets.old allowance }
    {
        let kept = self.record;
        if let Err(x) = check_step::check_step(kept, running, area.len(), packets.len()) {
            return refuse(self, running, x);
        }
        let stepped = store_step::step(kept, running, area, packets, allowance);
        let next = stepped.record;
        let after = stepped.running;
        Handed {
            store: Store { record: next },
            running: after,
            answer: Ok(stepped.count),
        }
    }
}
