//! The sizes of the code, what a call answers, and the refusals with their numbers.

#![tactic(auto)]

ghost use Rattle.std.specs.Prelude.{◌≡◌};
ghost use Rattle.lists.specs.Tests.{pick};
ghost use Rattle.sizes.specs.Sizing.{legal, α, B, stripes};
ghost use Rattle.sizes.specs.Refusals.{number};

// Document 01's refusals and those of the requests, in the order of their numbers; 11 is not used, and is never given again.
#[derive(Clone, Copy, Debug, PartialEq, Eq)]
pub enum Refusal {
    Size,
    Area,
    Long,
    Count,
    Node,
    Repeat,
    Short,
    Empty,
    Down,
    Disagree,
    Text,
    Mixed,
    Serving,
    Range,
    Busy,
    Idle,
}

// n boards, k read, d helpers, r fresh boards.
#[derive(Clone, Copy)]
pub struct Sizes {
    pub n: usize,
    pub k: usize,
    pub d: usize,
    pub r: usize,
}

impl Refusal {
    // The number that document 01 gives the refusal.
    pub fn number(self) -> u8
        ensures { result ≡ number self }
    {
        match self {
            Refusal::Size => 1,
            Refusal::Area => 2,
            Refusal::Long => 3,
            Refusal::Count => 4,
            Refusal::Node => 5,
            Refusal::Repeat => 6,
            Refusal::Short => 7,
            Refusal::Empty => 8,
            Refusal::Down => 9,
            Refusal::Disagree => 10,
            Refusal::Text => 12,
            Refusal::Mixed => 13,
            Refusal::Serving => 14,
            Refusal::Range => 15,
            Refusal::Busy => 16,
            Refusal::Idle => 17,
        }
    }
}

impl Sizes {
    pub const MAX_BOARDS: usize = 32;

    pub const MAX_STRIPES: usize = 4096;

    // Whether 1 ≤ k ≤ d, r ≥ 1 and d + r ≤ n ≤ 32.
    pub fn legal(self) -> bool
        ensures { result ≡ legal self }
    {
        if self.k < 1 {
            return false;
        }
        if self.d < self.k {
            return false;
        }
        if self.r < 1 {
            return false;
        }
        if Sizes::MAX_BOARDS < self.n {
            return false;
        }
        if self.n < self.d {
            return false;
        }
        if self.n - self.d < self.r {
            return false;
        }
        true
    }

    // Bytes of a share for each stripe, α = 2d + r − 1; 0 where the sizes are not legal.
    pub fn share_len(self) -> usize
        ensures { result ≡ pick (legal self) (α self) 0 }
    {
        if self.legal() {
            2 * self.d + self.r - 1
        } else {
            0
        }
    }

    // File bytes of a stripe, B = k(2d + r − k); 0 where the sizes are not legal.
    pub fn stripe_len(self) -> usize
        ensures { result ≡ pick (legal self) (B self) 0 }
    {
        if self.legal() {
            self.k * (2 * self.d + self.r - self.k)
        } else {
            0
        }
    }
}
