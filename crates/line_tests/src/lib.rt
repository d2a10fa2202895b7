//! Tests on lists of board numbers and of points.

#![tactic(auto)]

ghost use Rattle.std.specs.Prelude.{◌≡◌, eqb, drop};
ghost use Rattle.lists.specs.Tests.{every, below, among, different, apart};

// Whether each board is below n.
pub fn below(n: usize, boards: &[usize]) -> bool
    ensures { result ≡ below n boards.now }
{
    for board in boards {
        if n <= *board {
            return false;
        }
    }
    true
}

// Whether board x stands at place `from` or after it.
pub fn among_from(boards: &[usize], from: usize, x: usize) -> bool
    ensures { result ≡ among (drop from boards.now) x }
{
    for i in from..boards.len() {
        if boards[i] == x {
            return true;
        }
    }
    false
}

// Whether no board stands twice.
pub fn different(boards: &[usize]) -> bool
    ensures { result ≡ different boards.now }
{
    for i in 0..boards.len() {
        if among_from(boards, i + 1, boards[i]) {
            return false;
        }
    }
    true
}

// Whether none of the named boards stands among the others.
pub fn apart(boards: &[usize], named: &[usize]) -> bool
    ensures { result ≡ apart boards.now named.now }
{
    for board in named {
        if among_from(boards, 0, *board) {
            return false;
        }
    }
    true
}

// Whether point x stands at place `from` or after it.
pub fn point_from(points: &[u8], from: usize, x: u8) -> bool
    ensures { result ≡ among (drop from points.now) x }
{
    for i in from..points.len() {
        if points[i] == x {
            return true;
        }
    }
    false
}

// Whether no point stands twice.
pub fn points_differ(points: &[u8]) -> bool
    ensures { result ≡ different points.now }
{
    for i in 0..points.len() {
        if point_from(points, i + 1, points[i]) {
            return false;
        }
    }
    true
}

// Whether each point at place `from` or after it is 00.
pub fn zero_from(points: &[u8], from: usize) -> bool
    ensures { result ≡ every (λ x. eqb x 0) (drop from points.now) }
{
    for i in from..points.len() {
        if points[i] != 0 {
            return false;
        }
    }
    true
}
