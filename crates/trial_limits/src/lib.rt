//! Request A.2: which numbers of a trial load are taken: a store that is set up, and the limits.

#![tactic(auto)]

ghost use Rattle.std.specs.Prelude.{◌≡◌, ◌*◌};
ghost use Rattle.sizes.specs.Sizing.{α};
ghost use Rattle.store_lines.specs.Steps.{Bounded};
ghost use Rattle.trial_spec.specs.Trial.{taken};
ghost use Rattle.trial_limits.specs.Steps.{numbers_in, set_up};

use sizes::Sizes;

// The numbers of the eight lines; one above 4,294,967,295 is held as one more than that.
#[derive(Clone, Copy)]
pub struct Numbers {
    pub sizes: Sizes,
    pub capacity: usize,
    pub seed: usize,
    pub length: usize,
    pub calls: usize,
}

// The bytes of the area of a store of these sizes and this capacity.
pub fn area_len(sizes: Sizes, capacity: usize) -> usize
    requires { Bounded sizes capacity }
    ensures { result ≡ sizes.n * (capacity * α sizes) }
{
    sizes.n * (capacity * sizes.share_len())
}

// Whether a store of these sizes and this capacity is set up, and its area has at most 32,768 bytes.
fn set_up(sizes: Sizes, capacity: usize) -> bool
    ensures { result ≡ set_up sizes capacity }
{
    let points = board_lines::standard_points(sizes);
    check_set_up_lose::check_set_up(sizes, points, capacity).is_ok()
        && area_len(sizes, capacity) <= 32768
}

// Whether these numbers are taken.
pub fn within(numbers: Numbers) -> bool
    ensures { result ≡ taken (numbers_in numbers) }
{
    if 4294967295 < numbers.seed {
        return false;
    }
    if 4294967295 < numbers.calls {
        return false;
    }
    if 16384 < numbers.length {
        return false;
    }
    let sizes = numbers.sizes;
    set_up(sizes, numbers.capacity)
}
