//! Ascending numbers in the first places of a table, as `candidates` keeps them.
ghost use Rattle.std.specs.Prelude.{◌≡◌, ◌+◌, ◌<◌, ◌≤◌, length, take};
ghost use Rattle.comm_routing.specs.Ascending.{with_place, without_place};

/// Puts a number among the first ones, which ascend, and returns how many they are then.
pub(crate) fn put_in(ready: &mut [u32], count: usize, op: u32) -> usize
    requires { count < length ready.old }
    ensures size { length ready.new ≡ length ready.old }
    ensures count { result ≡ count + 1 }
    ensures ready { take (count + 1) ready.new ≡ with_place op (take count ready.old) }
{
    let mut later = op;
    for place in 0..count {
        let here = ready[place];
        ready[place] = here.min(later);
        later = here.max(later);
    }
    ready[count] = later;
    count + 1
}

/// Takes a number out of the first ones, and returns how many are left.
pub(crate) fn take_out(ready: &mut [u32], count: usize, op: u32) -> usize
    requires { count ≤ length ready.old }
    ensures size { length ready.new ≡ length ready.old }
    ensures count { result ≤ count }
    ensures ready { take result ready.new ≡ without_place op (take count ready.old) }
{
    let mut left = 0;
    for place in 0..count {
        let other = ready[place];
        if other != op {
            ready[left] = other;
            left += 1;
        }
    }
    left
}
