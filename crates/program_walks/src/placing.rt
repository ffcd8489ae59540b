//! The places of instructions in a serial order.
ghost use Rattle.std.specs.Prelude.{◌≡◌, nat_eq};
ghost use Rattle.std.specs.List.{count_by};
ghost use Rattle.executive_program.specs.WellFormed.{place_in};

/// The place in an order, which names a sequence at each place, at which the instruction stands that has
/// this many others of its sequence before it. It is the order's length where there is none.
pub fn place_in(order: &[u32], sequence: usize, at: usize) -> usize
    ensures { result ≡ place_in order.now sequence at }
{
    let mut left = at;
    for (place, entry) in order.iter().enumerate() {
        if *entry as usize == sequence {
            if left == 0 {
                return place;
            }
            left -= 1;
        }
    }
    order.len()
}

/// How often an order names a sequence.
pub fn count_in(order: &[u32], sequence: usize) -> usize
    ensures { result ≡ count_by (λ t. nat_eq t sequence) order.now }
{
    order
        .iter()
        .filter(|entry| **entry as usize == sequence)
        .count()
}
