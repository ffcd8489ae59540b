//! The checks with what they say of a well-formed program, which callers of the crate ask for.
ghost use Rattle.std.specs.Prelude.{◌≡◌, ℕ, ◌<◌, Some, slice_get, true};
ghost use Rattle.executive_program.specs.declared.Vertex.{Vertex};
ghost use Rattle.executive_program.specs.MicroSteps.{transfers};
ghost use Rattle.executive_program.specs.Places.{carried, places, transfer};
ghost use Rattle.executive_program.specs.WellFormed.{IsCalled, IsTransfer};
ghost use Rattle.order_check.specs.Calls.{are_called};
ghost use Rattle.order_check.specs.Carries.{are_kept};
ghost use Rattle.order_check.specs.Transfers.{are_transfers};

use crate::calling::are_called;
use crate::carrying::are_kept;
use crate::transferring::are_transfers;
use executive_program::{Flat, Program};

/// Whether each operation is called once, in a computation sequence, on buffers that carry its guards'
/// sources and its inputs, into buffers that carry its outputs; and the get half of a delay before its
/// set half in one sequence.
pub fn operations_are_called(program: &Program, flat: &Flat, order: &[u32]) -> bool
    ensures test { result ≡ are_called program.now flat.now.vertices }
    ensures sound { result ≡ true → (v : ℕ) (x : Vertex) → slice_get flat.now.vertices v ≡ Some x →
        IsCalled program.now order.now (places program.now) (carried program.now) flat.now v x }
    ensures complete { ((v : ℕ) (x : Vertex) → slice_get flat.now.vertices v ≡ Some x →
        IsCalled program.now order.now (places program.now) (carried program.now) flat.now v x) →
        result ≡ true }
{
    are_called(program, flat.vertices())
}

/// Whether each transfer of this many media has its send, its receive and the waits of the other
/// communicators, in this order and before the next send, and receives into a buffer as long as the one
/// that is sent.
pub fn transfers_are_right(program: &Program, order: &[u32], media: usize) -> bool
    ensures test { result ≡ are_transfers program.now order.now media }
    ensures sound { result ≡ true → (m t : ℕ) → m < media → t < transfers program.now m →
        IsTransfer program.now order.now (places program.now) m t }
    ensures complete { ((m t : ℕ) → m < media → t < transfers program.now m →
        IsTransfer program.now order.now (places program.now) m t) → result ≡ true }
{
    are_transfers(program, order, media)
}

/// Whether each received buffer carries what the sent one does, in each transfer of this many media.
pub fn transfers_keep_sources(program: &Program, media: usize) -> bool
    ensures test { result ≡ are_kept program.now media }
    ensures sound { result ≡ true → (m t : ℕ) → m < media → t < transfers program.now m →
        carried program.now (transfer program.now m t).received ≡
        carried program.now (transfer program.now m t).sent }
    ensures complete { ((m t : ℕ) → m < media → t < transfers program.now m →
        carried program.now (transfer program.now m t).received ≡
        carried program.now (transfer program.now m t).sent) → result ≡ true }
{
    are_kept(program, media)
}
