ghost use Rattle.std.specs.Prelude.{◌≡◌, ◌<◌, ◌^◌, length, IfOk};
ghost use Rattle.acta_objects.specs.Objects.{first_state, state_after, returns_of};

use crate::state::ObjectState;
use acta_table::{Items, Kind, Op, Ret};
use std::alloc::{AllocError, Allocator};

/// The result of a list of operations: the final value, and the returns in order.
#[derive(Drop)]
pub struct Replayed<A: Allocator> {
    pub state: ObjectState<A>,
    pub rets: Items<Ret, A>,
}

/// Does the operations in order, from the kind's initial value. With fewer than 2^31 operations a counter cannot
/// overflow 64 bits, so callers need no other bound.
pub fn replay<A: Allocator + Copy>(
    alloc: A,
    kind: &Kind,
    ops: &[Op],
) -> Result<Replayed<A>, AllocError>
    requires { length ops.now < 2 ^ 31 }
    ensures state { IfOk result (λ r. r.state ≡ state_after (first_state {A = A} kind.now) ops.now) }
    ensures rets { IfOk result (λ r. r.rets ≡ returns_of (first_state {A = A} kind.now) ops.now) }
{
    let mut state = ObjectState::new(alloc, kind);
    let mut rets = Vec::with_capacity(alloc, ops.len())?;
    for op in ops {
        rets.push(state.apply(op)?)?;
    }
    Ok(Replayed {
        state,
        rets: Items::of(rets),
    })
}
