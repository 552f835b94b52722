ghost use Rattle.std.specs.Prelude.{◌≡◌, ◌≤◌, ℕ, [], get_or, length, map, IfOk};
ghost use Rattle.acta_axioms.specs.Serial.{group_of};
ghost use Rattle.acta_order.specs.Search.{item_of};

use crate::item::Item;
use acta_axioms::{Groups, Handle, Walk};
use acta_table::{Event, Fate, Kept, MOST_EVENTS, Model, OpNo};
use std::alloc::{AllocError, Allocator};

// A walk at the end of the list.
fn walked<'a, A: Handle>(
    alloc: A,
    model: &'a Model<A>,
    kept: &'a [Kept<A>],
) -> Result<Walk<'a, A>, AllocError>
    requires { length kept.now ≤ MOST_EVENTS }
    ensures { IfOk result (λ walk. walk ≡ record { model = model.now; front = kept.now; ahead = [] }) }
{
    let mut walk = Walk::of(alloc, model, kept)?;
    for _ in 0..kept.len() {
        walk.step()?;
    }
    Ok(walk)
}

// The committed operations that a walk has passed, by their last holders.
fn gathered<A: Handle>(alloc: A, walk: &Walk<'_, A>) -> Result<Groups<Item, A>, AllocError>
    ensures { IfOk result (λ groups. (t : ℕ) → get_or groups t [] ≡ map item_of (group_of walk.now.model walk.now.front t)) }
{
    let kept = walk.front();
    let held = walk.operations();
    let mut groups = Groups::new(alloc);
    let mut number = 0usize;
    for k in kept {
        if let Event::Operate(_, ob, op) = &k.event {
            if let Some(found) = held.get(number) {
                if let Fate::Committed = found.fate {
                    groups.put(
                        found.holder,
                        Item {
                            number: OpNo(number as u32 + 1),
                            ob: *ob,
                            op: *op,
                            ret: k.ret,
                        },
                    )?;
                }
            }
            number += 1;
        }
    }
    Ok(groups)
}

/// The groups of a history: its committed operations, by their last holders.
pub(crate) fn grouped<A: Handle>(
    alloc: A,
    model: &Model<A>,
    kept: &[Kept<A>],
) -> Result<Groups<Item, A>, AllocError>
    requires { length kept.now ≤ MOST_EVENTS }
    ensures { IfOk result (λ groups. (t : ℕ) → get_or groups t [] ≡ map item_of (group_of model.now kept.now t)) }
{
    let walk = walked(alloc, model, kept)?;
    gathered(alloc, &walk)
}
