//! Round trip: reading a written line gives the same event or item. The calls only look at an event for its types'
//! invariants, that numbers are in range and operations ascend; the contracts follow from these.

ghost use Rattle.std.specs.Prelude.{◌≡◌, ◌≤◌, nat_le, true, IfSome};
ghost use Rattle.std.specs.List.{list_all};
ghost use Rattle.std.specs.List.Sorted.{IsStrictlySortedBy};
ghost use Rattle.std.specs.Ordering.{nat_cmp};
ghost use Rattle.acta_table.specs.Sets.{numbers_of};
ghost use Rattle.acta_script.specs.Laws.{IsInModel};
ghost use Rattle.acta_script.specs.inside.Again.{IsReadAgain, IsKeptAgain};
ghost use Rattle.acta_script.specs.inside.Ranges.{IsWithin, integer_of, HasRanges, HasRange};

use acta_table::{Event, Kept, Model, Op, OpNo, OpSet, Ret, TxnId};
use std::alloc::Allocator;

fn txn_range(txn: TxnId)
    ensures { txn.0 ≤ 0xffff }
{
    let _number = txn.0;
}

fn op_range(op: Op)
    ensures { IfSome (integer_of op) (IsWithin 0x8000_0000) }
{
    match op {
        Op::Write(_number)
        | Op::Add(_number)
        | Op::Insert(_number)
        | Op::Remove(_number)
        | Op::Has(_number) => (),
        Op::Read | Op::Get | Op::Size => (),
    }
}

fn op_number_range(op: OpNo)
    ensures { op.0 ≤ 0xffff_ffff }
{
    let _number = op.0;
}

fn op_set_ranges<A: Allocator>(ops: &OpSet<A>)
    ensures operations { list_all (λ o. nat_le o.0 0xffff_ffff) ops.now ≡ true }
    ensures ascending { IsStrictlySortedBy nat_cmp (numbers_of ops.now) }
{
    for op in ops.as_slice() {
        op_number_range(*op);
    }
}

// The numbers of an event are in range, and its operations ascend.
#[tactic(auto, using(crate::proofs::Ascending::none_sorted))]
fn event_ranges<A: Allocator>(event: &Event<A>)
    ensures { HasRanges event.now }
{
    match event {
        Event::Begin(t, _) => txn_range(*t),
        Event::Spawn(t, u, _) => {
            txn_range(*t);
            txn_range(*u);
        }
        Event::Split(t, u, _, ops) => {
            txn_range(*t);
            txn_range(*u);
            op_set_ranges(ops);
        }
        Event::Join(t, u) => {
            txn_range(*t);
            txn_range(*u);
        }
        Event::Delegate(t, u, ops) => {
            txn_range(*t);
            txn_range(*u);
            op_set_ranges(ops);
        }
        Event::Form(_, t, u) => {
            txn_range(*t);
            txn_range(*u);
        }
        Event::Operate(t, _, op) => {
            txn_range(*t);
            op_range(*op);
        }
        Event::Commit(t) => txn_range(*t),
        Event::Abort(t) => txn_range(*t),
        Event::Permit(t, u, _) => {
            txn_range(*t);
            txn_range(*u);
        }
    }
}

// The number of a return is in range.
fn return_range(ret: Option<Ret>)
    ensures { IfSome ret HasRange }
{
    match ret {
        Some(Ret::Value(_value)) => (),
        _ => (),
    }
}

/// Reading the written event gives the same event. Allocates nothing.
#[tactic(auto, using(crate::proofs::Again::event_line_again))]
pub(crate) fn event_again<A: Allocator>(model: &Model<A>, event: &Event<A>)
    ensures { IsInModel model.now event.now → IsReadAgain model.now event.now }
{
    model.classes();
    event_ranges(event);
}

/// Reading the written kept item gives the same item. Allocates nothing.
#[tactic(auto, using(crate::proofs::Again::kept_line_again))]
pub(crate) fn kept_again<A: Allocator>(model: &Model<A>, kept: &Kept<A>)
    ensures { IsInModel model.now kept.now.event → IsKeptAgain model.now kept.now }
{
    model.classes();
    event_ranges(&kept.event);
    return_range(kept.ret);
}
