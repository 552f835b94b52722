//! Runs of `explain`, `draw`, `explore`, `compare` and `serialize`, each allocation refused in turn; and events that no line can have,
//! explained.

use crate::expecting::{MOST, at_least, expect_text, holds, made};
use crate::runs::ends;
use acta_args::ModelName;
use acta_compare::{Asked as AskedModels, Compared, compare_tool};
use acta_draw::{Choice, Drawing, Form, Screen, View, draw_tool};
use acta_explain::explain_tool;
use acta_io::{LineKind, Metered, NonBlankLine, Outcome, ReadFault, Watched};
use acta_lang::assemble;
use acta_models::Standard;
use acta_order::Orders;
use acta_programs::{Asked, Form as Ends, explore_tool};
use acta_prose::RunTrace;
use acta_serialize::{Asked as AskedOrder, serialize_tool};
use acta_table::{ClassId, Event, ObjId, Op, TxnId};
use refusing::Refusing;
use std::alloc::{Allocator, Global};
use std::process::Abort;
use std::thread::Threads;

// A command, on the model of recoverable transactions.
#[derive(Clone, Copy, PartialEq, Eq, Debug)]
enum Ask {
    Explain(LineKind),
    Draw(View),
    DrawSvg(View),
    Explore(Ends, Option<&'static str>),
    Serialize(Orders, u32),
    Compare(Compared, Standard),
}

// Runs a command on an input.
fn serve<R: Threads + Sync, B: Allocator + Send + Sync>(
    rt: &R,
    heap: &Refusing<B>,
    ask: Ask,
    input: &str,
    output: &mut Vec<u8>,
) -> Outcome {
    let model = Standard::Recoverable.text().as_bytes();
    let name = ModelName::Standard(Standard::Recoverable);
    let mut input = Metered::new(input.as_bytes());
    let mut output = Watched::new(output);
    let form = match ask {
        Ask::Explain(kind) => {
            return explain_tool(rt, heap, kind, name, model, &mut input, &mut output);
        }
        Ask::Explore(form, condition) => {
            let asked = Asked {
                form,
                condition,
                most: 1_000,
                model: name,
            };
            return explore_tool(heap, asked, model, &mut input, &mut output, &mut ());
        }
        Ask::Serialize(orders, most) => {
            let asked = AskedOrder {
                orders,
                most,
                model: name,
            };
            return serialize_tool(heap, asked, model, &mut input, &mut output);
        }
        Ask::Compare(compared, standard) => {
            let asked = AskedModels {
                compared,
                model: name,
                other: ModelName::Standard(standard),
            };
            let other = standard.text().as_bytes();
            return compare_tool(heap, asked, model, other, &mut input, &mut output, &mut ());
        }
        Ask::Draw(_) => Form::Text { width: Some(100) },
        Ask::DrawSvg(_) => Form::Svg,
    };
    let view = match ask {
        Ask::Draw(view) | Ask::DrawSvg(view) => view,
        _ => View::Lanes,
    };
    let choice = Choice {
        view,
        page: Some(1),
        is_reusing: true,
        ..Choice::ALL
    };
    let drawing = Drawing { form, choice };
    let screen = Screen::PLAIN;
    draw_tool(heap, &drawing, screen, model, &mut input, &mut output)
}

// Runs a command with its nth allocation refused: the output is the expected one, or nothing if memory ran out. Returns
// whether the command made that allocation.
fn refuse_one<R: Threads + Sync + Abort, B: Allocator + Send + Sync>(
    rt: &R,
    (heap, other): (&Refusing<B>, Global),
    (ask, input): (Ask, &str),
    (output_due, due): (&[u8], &str),
    nth: u64,
) -> bool {
    let mut output = Vec::new(other);
    heap.refuse(nth);
    let ended = serve(rt, heap, ask, input, &mut output);
    let was_refused = !heap.is_waiting();
    heap.refuse(0);
    if ended == Outcome::Unread(ReadFault::Memory) {
        holds(rt, was_refused && output.is_empty(), input);
    } else {
        expect_text(rt, output.as_slice(), output_due, input);
        ends(rt, Ok(ended), due, input);
    }
    was_refused
}

// Refuses each allocation of a run, at least this many, and compares the output with that of a run with all its memory.
fn refuse_run<R: Threads + Sync + Abort, B: Allocator + Send + Sync>(
    rt: &R,
    (heap, other): (&Refusing<B>, Global),
    (ask, input): (Ask, &str),
    (due, least): (&str, u64),
) {
    let mut output = Vec::new(other);
    serve(rt, heap, ask, input, &mut output);
    let output_due = (output.as_slice(), due);
    for nth in 1..MOST {
        if !refuse_one(rt, (heap, other), (ask, input), output_due, nth) {
            at_least(rt, nth.wrapping_sub(1), least, input);
            return;
        }
    }
    rt.panic("a run makes too many allocations")
}

// The last event is refused, since its transaction waits for another.
const EVENTS: &str = "\
begin 1 loose
begin 2 loose
do 1 x write 5
do 2 x read
commit 2
";

// A history that breaks an axiom.
const KEPT: &str = "\
begin 1 loose
do 1 x read = 9
";

// The second line is faulty.
const FAULTY: &str = "\
begin 1 loose
begn 2 loose
";

// The third line has an invalid seat.
const SEATED: &str = "\
1 begin 1 loose
2 begin 2 loose
x commit 1
";

// The second command is faulty.
const SCRIPT: &str = "\
begin 1 loose
do 1 x write 5
--
break object x
break txn
";

// Each of two transactions sees the other's work, so that each waits for the other to end.
const PROGRAMS: &str = "\
1 begin 1 loose
1 begin 2 loose
1 do 1 x write 5
1 do 2 n add 1
1 do 1 n get
1 do 2 x read
1 commit 1 | abort 1
2 commit 2
";

// The last line has an alternative without a word.
const FAULTY_PROGRAMS: &str = "\
1 begin 1 loose
1 commit 1 |
";

// A choice.
const CHOICE: &str = "\
1 begin 1 loose
1 do 1 n get | abort 1
";

#[test]
fn explored(rt: HostRuntime) {
    let heap = Refusing::new(rt.alloc());
    let ask = Ask::Explore(Ends::Words, None);
    refuse_run(&rt, (&heap, rt.alloc()), (ask, PROGRAMS), ("0", 50));
}

#[test]
fn explored_otherwise(rt: HostRuntime) {
    let heap = Refusing::new(rt.alloc());
    for (ask, due) in [
        (Ask::Explore(Ends::Lines, None), "0"),
        (Ask::Explore(Ends::Events(1), None), "0"),
        (Ask::Explore(Ends::Events(99), None), "1"),
        (Ask::Explore(Ends::Words, Some("not stuck and 2 = 0")), "0"),
        (Ask::Explore(Ends::Lines, Some("x = {1}")), "1"),
    ] {
        refuse_run(&rt, (&heap, rt.alloc()), (ask, CHOICE), (due, 20));
    }
    let ask = Ask::Explore(Ends::Words, None);
    refuse_run(&rt, (&heap, rt.alloc()), (ask, FAULTY_PROGRAMS), ("1", 20));
}

// Each of two transactions writes what the other has read.
const SKEW: &str = "\
begin 1 loose
begin 2 loose
do 1 x read = 0
do 2 n get = 0
do 1 n add 1 = done
do 2 x write 1 = done
commit 1
commit 2
";

// The order of the commits is no serial order.
const REREAD: &str = "\
begin 1 loose
do 1 s has 1 = no
begin 2 loose
do 2 s insert 1 = yes
commit 2
do 1 s size = 0
commit 1
";

#[test]
fn serialized(rt: HostRuntime) {
    let heap = Refusing::new(rt.alloc());
    for (orders, input, most, due) in [
        (Orders::All, SKEW, 100, "0"),
        (Orders::RealTime, SKEW, 100, "0"),
        (Orders::All, SKEW, 1, "1"),
        (Orders::All, REREAD, 100, "0"),
        (Orders::All, FAULTY, 100, "1"),
    ] {
        let ask = Ask::Serialize(orders, most);
        refuse_run(&rt, (&heap, rt.alloc()), (ask, input), (due, 20));
    }
}

#[test]
fn compared(rt: HostRuntime) {
    let heap = Refusing::new(rt.alloc());
    let ends = Compared::Ends(1_000);
    for (compared, standard, input, due) in [
        (Compared::Answers, Standard::Atomic, EVENTS, "0"),
        (Compared::Answers, Standard::Recoverable, EVENTS, "0"),
        (ends, Standard::Recoverable, CHOICE, "0"),
        (ends, Standard::Atomic, CHOICE, "1"),
        (Compared::Ends(1), Standard::Recoverable, CHOICE, "1"),
    ] {
        let ask = Ask::Compare(compared, standard);
        refuse_run(&rt, (&heap, rt.alloc()), (ask, input), (due, 20));
    }
}

#[test]
fn explained(rt: HostRuntime) {
    let heap = Refusing::new(rt.alloc());
    refuse_run(
        &rt,
        (&heap, rt.alloc()),
        (Ask::Explain(LineKind::Events), EVENTS),
        ("0", 50),
    );
}

#[test]
fn judged(rt: HostRuntime) {
    let heap = Refusing::new(rt.alloc());
    refuse_run(
        &rt,
        (&heap, rt.alloc()),
        (Ask::Explain(LineKind::Kept), KEPT),
        ("0", 20),
    );
    refuse_run(
        &rt,
        (&heap, rt.alloc()),
        (Ask::Explain(LineKind::Kept), FAULTY),
        ("1", 20),
    );
}

#[test]
fn seated(rt: HostRuntime) {
    let heap = Refusing::new(rt.alloc());
    let asked = (Ask::Explain(LineKind::Seated), SEATED);
    refuse_run(&rt, (&heap, rt.alloc()), asked, ("1", 20));
}

#[test]
fn scripted(rt: HostRuntime) {
    let heap = Refusing::new(rt.alloc());
    let asked = (Ask::Explain(LineKind::Script), SCRIPT);
    refuse_run(&rt, (&heap, rt.alloc()), asked, ("1", 20));
}

#[test]
fn faults(rt: HostRuntime) {
    let heap = Refusing::new(rt.alloc());
    refuse_run(
        &rt,
        (&heap, rt.alloc()),
        (Ask::Explain(LineKind::Events), FAULTY),
        ("1", 20),
    );
    refuse_run(
        &rt,
        (&heap, rt.alloc()),
        (Ask::Draw(View::Lanes), FAULTY),
        ("1", 20),
    );
}

#[test]
fn drawn(rt: HostRuntime) {
    let heap = Refusing::new(rt.alloc());
    let asked = (Ask::Draw(View::Lanes), EVENTS);
    refuse_run(&rt, (&heap, rt.alloc()), asked, ("0", 50));
}

#[test]
fn drawn_as_svg(rt: HostRuntime) {
    let heap = Refusing::new(rt.alloc());
    let asked = (Ask::DrawSvg(View::Lanes), EVENTS);
    refuse_run(&rt, (&heap, rt.alloc()), asked, ("0", 50));
}

#[test]
fn drawn_waits(rt: HostRuntime) {
    let heap = Refusing::new(rt.alloc());
    let view = View::Waits { at: Some(4) };
    refuse_run(
        &rt,
        (&heap, rt.alloc()),
        (Ask::Draw(view), EVENTS),
        ("0", 50),
    );
    refuse_run(
        &rt,
        (&heap, rt.alloc()),
        (Ask::DrawSvg(view), EVENTS),
        ("0", 50),
    );
}

// Explains an event of a class or an object that the model lacks, which no line can have.
fn explain_lacking(rt: &impl Abort, alloc: Global, event: Event<Global>, due: &str) {
    let model = made(rt, assemble(alloc, Standard::Atomic.text().as_bytes()), due);
    let mut run = made(rt, RunTrace::new(alloc, model), due);
    let (line, bytes) = (1, b"".as_slice());
    made(rt, run.take(NonBlankLine { line, bytes }, event), due);
    let reason = run.texts().first().map_or("", |text| text.reason.as_str());
    expect_text(rt, reason.as_bytes(), due.as_bytes(), due);
    drop(run);
}

#[test]
fn events_that_no_line_can_have(rt: HostRuntime) {
    explain_lacking(
        &rt,
        rt.alloc(),
        Event::Begin(TxnId(1), ClassId(200)),
        "BadClass: the model has no class at position 200.\nIt can never be admitted.",
    );
    explain_lacking(
        &rt,
        rt.alloc(),
        Event::Operate(TxnId(1), ObjId(200), Op::Read),
        "BadObject: the model has no object at position 200.\nIt can never be admitted.",
    );
}
