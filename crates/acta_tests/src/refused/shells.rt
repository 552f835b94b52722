//! Lines of a session that are read, each allocation refused in turn.

use crate::expecting::made;
use crate::models::model_of;
use crate::refused::{Setting, asked_and_answer, at_least, refuse};
use crate::shown::put;
use acta_models::Standard;
use acta_script::{ShellFault, ShellLine, read_shell_line};
use acta_table::Model;
use refusing::{Case, Refusing};
use std::alloc::Allocator;
use std::process::Abort;

// A line that is read on a model.
#[derive(Drop)]
struct Reading<'a, 's, R, A: Allocator> {
    on: &'a Setting<'s, R, A>,
    model: &'a Model<A>,
    line: &'a str,
}

impl<'a, 's, R: Abort, A: Allocator + Copy> Case for Reading<'a, 's, R, A> {
    type State = ();

    type Answer = String;

    fn start(&self) {}

    fn call(&self, _state: &mut ()) -> Option<String> {
        let mut text = String::new(self.on.other);
        let rt = self.on.rt;
        match read_shell_line(self.on.alloc, self.model, self.line.as_bytes()) {
            Ok(ShellLine::Event(event)) => put(rt, &mut text, &event.kind()),
            Ok(ShellLine::Can(event)) => put(rt, &mut text, &Some(event.kind())),
            Ok(ShellLine::Command(command)) => put(rt, &mut text, &command),
            Err(ShellFault::Wrong(found)) => put(rt, &mut text, &found.place),
            Err(ShellFault::Memory) => return None,
        }
        Some(text)
    }

    fn describe(&self, answer: &String, _state: &()) -> String {
        made(
            self.on.rt,
            String::from_str(self.on.other, answer.as_str()),
            "a text",
        )
    }

    fn read(&self, _state: &()) -> String {
        String::new(self.on.other)
    }
}

const LINES: &str = "\
delegate 1 2 3,4 -- Delegate
can split 1 2 part 3 -- Some(Split)
undo -- Undo(1)
redo 4 -- Redo(4)
edges -- Edges(None)
edges 3 -- Edges(Some(TxnId(3)))
help can -- Help(Some(Can))
goto -- Missing(1)
can commit x -- Wrong(2)
comit 2 -- Wrong(0)";

// A line that is read, each allocation refused. Returns how many were.
fn refuse_line<'a, 's, R: Abort, A: Allocator + Copy, B: Allocator>(
    on: &'a Setting<'s, R, A>,
    heap: &Refusing<B>,
    model: &'a Model<A>,
    line: &'a str,
    due: &str,
) -> u64 {
    refuse(on.rt, heap, &Reading { on, model, line }, due)
}

fn refuse_lines<R: Abort, A: Allocator + Copy, B: Allocator>(
    on: &Setting<'_, R, A>,
    heap: &Refusing<B>,
) {
    let model = model_of(on.rt, on.alloc, Standard::SplitJoin.text());
    for line in LINES.lines() {
        let (asked, due) = asked_and_answer(on.rt, line);
        let refused = refuse_line(&*on, heap, &model, asked, due);
        at_least(on.rt, refused, 1, line);
    }
    drop(model);
}

#[test]
fn lines_of_sessions(rt: HostRuntime) {
    let heap = Refusing::new(rt.alloc());
    let on = Setting {
        rt: &rt,
        alloc: &heap,
        other: rt.alloc(),
    };
    refuse_lines(&on, &heap);
}
