//! The verdict on kept lines, in words: each fault with its axiom, its line and what breaks the axiom there, and then the
//! debts.

ghost use Rattle.std.specs.Prelude.{◌≡◌, ◌≤◌, length, nat_lt, true, IfOk};
ghost use Rattle.acta_script.specs.Reading.{kept_of};
ghost use Rattle.acta_table.specs.declared.limits.TheConstants.{MOST_EVENTS};
ghost use Rattle.acta_io.specs.Refusals.{refuses_kept_on};
ghost use Rattle.acta_io.specs.Input.{parsed_in};

use acta_axioms::{Axiom, Fault, Walk};
use acta_io::{KeptLines, NonBlankLine, Report, read_lines};
use acta_judge::{Verdict, judge};
use acta_machine::Handle;
use acta_objects::form_fault;
use acta_prose::{
    LineForm, LineIndex, LineText, MOST_RENDERED, Prose, StepText, Stop, class_at, put,
    put_formed_edge, put_line, put_line_text, put_lines, put_may, put_operation, put_return,
    put_starts, put_stop, report_of,
};
use acta_script::{fault_line, owed_line};
use acta_table::{Answer, Event, Kept, LAST_TXN, MOST_EVENTS, Model, OpNo, Owed, Ret, TxnId};
use acta_trace::{Step, Steps};
use std::alloc::AllocError;
use std::thread::Threads;

// A list of kept items, with what its places formed and the returns that were due.
#[derive(Drop)]
struct Scene<'a, A: Handle> {
    alloc: A,
    kept: &'a [Kept<A>],
    // After the last place.
    walk: Walk<'a, A>,
    steps: Steps<A>,
    texts: Vec<StepText<A>, A>,
    due: Vec<Due, A>,
}

// The return due of the operation at a place.
#[derive(Clone, Copy)]
struct Due {
    place: u32,
    ret: Option<Ret>,
}

// Whether an operation at this place does not have the return due.
fn is_off(faults: &[Fault], place: u32) -> bool {
    let at = faults.partition_point(|fault| {
        fault.broken < Axiom::Return || fault.broken == Axiom::Return && fault.place < place
    });
    match faults.get(at) {
        Some(fault) => fault.broken == Axiom::Return && fault.place == place,
        None => false,
    }
}

// The return due of the operation at the walk's next place.
fn due_next<A: Handle>(walk: &Walk<'_, A>) -> Result<Option<Ret>, AllocError> {
    match walk.next() {
        Some(
            Kept {
                event: Event::Operate(_, object, op),
                ..
            },
        ) => walk.return_due(*object, op),
        _ => Ok(None),
    }
}

// Walks through the list; `lines` has the line of each item.
fn scene_of<'a, A: Handle>(
    alloc: A,
    model: &'a Model<A>,
    kept: &'a [Kept<A>],
    lines: &[NonBlankLine<'_>],
    faults: &[Fault],
) -> Result<Scene<'a, A>, AllocError>
    requires { length kept.now ≤ MOST_EVENTS }
{
    let mut scene = Scene {
        alloc,
        kept,
        walk: Walk::of(alloc, model, kept)?,
        steps: Steps::new(alloc),
        texts: Vec::new(alloc),
        due: Vec::new(alloc),
    };
    let mut place = 0u32;
    let mut operations = 0u32;
    for (item, line) in kept.iter().zip(lines) {
        place = place.saturating_add(1);
        if let Event::Operate(_, _, _) = item.event {
            operations = operations.saturating_add(1);
        }
        if is_off(faults, place) {
            let ret = due_next(&scene.walk)?;
            scene.due.push(Due { place, ret })?;
        }
        scene.add(item, *line, place, operations)?;
    }
    Ok(scene)
}

impl<'a, A: Handle> Scene<'a, A> {
    // Adds the item of a place, and advances the walk to the next place. `operations` is the number of operations
    // up to the place.
    fn add(
        &mut self,
        item: &Kept<A>,
        line: NonBlankLine<'_>,
        place: u32,
        operations: u32,
    ) -> Result<(), AllocError> {
        let edges_before = self.walk.edges().len();
        if !self.walk.ahead().is_empty() {
            self.walk.step()?;
        }
        self.steps.push(Step {
            line: line.line,
            event: item.event.copy()?,
            answer: Answer::Admitted {
                place,
                ret: item.ret,
            },
            op: match item.event {
                Event::Operate(_, _, _) => Some(OpNo(operations)),
                _ => None,
            },
            edges_before,
            edges_after: self.walk.edges().len(),
        })?;
        let text = StepText::of(self.alloc, line, String::new(self.alloc))?;
        self.texts.push(text)?;
        Ok(())
    }

    // The lines of the places.
    fn lines(&self) -> LineIndex<'_, A> {
        LineIndex {
            noun: "line",
            steps: &self.steps,
            texts: self.texts.as_slice(),
            edges: self.walk.edges(),
        }
    }

    // The event of a place.
    fn event(&self, place: u32) -> Option<&'a Event<A>> {
        let kept = self.kept.get((place as usize).checked_sub(1)?)?;
        Some(&kept.event)
    }

    // The line of a place.
    fn at(&self, place: u32) -> Option<LineText<'_>> {
        self.lines().at((place as usize).checked_sub(1)?)
    }

    // Adds a transaction, with the lines of its first begin and end.
    fn put_txn(&self, prose: Prose<A>, number: u64) -> Prose<A> {
        let prose = put!(prose; "transaction ", number);
        if number == 0 || number > LAST_TXN as u64 {
            return prose;
        }
        let t = TxnId(number as u16);
        let prose = match self.lines().begin(t) {
            Some(line) => put!(prose; ", which begins at line ", line.line),
            None => prose.put(", which never begins"),
        };
        match self.lines().end(t) {
            Some(line) => put_line_text(prose.put("; it ends at "), line),
            None => prose,
        }
    }

    // Adds the return of a place's operation, and the return due.
    fn put_off(&self, prose: Prose<A>, fault: &Fault) -> Prose<A> {
        if fault.by == 0 {
            return prose.put("a return of an event that is no operation");
        }
        let prose = put!(prose; "operation ", fault.by);
        let due = self.due.iter().find(|due| due.place == fault.place);
        match due.and_then(|due| due.ret) {
            Some(ret) => put_return(prose.put(", which should return "), ret),
            None => prose,
        }
    }

    // Adds what breaks the axiom.
    fn put_breaker(&self, prose: Prose<A>, fault: &Fault) -> Prose<A> {
        let prose = prose.put("\nby ");
        match fault.broken {
            Axiom::Return => self.put_off(prose, fault),
            Axiom::Dependency(_) => put_formed_edge(prose, self.lines(), fault.by),
            Axiom::Responsible | Axiom::HandsWhole | Axiom::Conflict => {
                let op = OpNo(u32::try_from(fault.by).unwrap_or(0));
                put_operation(prose, self.lines(), op)
            }
            Axiom::Heir if fault.by == 0 => prose.put("a commit of a transaction without a parent"),
            _ => self.put_txn(prose, fault.by),
        }
    }

    // Adds what is wrong with the form of an event: the rule on forms that it breaks.
    fn put_form(&self, prose: Prose<A>, event: &Event<A>) -> Prose<A> {
        match form_fault(self.walk.model(), event) {
            Some(fault) => {
                let rule = fault.refusal().rule;
                put!(prose; "\nrule ", rule.name(), ": ", rule.sentence())
            }
            None => prose,
        }
    }

    // Adds the `may` line of the class with which the transaction first began.
    fn put_may_of(&self, prose: Prose<A>, t: TxnId) -> Prose<A> {
        match self.walk.class(t) {
            Some(class) => put_may(prose.put("\n"), class, t).put("`"),
            None => prose,
        }
    }

    // Adds what the classes of the event's transactions allow.
    fn put_allowed(&self, prose: Prose<A>, event: &Event<A>) -> Prose<A> {
        let prose = match class_at(self.walk.model(), event.class()) {
            Some(class) => put_starts(prose.put("\n"), class).put("`"),
            None => prose,
        };
        let prose = match event.acting() {
            Some(t) => self.put_may_of(prose, t),
            None => prose,
        };
        match event {
            Event::Form(_, j, i) => self.put_may_of(self.put_may_of(prose, *j), *i),
            _ => prose,
        }
    }

    // Adds the description of a fault, in lines.
    fn put_fault_words(&self, prose: Prose<A>, fault: &Fault) -> Prose<A> {
        let prose = prose.put(fault.broken.name());
        let prose = match self.at(fault.place) {
            Some(line) => put_line_text(prose.put(", broken at "), line),
            None => prose,
        };
        let prose = self.put_breaker(prose, fault);
        let prose = match (fault.broken, self.event(fault.place)) {
            (Axiom::FormOfEvent, Some(event)) => self.put_form(prose, event),
            (Axiom::Allowed, Some(event)) => self.put_allowed(prose, event),
            _ => prose,
        };
        put!(prose; "\n", fault.broken.sentence())
    }

    // Adds a fault of a verdict, and its description.
    fn put_fault(&self, prose: Prose<A>, fault: &Fault) -> Prose<A> {
        let line = fault_line(self.alloc, fault.broken.number(), fault.place, fault.by);
        let prose = put_line(prose, line).put("\n");
        match self.put_fault_words(Prose::new(self.alloc), fault).done() {
            Ok(words) => put_lines(prose, words.as_str()),
            Err(_) => prose.fail(),
        }
    }

    // Adds a debt, and its edge.
    fn put_debt(&self, prose: Prose<A>, owed: &Owed) -> Prose<A> {
        let prose = put_line(prose, owed_line(self.alloc, owed)).put("  by ");
        put_formed_edge(prose, self.lines(), owed.edge.0).put("\n")
    }

    // Adds a verdict: the first of its faults, since a list can have one for each two of its operations, and its debts.
    fn put_verdict(&self, mut prose: Prose<A>, verdict: &Verdict<A>) -> Prose<A> {
        let faults = verdict.faults.as_slice();
        for fault in faults.iter().take(MOST_RENDERED) {
            prose = self.put_fault(prose, fault);
        }
        let skipped = faults.len().saturating_sub(MOST_RENDERED);
        if skipped > 0 {
            prose =
                put!(prose; "and ", skipped, " more faults: only the first ", MOST_RENDERED, " are explained\n");
        }
        for owed in verdict.owed.as_slice() {
            prose = self.put_debt(prose, owed);
        }
        if prose.is_empty() {
            prose.put("no fault, and nothing is owed\n")
        } else {
            prose
        }
    }
}

// The report if there are too many lines.
fn too_long<A: Handle>(alloc: A) -> Result<Report<A>, AllocError>
    ensures { IfOk result (λ report. report.is_refused ≡ true) }
{
    let prose = put_lines(
        Prose::new(alloc).put("judge fault 1\n"),
        "more than 65,536 lines have words, and at most 65,536 can be judged",
    );
    report_of(prose, true)
}

// The report on a faulty line.
fn stopped<A: Handle>(alloc: A, model: &Model<A>, stop: &Stop<'_>) -> Result<Report<A>, AllocError>
    ensures { IfOk result (λ report. report.is_refused ≡ true) }
{
    report_of(put_stop(Prose::new(alloc), alloc, model, stop), true)
}

// The verdict on kept items, each with its line, in words.
fn verdict_text<A: Handle>(
    alloc: A,
    model: &Model<A>,
    kept: &[Kept<A>],
    lines: &[NonBlankLine<'_>],
    verdict: &Verdict<A>,
) -> Result<Prose<A>, AllocError>
    requires { length kept.now ≤ MOST_EVENTS }
{
    let scene = scene_of(alloc, model, kept, lines, verdict.faults.as_slice())?;
    Ok(scene.put_verdict(Prose::new(alloc), verdict))
}

// The report on kept items, each with its line.
fn explain_kept<A: Handle + Send + Sync, R: Threads + Sync>(
    rt: &R,
    alloc: A,
    model: &Model<A>,
    kept: &[Kept<A>],
    lines: &[NonBlankLine<'_>],
) -> Result<Report<A>, AllocError>
    ensures { IfOk result (λ report. report.is_refused ≡ nat_lt MOST_EVENTS (length kept.now)) }
{
    if kept.len() > MOST_EVENTS {
        return too_long(alloc);
    }
    match judge(rt, alloc, model, kept) {
        Ok(verdict) => report_of(verdict_text(alloc, model, kept, lines, &verdict)?, false),
        Err(_) => Err(AllocError),
    }
}

/// The report on the kept lines of the input. It refuses the input if `judge` does.
pub fn explain_judged<A: Handle + Send + Sync, R: Threads + Sync>(
    rt: &R,
    alloc: A,
    model: &Model<A>,
    input: &[u8],
) -> Result<Report<A>, AllocError>
    ensures { IfOk result (λ report. report.is_refused ≡ refuses_kept_on (parsed_in (kept_of model.now) input.now)) }
{
    let read = read_lines(alloc, &KeptLines { alloc, model }, input)?;
    match read.stop {
        Some(bad) => stopped(alloc, model, &Stop::of(input, bad, LineForm::Kept)),
        None => explain_kept(
            rt,
            alloc,
            model,
            read.parsed.as_slice(),
            read.lines.as_slice(),
        ),
    }
}
