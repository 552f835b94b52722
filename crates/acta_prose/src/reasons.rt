//! Why an event is refused, in words: the rule, what breaks it, and what hope there is. A reason is one or more lines,
//! separated by line feeds.

use crate::lines::LineIndex;
use crate::listing::{put_chain, put_operations};
use crate::phrases::{
    allowing_word, class_at, first_named, name_text, put_edge, put_formed_edge, put_lacking,
    put_line_text, put_may, put_operation, put_standing, put_starts,
};
use crate::prose::Prose;
use crate::put;
use acta_hope::{Hope, Release, endless_wait, heir, is_ancestor, is_released, operation_at};
use acta_machine::{BlockingEdge, Clash, FormFault, Handle, Lack, Machine, NumberedOp, Reason};
use acta_script::{event_word, object_name};
use acta_table::{Class, Dep, Edge, Event, EventKind, Fate, OpNo, Rule, Status, TxnId};

/// An event that a machine refuses, and the lines of its run so far.
#[derive(Clone, Copy)]
pub struct Refused<'a, A: Handle> {
    pub machine: &'a Machine<A>,
    pub lines: LineIndex<'a, A>,
    pub event: &'a Event<A>,
}

// Phrases for an event of this kind: what a transaction does that names itself, what happens to its partner, and how a
// transaction starts by it.
fn kind_phrases(kind: EventKind) -> (&'static str, &'static str, &'static str) {
    match kind {
        EventKind::Spawn => ("spawns itself", "", "by being spawned"),
        EventKind::Split => ("splits off itself", "", "by being split off"),
        EventKind::Join => ("joins itself", "joined", ""),
        EventKind::Delegate => ("delegates to itself", "delegated to", ""),
        EventKind::Permit => ("permits itself anything", "permitted anything", ""),
        _ => ("depends on itself", "", "by a begin"),
    }
}

// Phrases for an edge of this kind: what the other transaction does that makes the dependent one owe something, and what it
// then owes.
fn debt_phrases(kind: Dep) -> (&'static str, &'static str) {
    match kind {
        Dep::Scd => ("a commit", "a commit"),
        Dep::Cmd => ("an abort", "a commit"),
        Dep::Ed => ("a commit", "an abort"),
        _ => ("an abort", "an abort"),
    }
}

// The ways in which a holder can release an operation.
const RELEASES: [Release; 5] = [
    Release::Commit,
    Release::Abort,
    Release::Delegate,
    Release::Join,
    Release::Permit,
];

// Adds what the holder of an operation on the object does to release it for `t`.
fn put_release<A: Handle>(prose: Prose<A>, release: Release, t: TxnId, object: &str) -> Prose<A> {
    match release {
        Release::Commit => prose.put("commits"),
        Release::Abort => prose.put("aborts"),
        Release::Delegate => put!(prose; "delegates it to ", t.0),
        Release::Join => put!(prose; "joins ", t.0),
        Release::Permit => put!(prose; "permits ", t.0, " to work on `", object, "`"),
    }
}

// Adds why the set of a delegation or a split is bad: it names this operation, though there are only `operations` of them.
fn put_bad_set<A: Handle>(prose: Prose<A>, number: OpNo, operations: usize) -> Prose<A> {
    let number = number.0;
    let prose = put!(prose; "BadSet: there is no operation ", number);
    if number == 0 {
        prose.put("; they are numbered from 1.")
    } else if number > 65_536 {
        prose.put("; a history has at most 65,536.")
    } else {
        put!(prose; "; the last so far has the number ", operations, ".")
    }
}

// Adds the chain of transactions for which the dependent one waits, if an edge blocks its end and the chain has a cycle.
fn put_waits_of<A: Handle>(prose: Prose<A>, machine: &Machine<A>, reason: &Reason) -> Prose<A> {
    let Reason::Blocked(blocking_edge) = reason else {
        return prose;
    };
    if !matches!(blocking_edge.rule, Rule::TerminationDep) {
        return prose;
    }
    match endless_wait(machine, blocking_edge.by.edge.j) {
        Ok(Some(waits)) => put_closed(prose, waits.as_slice()),
        Ok(None) => prose,
        Err(_) => prose.fail(),
    }
}

// Adds that these wait for each other.
fn put_closed<A: Handle>(prose: Prose<A>, waits: &[TxnId]) -> Prose<A> {
    let (front, these) = if waits.first() == waits.last() {
        ("\nThese transactions wait for one another: ", "them")
    } else {
        (
            "\nIt waits for transactions that wait for one another: ",
            "these",
        )
    };
    let prose = put_chain(prose.put(front), waits);
    put!(prose; ". None of ", these, " can commit or abort any more.")
}

impl<'a, A: Handle> Refused<'a, A> {
    /// Adds why the event is refused, and what hope there is. With `looks_for_waits`, transactions that wait for each other
    /// are searched for, which visits each edge.
    pub fn put_reason(
        &self,
        prose: Prose<A>,
        looks_for_waits: bool,
        reason: &Reason,
        hope: Hope,
    ) -> Prose<A> {
        let prose = self.put_facts(prose, reason);
        match *reason {
            Reason::Conflict(op) => {
                let prose = self.put_policy(prose, op.held.holder);
                let prose = self.put_hope(prose, hope);
                self.put_heir(prose, op)
            }
            Reason::PartialDelegation(_) => { self.put_whole(self.put_hope(prose, hope)) }
            // (that it has to wait is said already)
            Reason::Blocked(_) if !matches!(hope, Hope::Never) => {
                if looks_for_waits {
                    put_waits_of(prose, self.machine, reason)
                } else {
                    prose
                }
            }
            _ => self.put_hope(prose, hope),
        }
    }

    // Adds what hope there is, as a line of its own; nothing if it is unknown.
    fn put_hope(&self, prose: Prose<A>, hope: Hope) -> Prose<A> {
        let when = "\nIt can be admitted only when ";
        match hope {
            Hope::Unknown => prose,
            Hope::Never => prose.put("\nIt can never be admitted."),
            Hope::OnceBegun(t) => put!(prose; when, t.0, " has begun."),
            Hope::OnceHeld(t, op) => put!(prose; when, t.0, " holds operation ", op.0, "."),
            Hope::OnceCommitted(t) => put!(prose; when, t.0, " has committed."),
            Hope::OnceAborted(t) => put!(prose; when, t.0, " has aborted."),
            Hope::OnceDecided(t) => put!(prose; when, t.0, " has committed or aborted."),
            Hope::OnceFree(op) => {
                let prose = put!(prose; when, "operation ", op.0, " no longer blocks it");
                self.put_releases(prose, op).put(".")
            }
            Hope::OnceReleased(t, op) => {
                put!(prose; when, t.0, " no longer holds operation ", op.0, ".")
            }
            Hope::OnceFewer => {
                put!(prose; when, "one of the transactions that conflict with it no longer does.")
            }
        }
    }

    /// Adds why the event is refused, without the hope.
    pub fn put_facts(&self, prose: Prose<A>, reason: &Reason) -> Prose<A> {
        match *reason {
            Reason::Full => {
                prose.put("Full: the history has 65,536 events, the most that it may have.")
            }
            Reason::EdgesFull => put!(prose; "EdgesFull: ", self.machine.edges().len(),
                " edges are in force, and the edges that it forms would make more than 16,384. Edges are never removed."),
            Reason::Form(fault) => self.put_form(prose, fault),
            Reason::NotInProgress { txn, status } => {
                let prose = self.put_stands(prose.put("NotInProgress: "), txn, status);
                prose.put(".")
            }
            Reason::AlreadyBegun { txn, status } => self.put_already_begun(prose, txn, status),
            Reason::NotInModel(lack) => self.put_not_in_model(prose, lack),
            Reason::PartnerNotInProgress { txn, status } => {
                let prose = self.put_stands(prose.put("PartnerNotInProgress: "), txn, status);
                let (_, partner, _) = kind_phrases(self.event.kind());
                put!(prose; ", and only a transaction in progress can be ", partner, ".")
            }
            Reason::NotResponsible(op) => self.put_not_responsible(prose, op),
            Reason::PartialDelegation(op) => {
                let prose = put_operation(prose.put("PartialDelegation: "), self.lines, op.number);
                let prose = self.put_class(prose.put(" isn't named, and class `"));
                prose.put(" has `delegation whole`.")
            }
            Reason::BadSet { number, operations } => put_bad_set(prose, number, operations),
            Reason::Conflict(op) => {
                let prose = put_operation(prose.put("Conflict: "), self.lines, op.number);
                put!(prose; " is in progress, held by ", op.held.holder.0,
                    ", and conflicts with it.")
            }
            Reason::FormTooLate { txn, status } => self.put_form_too_late(prose, txn, status),
            Reason::Blocked(blocking_edge) => self.put_barred(prose, &blocking_edge),
            Reason::Clash(clash) => self.put_clash(prose, &clash),
            Reason::NoHeir { parent, status } => self.put_no_heir(prose, parent, status),
        }
    }

    fn put_no_heir(&self, prose: Prose<A>, parent: TxnId, status: Status) -> Prose<A> {
        let prose = self.put_class(prose.put("NoHeir: class `"));
        let prose = put!(prose; " has `commit toparent`, so its parent ", parent.0,
            " would get the operations that ", first_named(self.event).0, " holds, but ");
        self.put_stands(prose, parent, status).put(".")
    }

    // Adds the status of a transaction.
    fn put_stands(&self, prose: Prose<A>, t: TxnId, status: Status) -> Prose<A> {
        put_standing(put!(prose; t.0, " "), self.lines, t, status)
    }

    // The class with which the transaction began.
    fn class_of(&self, t: TxnId) -> Option<&Class<A>> {
        class_at(self.machine.model(), self.machine.class(t))
    }

    // Adds the class of the acting transaction in quotes, and whose class it is.
    fn put_class(&self, prose: Prose<A>) -> Prose<A> {
        let t = first_named(self.event);
        let name = match self.class_of(t) {
            Some(class) => name_text(class.name.as_slice()),
            None => "?",
        };
        put!(prose; name, "` of ", t.0)
    }

    fn put_form(&self, prose: Prose<A>, fault: FormFault) -> Prose<A> {
        match fault {
            FormFault::BadNumber(number) => {
                put!(prose; "BadNumber: no transaction has the number ", number,
                    "; they are numbered from 1 to 16,383.")
            }
            FormFault::BadClass(class) => {
                put!(prose; "BadClass: the model has no class at position ", class.0, ".")
            }
            FormFault::BadObject(object) => {
                put!(prose; "BadObject: the model has no object at position ", object.0, ".")
            }
            FormFault::BadOperation(object, op) => {
                let model = self.machine.model();
                put_lacking(prose.put("BadOperation: "), model, object, op).put(".")
            }
            FormFault::SameTransaction(txn) => {
                let (itself, _, _) = kind_phrases(self.event.kind());
                put!(prose; "SameTransaction: ", txn.0, " is named twice, and no transaction ",
                    itself, ".")
            }
        }
    }

    fn put_already_begun(&self, prose: Prose<A>, txn: TxnId, status: Status) -> Prose<A> {
        let prose = put!(prose; "AlreadyBegun: ", txn.0, " ");
        let prose = match self.lines.begin(txn) {
            Some(line) => put_line_text(prose.put("began ("), line).put("), and "),
            None => prose,
        };
        put_standing(prose, self.lines, txn, status).put(". Each transaction starts once.")
    }

    fn put_not_in_model(&self, prose: Prose<A>, lack: Lack) -> Prose<A> {
        let prose = prose.put("NotInModel: ");
        let model = self.machine.model();
        match lack {
            Lack::Start { class, kind } => {
                let (_, _, start) = kind_phrases(kind);
                let prose = match model.class(class) {
                    Some(class) => {
                        put_starts(prose, class).put("`, so no transaction of this class starts ")
                    }
                    None => prose.put("no transaction of class `?` starts "),
                };
                put!(prose; start, ".")
            }
            Lack::Doing { txn, class, kind } => {
                let word = allowing_word(kind);
                let Some(class) = class_at(model, class) else {
                    return put!(prose; txn.0, " has no class that has `", word, "` in its `may`.");
                };
                put!(put_may(prose, class, txn); "`, and no `", word, "`.")
            }
            Lack::Forming => prose.put(
                "no class of the model has `form` in its `may`, so no `form` event is admitted.",
            ),
        }
    }

    fn put_not_responsible(&self, prose: Prose<A>, op: NumberedOp) -> Prose<A> {
        let t = first_named(self.event).0;
        let prose = put_operation(prose.put("NotResponsible: "), self.lines, op.number);
        let ended = match op.held.fate {
            Fate::InProgress => {
                return put!(prose; " is held by ", op.held.holder.0, ", not by ", t, ", and ", t,
                    " can hand over only operations that it holds in progress.");
            }
            Fate::Committed => "committed",
            Fate::Aborted => "aborted",
        };
        put!(prose; " is ", ended, ", and ", t, " can hand over only operations that it holds in progress.")
    }

    // Adds which operations have to be named.
    fn put_whole(&self, prose: Prose<A>) -> Prose<A> {
        let t = first_named(self.event);
        let prose = put!(prose; "\n", t.0, " holds these operations in progress: ");
        match self.machine.access_set(t) {
            Ok(held) => put_operations(prose, held.as_slice()).put("."),
            Err(_) => prose.fail(),
        }
    }

    fn put_form_too_late(&self, prose: Prose<A>, txn: TxnId, status: Status) -> Prose<A> {
        let prose = prose.put("FormTooLate: ");
        let Event::Form(kind, j, i) = self.event else {
            return put!(self.put_stands(prose, txn, status); ".");
        };
        let edge = Edge {
            kind: *kind,
            j: *j,
            i: *i,
        };
        if kind.is_begin_kind() {
            let prose = put_edge(prose.put("an edge "), &edge);
            let prose = put!(prose; " limits when ", txn.0, " begins, and ", txn.0, " has begun");
            let prose = match self.lines.begin(txn) {
                Some(line) => put_line_text(prose.put(" ("), line).put(")"),
                None => prose,
            };
            put!(prose; ".")
        } else {
            let prose = self.put_stands(prose, txn, status).put(", and an edge ");
            put!(put_edge(prose, &edge); " can be formed only before either transaction ends.")
        }
    }
}

// Conflicts.
impl<'a, A: Handle> Refused<'a, A> {
    // Adds why a conflict refuses the event.
    fn put_policy(&self, prose: Prose<A>, holder: TxnId) -> Prose<A> {
        let prose = self
            .put_class(prose.put("\nClass `"))
            .put(" has `policy refuse`");
        if is_ancestor(self.machine, first_named(self.event), holder) {
            put!(prose; ", and `scope others`, so the operations of its ancestor ", holder.0, " count too.")
        } else {
            prose.put(".")
        }
    }

    // Adds what the holder can do so that the operation no longer blocks the event.
    fn put_releases(&self, prose: Prose<A>, number: OpNo) -> Prose<A> {
        let Some(op) = operation_at(self.machine, number) else {
            return prose;
        };
        let t = first_named(self.event);
        let object = name_text(object_name(self.machine.model(), op.ob));
        let ways = RELEASES.map(|way| is_released(self.machine, self.event, number, way));
        let mut left = ways.iter().filter(|is_open| **is_open).count();
        if left == 0 {
            return prose;
        }
        let mut prose = put!(prose; ", for example after ", op.holder.0, " ");
        for (way, is_open) in RELEASES.iter().zip(ways) {
            if is_open {
                left = left.saturating_sub(1);
                prose = put_release(prose, *way, t, object).put(match left {
                    0 => "",
                    1 => " or ",
                    _ => ", ",
                });
            }
        }
        prose
    }

    // Adds who inherits the operation when its holder commits, if that does not help.
    fn put_heir(&self, prose: Prose<A>, op: NumberedOp) -> Prose<A> {
        let holder = op.held.holder;
        let may_commit = self
            .class_of(holder)
            .is_some_and(|class| class.may.has(EventKind::Commit));
        if is_released(self.machine, self.event, op.number, Release::Commit) || !may_commit {
            return prose;
        }
        match heir(self.machine, holder) {
            Some(parent) => {
                put!(prose; "\nIf ", holder.0, " commits, its parent ", parent.0, " gets the operation.")
            }
            None => prose,
        }
    }
}

// Dependencies.
impl<'a, A: Handle> Refused<'a, A> {
    fn put_barred(&self, prose: Prose<A>, blocking_edge: &BlockingEdge) -> Prose<A> {
        let number = u64::from(blocking_edge.by.number);
        let prose = put!(prose; blocking_edge.rule.name(), ", by ");
        let prose = put_formed_edge(prose, self.lines, number).put("\n");
        match blocking_edge.rule {
            Rule::BeginDep
            | Rule::SerialDep
            | Rule::BeginOnCommit
            | Rule::BeginOnAbort
            | Rule::TerminationDep => self.put_awaits(prose, blocking_edge),
            Rule::OwesAbort | Rule::OwesCommit => self.put_owes(prose, blocking_edge),
            Rule::CommitOrder | Rule::WeakBegin => self.put_too_late(prose, blocking_edge),
            _ => self.put_unpayable(prose, blocking_edge),
        }
    }

    // Adds that the dependent transaction may do something only after the other has done something.
    fn put_awaits(&self, prose: Prose<A>, blocking_edge: &BlockingEdge) -> Prose<A> {
        let edge = blocking_edge.by.edge;
        let (before, after) = awaited(blocking_edge.rule);
        let prose = put!(prose; edge.j.0, before, edge.i.0, after);
        self.put_stands(prose, edge.i, blocking_edge.i).put(".")
    }

    fn put_owes(&self, prose: Prose<A>, blocking_edge: &BlockingEdge) -> Prose<A> {
        let edge = blocking_edge.by.edge;
        let (_, debt) = debt_phrases(edge.kind);
        let prose = put!(prose; edge.j.0, " owes ", debt, ", since ");
        let prose = self.put_stands(prose, edge.i, blocking_edge.i);
        put!(prose; ", and so may not ", event_word(self.event.kind()), ".")
    }

    // Adds that a transaction may commit only before another begins, or commits.
    fn put_too_late(&self, prose: Prose<A>, blocking_edge: &BlockingEdge) -> Prose<A> {
        let edge = blocking_edge.by.edge;
        let prose = put!(prose; edge.i.0, " may commit only before ", edge.j.0);
        let prose = if matches!(blocking_edge.rule, Rule::CommitOrder) {
            put!(prose; " does, and ", edge.j.0, " ")
        } else {
            let prose = put!(prose; " begins; ", edge.j.0, " has begun");
            match self.lines.begin(edge.j) {
                Some(line) => put!(prose; " (", line.noun, " ", line.line, "), and "),
                None => prose.put(", and "),
            }
        };
        let prose = put_standing(prose, self.lines, edge.j, blocking_edge.j);
        put!(prose; ".")
    }

    fn put_unpayable(&self, prose: Prose<A>, blocking_edge: &BlockingEdge) -> Prose<A> {
        let edge = blocking_edge.by.edge;
        let (cause, debt) = debt_phrases(edge.kind);
        let prose =
            put!(prose; "After ", cause, " of ", edge.i.0, ", ", edge.j.0, " would owe ", debt,
            ", which it can no longer do: ");
        put!(self.put_stands(prose, edge.j, blocking_edge.j); ".")
    }

    fn put_clash(&self, prose: Prose<A>, clash: &Clash) -> Prose<A> {
        let (commit, abort) = (&clash.commit, &clash.abort);
        let j = commit.edge.j.0;
        let prose =
            put!(prose; "Clash: ", j, " would owe both a commit and an abort:\na commit by ");
        let prose = put_formed_edge(prose, self.lines, u64::from(commit.number));
        put_formed_edge(
            prose.put("\nan abort by "),
            self.lines,
            u64::from(abort.number),
        )
    }
}

// The phrases of a rule by which the dependent transaction may do one thing only after the other has done another.
fn awaited(rule: Rule) -> (&'static str, &'static str) {
    match rule {
        Rule::BeginDep => (" may begin only after ", " has begun; "),
        Rule::SerialDep => (" may begin only after ", " has committed or aborted; "),
        Rule::BeginOnCommit => (" may begin only after ", " has committed; "),
        Rule::BeginOnAbort => (" may begin only after ", " has aborted; "),
        _ => (
            " may commit or abort only after ",
            " has committed or aborted; ",
        ),
    }
}
