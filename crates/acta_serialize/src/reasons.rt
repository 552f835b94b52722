//! Why no order is serial, in words.

use acta_io::NonBlankLine;
use acta_machine::Handle;
use acta_order::{Block, Cause, DeadEnd};
use acta_prose::{Prose, name_text, put, put_lacking, put_return};
use acta_table::{Event, Kept, Model, OpNo, Ret, TxnId};
use acta_words::words_of;
use std::alloc::AllocError;

// The most transactions of a front that are named, the last ones.
const MOST_NAMED: usize = 12;

// The most transactions of a dead end that are explained.
const MOST_BLOCKS: usize = 8;

/// A history, with its lines in the input.
#[derive(Drop)]
pub(crate) struct History<'a, A: Handle> {
    pub(crate) alloc: A,
    pub(crate) model: &'a Model<A>,
    pub(crate) kept: &'a [Kept<A>],
    pub(crate) lines: &'a [NonBlankLine<'a>],
}

impl<'a, A: Handle> History<'a, A> {
    // The position of the operation with this number.
    fn position(&self, op: OpNo) -> Option<usize> {
        let mut number = 0u32;
        for (position, kept) in self.kept.iter().enumerate() {
            if let Event::Operate(..) = kept.event {
                number = number.saturating_add(1);
                if number == op.0 {
                    return Some(position);
                }
            }
        }
        None
    }

    // Adds the line at this position as written in the input, without its return.
    fn put_line(&self, prose: Prose<A>, position: usize) -> Prose<A> {
        let Some(line) = self.lines.get(position) else {
            return prose;
        };
        let Ok(words) = words_of(self.alloc, line.bytes) else {
            return prose.fail();
        };
        let mut prose = put!(prose; " (line ", line.line, ":");
        for word in words.iter() {
            if *word == b"=".as_slice() {
                break;
            }
            prose = put!(prose; " ", name_text(word));
        }
        prose.put(")")
    }

    // Adds an operation, with its line.
    fn put_operation(&self, prose: Prose<A>, op: OpNo) -> Prose<A> {
        let prose = put!(prose; "operation ", op.0);
        match self.position(op) {
            Some(position) => self.put_line(prose, position),
            None => prose,
        }
    }

    // Adds why an operation can't be replayed.
    fn put_unsound(&self, prose: Prose<A>, op: OpNo) -> Prose<A> {
        let prose = self.put_operation(prose.put("  "), op);
        let kept = match self.position(op) {
            Some(position) => self.kept.get(position),
            None => None,
        };
        match kept {
            Some(
                Kept {
                    event: Event::Operate(_, object, op),
                    ret: Some(_),
                },
            ) => put_lacking(prose.put(": "), self.model, *object, *op).put("\n"),
            _ => prose.put(" has no return\n"),
        }
    }

    // Adds why a transaction can't come next.
    fn put_block(&self, prose: Prose<A>, front: &[TxnId], block: &Block) -> Prose<A> {
        let prose = if front.is_empty() {
            put!(prose; "  ", block.txn.0, " can't come first, ")
        } else {
            put!(put_front(prose, front); ": ", block.txn.0, " can't follow, ")
        };
        let prose = self.put_operation(prose, block.op).put(" returned ");
        let prose = put_recorded(prose, block.returned).put(", and would return ");
        put_recorded(prose, block.would).put("\n")
    }

    // Adds why no transaction can come after a front.
    fn put_dead_end(&self, mut prose: Prose<A>, end: &DeadEnd<A>) -> Prose<A> {
        let blocks = end.blocks.as_slice();
        for block in blocks.iter().take(MOST_BLOCKS) {
            prose = self.put_block(prose, end.front.as_slice(), block);
        }
        let more = blocks.len().saturating_sub(MOST_BLOCKS);
        if more > 0 {
            put!(prose; "  and ", more, " more can't\n")
        } else {
            prose
        }
    }
}

// Adds the transactions of a front.
fn put_front<A: Handle>(prose: Prose<A>, front: &[TxnId]) -> Prose<A> {
    let passed = front.len().saturating_sub(MOST_NAMED);
    let mut prose = prose.put("  after");
    if passed > 0 {
        prose = put!(prose; " ", passed, " others and");
    }
    for t in front.iter().skip(passed) {
        prose = put!(prose; " ", t.0);
    }
    prose
}

// Adds a return, if there is one.
fn put_recorded<A: Handle>(prose: Prose<A>, ret: Option<Ret>) -> Prose<A> {
    match ret {
        Some(ret) => put_return(prose, ret),
        None => prose.put("nothing"),
    }
}

/// Why no order is serial, in lines.
pub(crate) fn explain_cause<A: Handle>(
    alloc: A,
    history: &History<'_, A>,
    cause: &Cause<A>,
) -> Result<String<A>, AllocError> {
    let mut prose = Prose::new(alloc);
    match cause {
        Cause::Unsound(op) => prose = history.put_unsound(prose, *op),
        Cause::DeadEnds(ends) => {
            for end in ends.as_slice() {
                prose = history.put_dead_end(prose, end);
            }
        }
    }
    prose.done()
}
