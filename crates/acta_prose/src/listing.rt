//! Lists in a sentence.

use crate::prose::Prose;
use crate::put;
use acta_table::{OpNo, TxnId};
use std::alloc::Allocator;

/// The most items of a list that are named.
pub const MOST_LISTED: usize = 12;

/// The first items of a list, those that are named.
pub fn first_listed<T>(items: &[T]) -> &[T] {
    items.get(..MOST_LISTED).unwrap_or(items)
}

/// Adds the words, separated by `gap`.
pub fn put_joined<A: Allocator>(mut prose: Prose<A>, words: &[&str], gap: &str) -> Prose<A> {
    let mut before = "";
    for word in words {
        prose = put!(prose; before, *word);
        before = gap;
    }
    prose
}

/// Adds the words as alternatives, with ` or ` before the last.
pub fn put_either<A: Allocator>(prose: Prose<A>, words: &[&str]) -> Prose<A> {
    match words {
        [] => prose,
        [one] => prose.put(*one),
        [others @ .., last] => put!(put_joined(prose, others, ", "); " or ", *last),
    }
}

/// Adds the first numbers of operations, and how many more there are.
pub fn put_operations<A: Allocator>(mut prose: Prose<A>, ops: &[OpNo]) -> Prose<A> {
    let mut gap = "";
    for op in first_listed(ops) {
        prose = put!(prose; gap, op.0);
        gap = ", ";
    }
    put_more(prose, " and ", ops.len())
}

/// Adds a chain of transactions, with arrows between them; of a long one the front, and its length.
pub fn put_chain<A: Allocator>(mut prose: Prose<A>, txns: &[TxnId]) -> Prose<A> {
    let mut gap = "";
    for txn in first_listed(txns) {
        prose = put!(prose; gap, txn.0);
        gap = " -> ";
    }
    put_more(prose, " -> .. and ", txns.len())
}

/// Adds how many items of the list are not named, if any.
pub fn put_more<A: Allocator>(prose: Prose<A>, front: &str, items: usize) -> Prose<A> {
    if items > MOST_LISTED {
        put!(prose; front, items - MOST_LISTED, " more")
    } else {
        prose
    }
}
