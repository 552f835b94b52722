//! Refuses each allocation of a call in turn.

use crate::Refusing;
use std::alloc::Allocator;

// An upper bound on the allocations of any case's call.
const MOST: u64 = 10_000;

/// A call, its initial state, and the readers of that state.
pub trait Case {
    /// The initial state: `()` for a call that needs none.
    type State: Drop;

    /// The result of the call.
    type Answer: Drop;

    /// Makes the initial state. Nothing is refused meanwhile.
    fn start(&self) -> Self::State;

    /// Makes the call. Returns `None` if memory ran out.
    fn call(&self, state: &mut Self::State) -> Option<Self::Answer>;

    /// Returns the answer as text; `state` is the state after the call. Nothing is refused meanwhile.
    fn describe(&self, answer: &Self::Answer, state: &Self::State) -> String;

    /// Returns the answers of the readers of the state, as text. Nothing is refused meanwhile.
    fn read(&self, state: &Self::State) -> String;
}

/// What is wrong with a call, with the number of the allocation that was refused, from 1.
#[derive(Clone, Copy, PartialEq, Eq, Debug)]
pub enum Wrong {
    /// Memory ran out, and afterwards a reader's answer differs from the one before the call.
    Changed(u64),
    /// The answer differs from the expected one, or memory ran out although nothing was refused.
    Answer(u64),
    /// The call makes more than 10,000 allocations.
    Endless,
}

// The result of a call whose nth allocation was to be refused: the answer, if there is one, whether the call made that
// allocation, and, without an answer, whether the readers answer as before.
struct Tried<X> {
    answer: Option<X>,
    was_refused: bool,
    is_same: bool,
}

// Makes the call on the state, with its nth allocation refused.
fn try_call<B: Allocator, C: Case>(
    heap: &Refusing<B>,
    case: &C,
    state: &mut C::State,
    nth: u64,
) -> Tried<C::Answer> {
    let before = case.read(state);
    heap.refuse(nth);
    let answer = case.call(state);
    let was_refused = !heap.is_waiting();
    heap.refuse(0);
    let is_same = answer.is_some() || case.read(state).as_str() == before.as_str();
    Tried {
        answer,
        was_refused,
        is_same,
    }
}

// Whether the call has this answer.
fn has_answer<C: Case>(case: &C, state: &C::State, answer: Option<&C::Answer>, due: &str) -> bool {
    match answer {
        Some(answer) => case.describe(answer, state).as_str() == due,
        None => false,
    }
}

// Makes the call on the state, with its nth allocation refused, and again if it made that allocation. Returns whether it
// did.
fn refuse<B: Allocator, C: Case>(
    heap: &Refusing<B>,
    case: &C,
    state: &mut C::State,
    due: &str,
    nth: u64,
) -> Result<bool, Wrong> {
    let Tried {
        answer,
        was_refused,
        is_same,
    } = try_call(heap, case, state, nth);
    if !is_same {
        drop(answer);
        return Err(Wrong::Changed(nth));
    }
    let answer = match answer {
        None if was_refused => case.call(state),
        answer => answer,
    };
    let is_due = has_answer(case, state, answer.as_ref(), due);
    drop(answer);
    if is_due {
        Ok(was_refused)
    } else {
        Err(Wrong::Answer(nth))
    }
}

// The same on a new state.
fn refuse_anew<B: Allocator, C: Case>(
    heap: &Refusing<B>,
    case: &C,
    due: &str,
    nth: u64,
) -> Result<bool, Wrong> {
    let mut state = case.start();
    let was_refused = refuse(heap, case, &mut state, due, nth);
    drop(state);
    was_refused
}

/// Refuses each allocation of the call in turn, each time on a new state, so that no room is left over from a refused call.
/// With an allocation refused, either the call runs out of memory, the readers answer as before, and the same call then
/// answers `due`; or it answers `due` at once, without that memory. Returns how many allocations were refused.
pub fn refuse_each<B: Allocator, C: Case>(
    heap: &Refusing<B>,
    case: &C,
    due: &str,
) -> Result<u64, Wrong> {
    for nth in 1..MOST {
        if !refuse_anew(heap, case, due, nth)? {
            return Ok(nth.wrapping_sub(1));
        }
    }
    Err(Wrong::Endless)
}

/// Refuses each allocation of the call in turn on one state, which is costly to make, until the call answers `due`. Until
/// then the readers answer as before the first call.
pub fn refuse_in_place<B: Allocator, C: Case>(
    heap: &Refusing<B>,
    case: &C,
    state: &mut C::State,
    due: &str,
) -> Result<u64, Wrong> {
    for nth in 1..MOST {
        let Tried {
            answer,
            was_refused,
            is_same,
        } = try_call(heap, case, state, nth);
        let is_due = has_answer(case, state, answer.as_ref(), due);
        let is_answer = answer.is_some();
        drop(answer);
        if !is_same {
            return Err(Wrong::Changed(nth));
        } else if is_due {
            return Ok(nth.wrapping_sub(1));
        } else if is_answer || !was_refused {
            return Err(Wrong::Answer(nth));
        }
    }
    Err(Wrong::Endless)
}
