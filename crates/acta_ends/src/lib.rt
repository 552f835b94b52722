//! The ends of programs as text, for other programs to read. An end is
//!
//! ```text
//! end K complete | end K stuck | end K owing | end K stuck owing
//! wait SEAT LINE RULE...
//! status T STATUS
//! value NAME VALUE
//! owed KIND J I commit | owed KIND J I abort
//! chose LINE A
//! return LINE RETURN
//! order LINE...
//! ```
//!
//! with the lines from `wait` to `return` as often as there is something to write. `LINE` is the number of a line in the
//! input. In `order` it is `LINE.A` for a line with more than one alternative. `ends N` follows the last end. Only the ends
//! for which a condition holds are written, and `N` is their number. A call that allocates returns `Err` if memory runs out.
#![tactic(auto)]

mod condition;
mod end;
mod ends;
mod fault;
mod kept;
mod lines;
mod reading;
mod states;
mod texts;
mod tokens;
mod waits;
mod words;

pub use condition::{Condition, Term, Test};
pub use ends::ends_lines;
pub use fault::{ConditionError, ConditionFault, Expected};
pub use kept::kept_ends;
pub use reading::read_condition;
pub use texts::condition_text;
