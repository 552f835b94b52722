//! Explains runs and histories in words. Each event is shown with its answer, and with what it formed or why it is refused:
//! the rule, what breaks it, and what must happen before the event can be admitted. For a faulty line, text or image the
//! explanation says where the fault is, what a good one has there, and which word was perhaps meant. Each rule, axiom and
//! code is explained by its name.
//!
//! This crate decides nothing: the crates below say what is admitted, why an event is refused, whether there is hope and
//! what is wrong with a history, and this one puts it into sentences. A call that allocates returns `Err` if memory runs
//! out.
#![tactic(auto)]

mod advice;
mod args;
mod images;
mod judged;
mod report;
mod run;
mod tables;
mod texts;

pub use advice::{Advice, advice_for};
pub use args::{Asked, ExplainLine};
pub use report::{explain, explain_no_model, explain_tool, write_words};
