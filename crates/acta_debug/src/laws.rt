//! A law of histories.

ghost use Rattle.std.specs.Prelude.{ℕ, List, take};
ghost use Rattle.acta_table.specs.declared.event.Event.{Event};
ghost use Rattle.acta_table.specs.declared.event.Kept.{Kept};
ghost use Rattle.acta_table.specs.declared.model.Parts.{Parts};
ghost use Rattle.acta_machine.specs.Table.{run_state};
ghost use Rattle.acta_debug.specs.Histories.{IsHistory};

use std::alloc::Allocator;

/// Everything that a machine has kept is a history, and so is every prefix of it. So there is a debugger for every run,
/// whether or not events were refused.
pub fn kept_histories<A: Allocator>()
    ensures runs { (m : Parts A) (es : List (Event A)) → IsHistory m (run_state m es).kept }
    ensures fronts { (m : Parts A) (h : List (Kept A)) → IsHistory m h → (n : ℕ) → IsHistory m (take n h) }
{}
