ghost use Rattle.std.specs.Prelude.{◌≡◌, length, take, IfOk, OnOk, OnErr};
ghost use Rattle.acta_table.specs.Edges.{with_edge, formed};
ghost use Rattle.acta_table.specs.declared.event.Event.TheVariants.{Operate};
ghost use Rattle.acta_axioms.specs.Edges.{formed_by};

use crate::walk::Walk;
use crate::wanted::edges_wanted;
use acta_sets::Handle;
use acta_table::{Edge, Event, ObjId, Op, TxnId};
use indexmap::IndexSet;
use std::alloc::{AllocError, Allocator};
use std::hash::{BuildHasherDefault, FoldHasher};

/// Edges in order of forming, each once.
pub type Formed<A> = IndexSet<Edge, BuildHasherDefault<FoldHasher>, A>;

// Appends the edge unless it is in the list. On `Err` the list is unchanged.
fn form<A: Allocator>(edges: &mut Formed<A>, edge: Edge) -> Result<(), AllocError>
    ensures formed { OnOk result (edges.new.keys ≡ with_edge edges.old.keys edge) }
    ensures err { OnErr result (edges.new.keys ≡ edges.old.keys) }
{
    match edges.insert(edge) {
        Ok(_) => Ok(()),
        Err(_) => Err(AllocError),
    }
}

// Appends the edges, each once. On `Err` some of them may have been appended.
fn form_each<A: Allocator>(edges: &mut Formed<A>, more: &[Edge]) -> Result<(), AllocError>
    ensures formed { OnOk result (edges.new.keys ≡ formed edges.old.keys more.now) }
    ensures before { take (length edges.old.keys) edges.new.keys ≡ edges.old.keys }
{
    for edge in more {
        form(edges, *edge)?;
    }
    Ok(())
}

/// Appends the edges, each once. On `Err` none is appended.
pub(crate) fn form_all<A: Allocator>(edges: &mut Formed<A>, more: &[Edge]) -> Result<(), AllocError>
    ensures formed { OnOk result (edges.new.keys ≡ formed edges.old.keys more.now) }
    ensures before { OnOk result (take (length edges.old.keys) edges.new.keys ≡ edges.old.keys) }
    ensures err { OnErr result (edges.new.keys ≡ edges.old.keys) }
{
    let count = edges.len();
    match form_each(edges, more) {
        Ok(()) => Ok(()),
        Err(error) => {
            edges.truncate(count);
            Err(error)
        }
    }
}

impl<'a, A: Handle> Walk<'a, A> {
    // The edges that an operation of t forms.
    fn edges_upon(&self, t: TxnId, object: ObjId, op: &Op) -> Result<Vec<Edge, A>, AllocError>
        ensures { IfOk result (λ edges. edges.items ≡ formed_by self.now.model self.now.front (Operate t object op.now)) }
    {
        let Some(class) = self.class(t) else {
            return Ok(Vec::new(self.allocator()));
        };
        if class.policy.refuses() {
            return Ok(Vec::new(self.allocator()));
        }
        let holders = self.holders_against(t, object, op)?;
        class.policy.edges_upon(self.allocator(), t, &holders)
    }

    /// The edges that the event at the current place forms.
    pub(crate) fn edges_due(&self, event: &Event<A>) -> Result<Vec<Edge, A>, AllocError>
        ensures { IfOk result (λ edges. edges.items ≡ formed_by self.now.model self.now.front event.now) }
    {
        match event {
            Event::Operate(t, object, op) => self.edges_upon(*t, *object, op),
            _ => edges_wanted(self.allocator(), self.model.classes(), event),
        }
    }
}
