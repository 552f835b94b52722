//! The parts of a class that its lines have given so far.

ghost use Rattle.std.specs.Prelude.{◌≡◌, ℕ, List, IfOk, OnOk};
ghost use Rattle.acta_table.specs.Faults.{lacks_parents};
ghost use Rattle.acta_lang.specs.Drafts.{closed, has_part, has_all_parts, opened, with_parsed};
ghost use Rattle.acta_lang.specs.inside.Abstraction.{class_shown};

use crate::form::Form;
use acta_table::{
    AtCommit, Class, Extent, Items, Kinds, Policy, Scope, StartEdge, StartEdges, Starts,
};
use std::alloc::{AllocError, Allocator};

/// The parts given so far: each of the six at most once, and any number of edges.
#[derive(Drop)]
pub(crate) struct Parsed<A: Allocator> {
    starts: Option<Starts>,
    may: Option<Kinds>,
    scope: Option<Scope>,
    policy: Option<Policy>,
    at_commit: Option<AtCommit>,
    extent: Option<Extent>,
    spawn_edges: Vec<StartEdge, A>,
    split_edges: Vec<StartEdge, A>,
}

// No start at all.
const UNSTARTED: Starts = Starts {
    begin: false,
    spawned: false,
    split: false,
};

impl<A: Allocator + Copy> Parsed<A> {
    /// No parts. Does not allocate.
    pub(crate) fn nothing(alloc: A) -> Parsed<A>
        ensures { (name : List ℕ) → class_shown name result ≡ opened name }
    {
        Parsed {
            starts: None,
            may: None,
            scope: None,
            policy: None,
            at_commit: None,
            extent: None,
            spawn_edges: Vec::new(alloc),
            split_edges: Vec::new(alloc),
        }
    }

    /// Adds the part of a line of this form.
    pub(crate) fn add(&mut self, parsed: &Form) -> Result<(), AllocError>
        ensures { OnOk result ((name : List ℕ) → class_shown name self.new ≡ with_parsed parsed.now (class_shown name self.old)) }
    {
        match parsed {
            Form::Starts(starts) => self.starts = Some(*starts),
            Form::May(kinds) => self.may = Some(*kinds),
            Form::Scope(scope) => self.scope = Some(*scope),
            Form::Policy(policy) => self.policy = Some(*policy),
            Form::Commit(at_commit) => self.at_commit = Some(*at_commit),
            Form::Delegation(extent) => self.extent = Some(*extent),
            Form::Spawn(edge) => self.spawn_edges.push(*edge)?,
            Form::Split(edge) => self.split_edges.push(*edge)?,
            _ => {}
        }
        Ok(())
    }

    /// Whether the part of a line of this form has been given already; an edge may be repeated.
    pub(crate) fn has(&self, parsed: &Form) -> bool
        ensures { (name : List ℕ) → result ≡ has_part parsed.now (class_shown name self.now) }
    {
        match parsed {
            Form::Starts(_) => self.starts.is_some(),
            Form::May(_) => self.may.is_some(),
            Form::Scope(_) => self.scope.is_some(),
            Form::Policy(_) => self.policy.is_some(),
            Form::Commit(_) => self.at_commit.is_some(),
            Form::Delegation(_) => self.extent.is_some(),
            _ => false,
        }
    }

    /// Whether all six parts have been given.
    pub(crate) fn is_all(&self) -> bool
        ensures { (name : List ℕ) → result ≡ has_all_parts (class_shown name self.now) }
    {
        self.starts.is_some()
            && self.may.is_some()
            && self.scope.is_some()
            && self.policy.is_some()
            && self.at_commit.is_some()
            && self.extent.is_some()
    }

    /// Whether the class commits to parents but can start without one.
    pub(crate) fn lacks_parents(&self) -> bool
        ensures { (name : List ℕ) → result ≡ lacks_parents {A = A} (closed (class_shown name self.now)) }
    {
        let starts = self.starts.unwrap_or(UNSTARTED);
        matches!(self.at_commit, Some(AtCommit::ToParent)) && (starts.begin || starts.split)
    }

    /// The class of this name with these parts. The defaults for missing parts are never used: a class is closed only if it
    /// has all.
    pub(crate) fn class(&self, alloc: A, name: &[u8]) -> Result<Class<A>, AllocError>
        ensures { IfOk result (λ class. class ≡ closed (class_shown name.now self.now)) }
    {
        Ok(Class {
            name: Items::of(Vec::from_slice(alloc, name)?),
            starts: self.starts.unwrap_or(UNSTARTED),
            may: self.may.unwrap_or(Kinds::none()),
            scope: self.scope.unwrap_or(Scope::Others),
            policy: self.policy.unwrap_or(Policy::Refuse),
            at_commit: self.at_commit.unwrap_or(AtCommit::Keeps),
            extent: self.extent.unwrap_or(Extent::Whole),
            spawn_edges: StartEdges::of(alloc, &self.spawn_edges)?,
            split_edges: StartEdges::of(alloc, &self.split_edges)?,
        })
    }
}
