ghost use Rattle.std.specs.Prelude.{◌≡◌, ◌||◌, ◌==◌, ℕ, List, map, None, Some, FitsSigned, IfOk, IfErr, OnOk, option_map};
ghost use Rattle.std.specs.Int.{w32};
ghost use Rattle.std.specs.List.{All, list_any, list_all};
ghost use Rattle.std.specs.Str.{bytes_eq};
ghost use Rattle.std.specs.Char.{is_ascii_alphanumeric};
ghost use Rattle.acta_table.specs.declared.event.EventKind.{EventKind};
ghost use Rattle.acta_table.specs.Classes.{can_do, class_at, object_at};
ghost use Rattle.acta_table.specs.Numbers.{model_fault_number};
ghost use Rattle.acta_table.specs.Policies.{is_bad_policy};
ghost use Rattle.acta_table.specs.Typed.{AreOfModel, HasFirst, HasSets};
ghost use Rattle.acta_table.specs.Faults.{lowest_fault, is_name, has_twice, has_begin_edge, has_begin_kind, lacks_parents, fault_if};

use crate::event::{ClassId, EventKind, ObjId};
use crate::items::Items;
use crate::kinds::Kinds;
use crate::limits::{LONGEST_NAME, MOST_CLASSES, MOST_OBJECTS};
use crate::policy::Policy;
use crate::start_edges::{StartEdge, StartEdges};
use std::alloc::{AllocError, Allocator};

/// The ways in which a transaction of a class may start.
#[derive(Clone, Copy, PartialEq, Eq, Debug)]
pub struct Starts {
    pub begin: bool,
    pub spawned: bool,
    pub split: bool,
}

/// The scope of a conflict set: whose operations a transaction can conflict with.
#[derive(Clone, Copy, PartialEq, Eq, Debug)]
pub enum Scope {
    /// The operations of all other transactions.
    Others,
    /// The operations of all other transactions but its ancestors.
    NonAncestors,
}

/// What a commit does with the operations that the transaction holds in progress.
#[derive(Clone, Copy, PartialEq, Eq, Debug)]
pub enum AtCommit {
    /// They are committed.
    Keeps,
    /// They are transferred to its parent.
    ToParent,
}

/// How much of its operations a transaction must transfer when it delegates.
#[derive(Clone, Copy, PartialEq, Eq, Debug)]
pub enum Extent {
    /// All that it holds in progress.
    Whole,
    /// Any part of what it holds in progress.
    Any,
}

/// The kind of an object, with its initial value.
#[derive(Clone, Copy, PartialEq, Eq, Debug)]
pub enum Kind {
    /// One number, with its initial value.
    Register(i32),
    /// A sum, with its initial value.
    Counter(i32),
    /// A finite set of numbers, initially empty.
    Elements,
}

/// An object of a model.
#[derive(Drop)]
pub struct Object<A: Allocator> {
    pub name: Items<u8, A>,
    pub kind: Kind,
}

/// A class of transactions: what its transactions may do.
#[derive(Drop)]
pub struct Class<A: Allocator> {
    pub name: Items<u8, A>,
    pub starts: Starts,
    pub may: Kinds,
    pub scope: Scope,
    pub policy: Policy,
    pub at_commit: AtCommit,
    pub extent: Extent,
    /// The edges that are formed when a transaction of this class is spawned.
    pub spawn_edges: StartEdges<A>,
    /// The edges that are formed when a transaction of this class is split off.
    pub split_edges: StartEdges<A>,
}

/// The objects and classes of a model, not yet checked.
#[derive(Drop)]
pub struct Parts<A: Allocator> {
    pub objects: Items<Object<A>, A>,
    pub classes: Items<Class<A>, A>,
}

/// A fault in the parts of a model. If there are several, the lowest is reported.
#[derive(Clone, Copy, PartialEq, Eq, Debug)]
pub enum ModelFault {
    /// There is no class.
    NoClass = 1,
    /// There are more than `MOST_CLASSES` classes.
    TooManyClasses = 2,
    /// There are more than `MOST_OBJECTS` objects.
    TooManyObjects = 3,
    /// Two objects, or two classes, have the same name.
    DuplicateName = 4,
    /// A name is not an ASCII letter followed by at most 31 letters, digits or underscores.
    BadName = 5,
    /// A start edge of a class has a kind that limits when a transaction may begin. It would block the start, or come
    /// too late.
    BeginKindAtStart = 6,
    /// A class commits to parents, but its transactions can start without a parent, by a begin or a split.
    HeirWithoutSpawn = 7,
    /// A class has a `Depend` policy with no kind, or with a kind other than CD, AD, WD and TD.
    BadPolicyKind = 8,
}

impl ModelFault {
    /// The number of the fault, from 1 to 8, as the program prints it.
    pub fn number(self) -> u8
        ensures { result ≡ model_fault_number self }
    {
        self as u8
    }
}

/// A checked model: its parts have no fault.
#[derive(Drop)]
pub struct Model<A: Allocator> {
    parts: Parts<A>,
}

impl<A: Allocator> std::marker::Model for Model<A> {
    ghost use Rattle.acta_table.specs.declared.model.Parts.{Parts};

    ghost Value = { Parts A };

    ghost use Rattle.std.specs.Prelude.{◌≡◌, None};
    ghost use Rattle.acta_table.specs.Faults.{lowest_fault};

    ghost view = { λ m. m.parts };

    ghost invariant = { λ m. lowest_fault m.parts ≡ None };
}

// Whether all bytes are letters, digits or underscores.
fn has_name_bytes(name: &[u8]) -> bool
    ensures { result ≡ list_all (λ b. is_ascii_alphanumeric b || (b == 95)) name.now }
{
    name.iter().all(|b| b.is_ascii_alphanumeric() || *b == b'_')
}

/// Whether the bytes are a name: an ASCII letter, then at most 31 letters, digits or underscores.
pub fn is_named_well(name: &[u8]) -> bool
    ensures { result ≡ is_name name.now }
{
    !name.is_empty()
        && name.len() <= LONGEST_NAME
        && name[0].is_ascii_alphabetic()
        && has_name_bytes(name)
}

/// Something that has a name in a model.
trait Named {
    ghost name_of: { Self → List ℕ };

    fn name(&self) -> &[u8]
        ensures { result.now ≡ name_of self.now };
}

impl<A: Allocator> Named for Object<A> {
    ghost name_of = { λ object. object.name };

    fn name(&self) -> &[u8] {
        self.name.as_slice()
    }
}

impl<A: Allocator> Named for Class<A> {
    ghost name_of = { λ class. class.name };

    fn name(&self) -> &[u8] {
        self.name.as_slice()
    }
}

// Whether one of the items has this name.
fn is_name_of_one<T: Named>(name: &[u8], items: &[T]) -> bool
    ensures { result ≡ list_any (bytes_eq name.now) (map T.name_of items.now) }
{
    for item in items {
        if name == item.name() {
            return true;
        }
    }
    false
}

// Whether two of the items have the same name.
fn have_name_twice<T: Named>(items: &[T]) -> bool
    ensures { result ≡ has_twice (map T.name_of items.now) }
{
    let mut rest = items;
    while let [first, others @ ..] = rest {
        if is_name_of_one(first.name(), others) {
            return true;
        }
        rest = others;
    }
    false
}

// Whether all items have well-formed names.
fn are_named_well<T: Named>(items: &[T]) -> bool
    ensures { result ≡ list_all is_name (map T.name_of items.now) }
{
    for item in items {
        if !is_named_well(item.name()) {
            return false;
        }
    }
    true
}

// States the type's invariant: an initial value fits 32 bits.
fn known_first(first: i32)
    ensures { FitsSigned w32 first }
{}

impl Kind {
    // The initial value fits 32 bits.
    fn lemma_invariant(self)
        ensures { HasFirst self }
    {
        match self {
            Kind::Register(first) => known_first(first),
            Kind::Counter(first) => known_first(first),
            Kind::Elements => {}
        }
    }
}

impl<A: Allocator> Class<A> {
    // States the invariants of the class's set-valued fields.
    fn lemma_invariant(&self)
        ensures { HasSets self.now }
    {
        self.may.lemma_invariant();
        self.policy.lemma_invariant();
        self.spawn_edges.as_slice();
        self.split_edges.as_slice();
    }
}

fn known_objects<A: Allocator>(objects: &[Object<A>])
    ensures { All (λ object. HasFirst object.kind) objects.now }
{
    for object in objects {
        object.kind.lemma_invariant();
    }
}

fn known_classes<A: Allocator>(classes: &[Class<A>])
    ensures { All (λ class. HasSets class) classes.now }
{
    for class in classes {
        class.lemma_invariant();
    }
}

fn fault_where(is_there: bool, fault: ModelFault) -> Option<ModelFault>
    ensures { result ≡ fault_if is_there fault }
{
    if is_there { Some(fault) } else { None }
}

// Whether one of the start edges is of a begin kind.
fn has_begin_edge(edges: &[StartEdge]) -> bool
    ensures { result ≡ has_begin_edge edges.now }
{
    edges.iter().any(|edge| edge.kind.is_begin_kind())
}

impl<A: Allocator> Class<A> {
    // Whether a start edge of the class is of a begin kind.
    fn has_begin_kind(&self) -> bool
        ensures { result ≡ has_begin_kind self.now }
    {
        has_begin_edge(self.spawn_edges.as_slice()) || has_begin_edge(self.split_edges.as_slice())
    }

    // Whether the class commits to parents, but its transactions can start without one.
    fn lacks_parents(&self) -> bool
        ensures { result ≡ lacks_parents self.now }
    {
        matches!(self.at_commit, AtCommit::ToParent) && (self.starts.begin || self.starts.split)
    }
}

// Whether a start edge of one of the classes is of a begin kind.
fn have_begin_kinds<A: Allocator>(classes: &[Class<A>]) -> bool
    ensures { result ≡ list_any has_begin_kind classes.now }
{
    classes.iter().any(|class| class.has_begin_kind())
}

// Whether one of the classes commits to parents that its transactions may lack.
fn have_heirless<A: Allocator>(classes: &[Class<A>]) -> bool
    ensures { result ≡ list_any lacks_parents classes.now }
{
    classes.iter().any(|class| class.lacks_parents())
}

// Whether one of the classes has a policy that no model can have.
fn have_bad_policies<A: Allocator>(classes: &[Class<A>]) -> bool
    ensures { result ≡ list_any (λ class. is_bad_policy class.policy) classes.now }
{
    classes.iter().any(|class| class.policy.is_bad())
}

impl<A: Allocator> Parts<A> {
    // The lowest fault.
    fn fault(&self) -> Option<ModelFault>
        ensures { result ≡ lowest_fault self.now }
    {
        let objects = self.objects.as_slice();
        let classes = self.classes.as_slice();
        let is_doubled = have_name_twice(objects) || have_name_twice(classes);
        let is_well_named = are_named_well(objects) && are_named_well(classes);
        let is_begun_late = have_begin_kinds(classes);
        let is_heirless = have_heirless(classes);
        let is_misled = have_bad_policies(classes);
        fault_where(classes.is_empty(), ModelFault::NoClass)
            .or(fault_where(classes.len() > MOST_CLASSES, ModelFault::TooManyClasses))
            .or(fault_where(objects.len() > MOST_OBJECTS, ModelFault::TooManyObjects))
            .or(fault_where(is_doubled, ModelFault::DuplicateName))
            .or(fault_where(!is_well_named, ModelFault::BadName))
            .or(fault_where(is_begun_late, ModelFault::BeginKindAtStart))
            .or(fault_where(is_heirless, ModelFault::HeirWithoutSpawn))
            .or(fault_where(is_misled, ModelFault::BadPolicyKind))
    }
}

impl<A: Allocator> Model<A> {
    /// Checks the parts. Returns the model, or the lowest fault. Allocates nothing.
    pub fn check(parts: Parts<A>) -> Result<Model<A>, ModelFault>
        ensures ok { IfOk result (λ model. model ≡ parts) }
        ensures faultless { OnOk result (lowest_fault parts ≡ None) }
        ensures fault { IfErr result (λ fault. lowest_fault parts ≡ Some fault) }
    {
        match parts.fault() {
            Some(fault) => Err(fault),
            None => Ok(Model { parts }),
        }
    }

    /// States what holds of every model: its parts have no fault, initial values fit 32 bits, each set has only bits
    /// that belong to a kind, and start edges are sorted without repeats. Changes nothing.
    pub fn lemma_invariant(&self)
        ensures { AreOfModel self.now }
    {
        known_objects(self.objects());
        known_classes(self.classes());
    }

    /// The objects, by number from 0.
    pub fn objects(&self) -> &[Object<A>]
        ensures objects { result.now ≡ self.now.objects }
        ensures faultless { lowest_fault self.now ≡ None }
    {
        self.parts.objects.as_slice()
    }

    /// The classes, by number from 0.
    pub fn classes(&self) -> &[Class<A>]
        ensures classes { result.now ≡ self.now.classes }
        ensures faultless { lowest_fault self.now ≡ None }
    {
        self.parts.classes.as_slice()
    }

    /// Whether some class may do form events.
    pub fn may_form(&self) -> bool
        ensures { result ≡ list_any (can_do EventKind.Form) self.now.classes }
    {
        self.classes()
            .iter()
            .any(|class| class.may.has(EventKind::Form))
    }

    /// The object with this number, or `None` if the model has none.
    pub fn object(&self, id: ObjId) -> Option<&Object<A>>
        ensures { option_map (λ object. object.now) result ≡ object_at self.now id.0 }
    {
        self.objects().get(usize::from(id.0))
    }

    /// The class with this number, or `None` if the model has none.
    pub fn class(&self, id: ClassId) -> Option<&Class<A>>
        ensures { option_map (λ class. class.now) result ≡ class_at self.now id.0 }
    {
        self.classes().get(usize::from(id.0))
    }
}

impl<A: Allocator + Copy> Object<A> {
    /// Returns a copy of the object.
    pub fn copy(&self) -> Result<Object<A>, AllocError>
        ensures { IfOk result (λ object. object ≡ self.now) }
    {
        Ok(Object {
            name: self.name.copy()?,
            kind: self.kind,
        })
    }
}

impl<A: Allocator + Copy> Class<A> {
    /// Returns a copy of the class.
    pub fn copy(&self) -> Result<Class<A>, AllocError>
        ensures { IfOk result (λ class. class ≡ self.now) }
    {
        Ok(Class {
            name: self.name.copy()?,
            starts: self.starts,
            may: self.may,
            scope: self.scope,
            policy: self.policy,
            at_commit: self.at_commit,
            extent: self.extent,
            spawn_edges: self.spawn_edges.copy()?,
            split_edges: self.split_edges.copy()?,
        })
    }
}

fn copy_objects<A: Allocator + Copy>(
    alloc: A,
    objects: &[Object<A>],
) -> Result<Items<Object<A>, A>, AllocError>
    ensures { IfOk result (λ copied. copied ≡ objects.now) }
{
    let mut copied = Vec::with_capacity(alloc, objects.len())?;
    for object in objects {
        copied.push(object.copy()?)?;
    }
    Ok(Items::of(copied))
}

fn copy_classes<A: Allocator + Copy>(
    alloc: A,
    classes: &[Class<A>],
) -> Result<Items<Class<A>, A>, AllocError>
    ensures { IfOk result (λ copied. copied ≡ classes.now) }
{
    let mut copied = Vec::with_capacity(alloc, classes.len())?;
    for class in classes {
        copied.push(class.copy()?)?;
    }
    Ok(Items::of(copied))
}

impl<A: Allocator + Copy> Model<A> {
    /// Returns a copy of the model.
    pub fn copy(&self) -> Result<Model<A>, AllocError>
        ensures { IfOk result (λ model. model ≡ self.now) }
    {
        Ok(Model {
            parts: Parts {
                objects: copy_objects(self.parts.objects.allocator(), self.objects())?,
                classes: copy_classes(self.parts.classes.allocator(), self.classes())?,
            },
        })
    }
}
