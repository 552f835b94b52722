ghost use Rattle.std.specs.Prelude.{◌≡◌, ◌<◌, ◌++◌, ◌∷◌, true, [], length, IfOk, IfSome, OnOk};
ghost use Rattle.std.specs.List.{Contains};
ghost use Rattle.acta_objects.specs.Objects.{first_state};
ghost use Rattle.acta_order.specs.Memos.{Grows, IsPut, IsShared};

use acta_objects::{Members, ObjectState};
use acta_table::Kind;
use std::alloc::{AllocError, Allocator};

// How many chains a hash table has.
const CHAINS: usize = 524_288;

// A place that has no entry.
const NONE: u32 = u32::MAX;

/// An object and its value, which differs from the first.
#[derive(Drop)]
pub(crate) struct Changed<A: Allocator> {
    pub(crate) place: usize,
    pub(crate) state: ObjectState<A>,
}

// The part of a state that many states share: all marks after the first 64, and the values that differ from the first.
#[derive(Drop)]
pub(crate) struct Shared<A: Allocator> {
    rest: Vec<u64, A>,
    changes: Vec<Changed<A>, A>,
}

impl<A: Allocator> std::marker::Model for Shared<A> {
    ghost use Rattle.acta_order.specs.Remembered.{Common};

    ghost Value = { Common A };

    ghost view = { λ s. record { rest = s.rest.items; changes = s.changes.items } };
}

// A remembered state: its first 64 marks, and the place of its shared part.
#[derive(Clone, Copy)]
pub(crate) struct Entry {
    pub(crate) word: u64,
    pub(crate) shared: u32,
}

// A hash table of places. Nothing is promised about it: a place that is found is always compared with the state sought.
#[derive(Drop)]
pub(crate) struct Chains<A: Allocator> {
    links: Vec<u32, A>,
    heads: Vec<u32, A>,
}

// The states from which the search found no order. Each shared part is stored once.
#[derive(Drop)]
pub(crate) struct Memo<A: Allocator> {
    entries: Vec<Entry, A>,
    by_state: Chains<A>,
    shared: Vec<Shared<A>, A>,
    by_shared: Chains<A>,
}

impl<A: Allocator> std::marker::Model for Memo<A> {
    ghost use Rattle.std.specs.Prelude.{List};
    ghost use Rattle.acta_order.specs.Remembered.{Remembered, AreShared, remembered};

    ghost Value = { List (Remembered A) };

    ghost view = { λ m. remembered m.shared.items m.entries.items };

    ghost invariant = { λ m. AreShared m.shared.items m.entries.items };
}

// The elements of a set, in ascending order.
fn elements_of<A: Allocator + Copy>(
    alloc: A,
    members: &Members<A>,
) -> Result<Vec<i32, A>, AllocError>
    ensures { IfOk result (λ elements. elements.items ≡ members.now) }
{
    members.items().copied().collect(alloc)
}

// Whether two lists of numbers are equal. Here and below, only `true` is promised to be right: a wrong `false` costs time
// only.
fn are_same_numbers(a: &[i32], b: &[i32]) -> bool
    ensures { result ≡ true → a.now ≡ b.now }
{
    a == b
}

// Whether two lists of words are equal.
fn are_same_words(a: &[u64], b: &[u64]) -> bool
    ensures { result ≡ true → a.now ≡ b.now }
{
    a == b
}

// Whether two sets are equal.
fn is_same_set<A: Allocator + Copy>(
    alloc: A,
    a: &Members<A>,
    b: &Members<A>,
) -> Result<bool, AllocError>
    ensures { IfOk result (λ yes. yes ≡ true → a.now ≡ b.now) }
{
    let xs = elements_of(alloc, a)?;
    let ys = elements_of(alloc, b)?;
    Ok(are_same_numbers(&xs, &ys))
}

// Whether two values are equal.
fn is_same_state<A: Allocator + Copy>(
    alloc: A,
    a: &ObjectState<A>,
    b: &ObjectState<A>,
) -> Result<bool, AllocError>
    ensures { IfOk result (λ yes. yes ≡ true → a.now ≡ b.now) }
{
    match (a, b) {
        (ObjectState::Register(v), ObjectState::Register(w)) => Ok(*v == *w),
        (ObjectState::Counter(v), ObjectState::Counter(w)) => Ok(*v == *w),
        (ObjectState::Elements(v), ObjectState::Elements(w)) => is_same_set(alloc, v, w),
        _ => Ok(false),
    }
}

// Whether two objects are the same and have the same value.
fn is_same_change<A: Allocator + Copy>(
    alloc: A,
    a: &Changed<A>,
    b: &Changed<A>,
) -> Result<bool, AllocError>
    ensures { IfOk result (λ yes. yes ≡ true → a.now ≡ b.now) }
{
    if a.place == b.place {
        is_same_state(alloc, &a.state, &b.state)
    } else {
        Ok(false)
    }
}

// Whether two lists of objects with their values are equal.
fn are_same_changes<A: Allocator + Copy>(
    alloc: A,
    a: &[Changed<A>],
    b: &[Changed<A>],
) -> Result<bool, AllocError>
    ensures { IfOk result (λ yes. yes ≡ true → a.now ≡ b.now) }
{
    if a.len() != b.len() {
        return Ok(false);
    }
    for i in 0..a.len() {
        if !is_same_change(alloc, &a[i], &b[i])? {
            return Ok(false);
        }
    }
    Ok(true)
}

/// Whether the value is the first value of an object of this kind.
pub(crate) fn is_first<A: Allocator>(kind: &Kind, state: &ObjectState<A>) -> bool
    ensures { result ≡ true → state.now ≡ first_state kind.now }
{
    match (kind, state) {
        (Kind::Register(v), ObjectState::Register(w)) => *v == *w,
        (Kind::Counter(v), ObjectState::Counter(w)) => i64::from(*v) == *w,
        (Kind::Elements, ObjectState::Elements(members)) => members.len() == 0,
        _ => false,
    }
}

// A hash with one number more.
fn mixed(hash: u64, number: u64) -> u64 {
    (hash ^ number)
        .wrapping_mul(0x9E37_79B9_7F4A_7C15)
        .rotate_left(29)
}

// A hash with one value more.
fn state_hash<A: Allocator + Copy>(
    alloc: A,
    hash: u64,
    state: &ObjectState<A>,
) -> Result<u64, AllocError> {
    let mut all = hash;
    match state {
        ObjectState::Register(v) => all = mixed(all, v.unsigned_abs() as u64),
        ObjectState::Counter(v) => all = mixed(all, v.unsigned_abs()),
        ObjectState::Elements(members) => {
            let elements = elements_of(alloc, members)?;
            for x in &elements {
                all = mixed(all, x.unsigned_abs() as u64);
            }
            all = mixed(all, 7);
        }
    }
    Ok(all)
}

// The hash of a shared part.
fn shared_hash<A: Allocator + Copy>(
    alloc: A,
    rest: &[u64],
    changes: &[Changed<A>],
) -> Result<u64, AllocError> {
    let mut all = 1u64;
    for word in rest {
        all = mixed(all, *word);
    }
    for change in changes {
        all = state_hash(alloc, mixed(all, change.place as u64), &change.state)?;
    }
    Ok(mixed(all, 3))
}

// The hash of an entry.
fn entry_hash(word: u64, shared: u32) -> u64 {
    mixed(mixed(5, word), u64::from(shared))
}

// The chain of a hash.
fn chain_of(hash: u64) -> usize {
    ((hash ^ (hash >> 32)) % CHAINS as u64) as usize
}

impl<A: Allocator + Copy> Chains<A> {
    fn new(alloc: A) -> Chains<A> {
        Chains {
            links: Vec::new(alloc),
            heads: Vec::new(alloc),
        }
    }

    // The first place in the chain of a hash.
    fn first(&self, hash: u64) -> u32 {
        match self.heads.get(chain_of(hash)) {
            Some(head) => *head,
            None => NONE,
        }
    }

    // The next place in the same chain.
    fn next(&self, place: u32) -> u32 {
        match self.links.get(place as usize) {
            Some(link) => *link,
            None => NONE,
        }
    }

    // Puts a place in front of the chain of a hash.
    fn put(&mut self, alloc: A, hash: u64, place: u32) -> Result<(), AllocError> {
        if self.heads.is_empty() {
            let none = NONE;
            self.heads = vec![in alloc; none; CHAINS]?;
        }
        let chain = chain_of(hash);
        if chain < self.heads.len() {
            let head = self.heads[chain];
            self.links.push(head)?;
            self.heads[chain] = place;
        }
        Ok(())
    }
}

impl<A: Allocator + Copy> Shared<A> {
    // Whether the shared part consists of these.
    fn is(&self, alloc: A, rest: &[u64], changes: &[Changed<A>]) -> Result<bool, AllocError>
        ensures { IfOk result (λ yes. yes ≡ true → self.now ≡ record { rest = rest.now; changes = changes.now }) }
    {
        if are_same_words(&self.rest, rest) {
            are_same_changes(alloc, &self.changes, changes)
        } else {
            Ok(false)
        }
    }
}

// The place of a shared part, if it is found.
fn shared_at<A: Allocator + Copy>(
    alloc: A,
    shared: &[Shared<A>],
    chains: &Chains<A>,
    rest: &[u64],
    changes: &[Changed<A>],
) -> Result<Option<u32>, AllocError>
    ensures { IfOk result (λ place. IfSome place (IsShared shared.now rest.now changes.now)) }
{
    let mut place = chains.first(shared_hash(alloc, rest, changes)?);
    for _ in 0..shared.len() {
        let Some(one) = shared.get(place as usize) else {
            return Ok(None);
        };
        if one.is(alloc, rest, changes)? {
            return Ok(Some(place));
        }
        place = chains.next(place);
    }
    Ok(None)
}

// The place of a shared part, which is added if it is not found. `None` if the table is full.
fn share<A: Allocator + Copy>(
    alloc: A,
    shared: &mut Vec<Shared<A>, A>,
    chains: &mut Chains<A>,
    rest: Vec<u64, A>,
    changes: Vec<Changed<A>, A>,
) -> Result<Option<u32>, AllocError>
    ensures grows { Grows shared.old.items shared.new.items }
    ensures there { IfOk result (λ place. IfSome place (IsShared shared.new.items rest.items changes.items)) }
{
    let found = shared_at(alloc, shared, chains, &rest, &changes)?;
    if found.is_some() {
        return Ok(found);
    }
    let place = shared.len();
    if place >= NONE as usize {
        return Ok(None);
    }
    chains.put(alloc, shared_hash(alloc, &rest, &changes)?, place as u32)?;
    shared.push(Shared { rest, changes })?;
    Ok(Some(place as u32))
}

// Whether the entry is found.
fn has_entry<A: Allocator + Copy>(
    entries: &[Entry],
    chains: &Chains<A>,
    word: u64,
    shared: u32,
) -> bool
    ensures { result ≡ true → Contains entries.now (record { word = word; shared = shared }) }
{
    let mut place = chains.first(entry_hash(word, shared));
    for _ in 0..entries.len() {
        let Some(entry) = entries.get(place as usize) else {
            return false;
        };
        if entry.word == word && entry.shared == shared {
            return true;
        }
        place = chains.next(place);
    }
    false
}

impl<A: Allocator + Copy> Memo<A> {
    /// A memory of no state.
    pub(crate) fn new(alloc: A) -> Memo<A>
        ensures { result ≡ [] }
    {
        Memo {
            entries: Vec::new(alloc),
            by_state: Chains::new(alloc),
            shared: Vec::new(alloc),
            by_shared: Chains::new(alloc),
        }
    }

    /// Whether no state is remembered.
    pub(crate) fn is_empty(&self) -> bool {
        self.entries.is_empty()
    }

    /// Whether the state is remembered.
    pub(crate) fn has(
        &self,
        alloc: A,
        word: u64,
        rest: &[u64],
        changes: &[Changed<A>],
    ) -> Result<bool, AllocError>
        ensures { IfOk result (λ yes. yes ≡ true → Contains self.now (record { words = word ∷ rest.now; changes = changes.now })) }
    {
        match shared_at(alloc, &self.shared, &self.by_shared, rest, changes)? {
            Some(shared) => Ok(has_entry(&self.entries, &self.by_state, word, shared)),
            None => Ok(false),
        }
    }

    /// Remembers a state, unless a table is full.
    pub(crate) fn put(
        &mut self,
        alloc: A,
        word: u64,
        rest: Vec<u64, A>,
        changes: Vec<Changed<A>, A>,
    ) -> Result<(), AllocError>
        ensures { OnOk result (IsPut self.old self.new (record { words = word ∷ rest.items; changes = changes.items })) }
    {
        let Some(shared) = share(alloc, &mut self.shared, &mut self.by_shared, rest, changes)?
        else {
            return Ok(());
        };
        let place = self.entries.len();
        if place >= NONE as usize {
            return Ok(());
        }
        self.by_state
            .put(alloc, entry_hash(word, shared), place as u32)?;
        self.entries.push(Entry { word, shared })?;
        Ok(())
    }
}
