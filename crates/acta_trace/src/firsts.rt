//! The first step for each number: for each transaction the step that began it, for each operation the step that did it.

ghost use Rattle.std.specs.Prelude.{◌≡◌, ◌&&◌, ◌<◌, ◌≤◌, ℕ, [], None, get_or, length, nat_lt, nat_le, IfSome, OnOk};
ghost use Rattle.acta_trace.specs.Steps.{is_number};
ghost use Rattle.acta_trace.specs.inside.Firsts.{forgotten, noted};

use acta_table::lengthen;
use std::alloc::{AllocError, Allocator};

/// For each number the place of a step in the list of steps, from 0.
#[derive(Drop)]
pub(crate) struct Firsts<A: Allocator> {
    pub(crate) places: Vec<Option<usize>, A>,
}

impl<A: Allocator> Firsts<A> {
    /// No number has a step. Does not allocate.
    pub(crate) fn new(alloc: A) -> Firsts<A>
        ensures { result.places.items ≡ [] }
    {
        Firsts {
            places: Vec::new(alloc),
        }
    }

    /// Makes room for the number, if one is given. Returns `Err` also if no list can be that long.
    pub(crate) fn make_room(&mut self, number: Option<usize>) -> Result<(), AllocError>
        ensures same { (n : ℕ) → get_or self.new.places.items n None ≡ get_or self.old.places.items n None }
        ensures room { OnOk result (IfSome number (λ n. n < length self.new.places.items)) }
    {
        let Some(number) = number else {
            return Ok(());
        };
        match number.checked_add(1) {
            Some(count) => lengthen(&mut self.places, count, None),
            None => Err(AllocError),
        }
    }

    /// Notes the step at this place for the number, if one is given and has no step yet.
    pub(crate) fn note(&mut self, number: Option<usize>, place: usize)
        requires { IfSome number (λ n. n < length self.old.places.items) }
        ensures noted { (n : ℕ) → get_or self.new.places.items n None ≡ noted (is_number number) self.old.places.items place n }
        ensures room { length self.new.places.items ≡ length self.old.places.items }
    {
        let Some(number) = number else {
            return;
        };
        if self.places[number].is_none() {
            self.places[number] = Some(place);
        }
    }

    /// Notes the step at this place for each number after `first` and up to `last` that has no step yet.
    pub(crate) fn note_all(&mut self, first: usize, last: usize, place: usize)
        requires { last < length self.old.places.items }
        ensures noted { (n : ℕ) → get_or self.new.places.items n None ≡ noted (λ n. nat_lt first n && nat_le n last) self.old.places.items place n }
        ensures room { length self.new.places.items ≡ length self.old.places.items }
    {
        if last <= first {
            return;
        }
        for number in first + 1..last + 1 {
            self.note(Some(number), place);
        }
    }

    /// Forgets the step at this place for the number, if one is given and this is its step.
    pub(crate) fn forget(&mut self, number: Option<usize>, place: usize)
        ensures forgotten { (n : ℕ) → get_or self.new.places.items n None ≡ forgotten (is_number number) self.old.places.items place n }
    {
        let Some(number) = number else {
            return;
        };
        if self.at(number) == Some(place) {
            self.places[number] = None;
        }
    }

    /// Forgets the step at this place for each number after `first` and up to `last`.
    pub(crate) fn forget_all(&mut self, first: usize, last: usize, place: usize)
        ensures forgotten { (n : ℕ) → get_or self.new.places.items n None ≡ forgotten (λ n. nat_lt first n && nat_le n last) self.old.places.items place n }
    {
        if last <= first {
            return;
        }
        for number in first..last {
            self.forget(Some(number + 1), place);
        }
    }

    /// The place of the step for the number.
    pub(crate) fn at(&self, number: usize) -> Option<usize>
        ensures { result ≡ get_or self.now.places.items number None }
    {
        match self.places.get(number) {
            Some(place) => *place,
            None => None,
        }
    }
}
