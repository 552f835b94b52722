//! The search through all orders of steps, level by level: a level has the points that are equally many steps from the root,
//! in the order of their first orders.

ghost use Rattle.std.specs.Prelude.{◌≡◌, ◌≤◌, ◌∷◌, [], length, map, not, option_map, slice_get, IfOk, IfErr, IfSome, OnOk};
ghost use Rattle.acta_explore.specs.Ends.{AreAllEnds, AreAllEndsFrom, CountsPoints, HaveSameOutcome, IsOver};
ghost use Rattle.acta_explore.specs.Equivalence.{AreApart, AreEquivalent};
ghost use Rattle.acta_explore.specs.Outcomes.{outcome};
ghost use Rattle.acta_explore.specs.declared.search.ExploreError.TheVariants as fault;
ghost use Rattle.acta_explore.specs.inside.Keys.{IsKeyOf};
ghost use Rattle.acta_explore.specs.inside.Merging.{AreKeyed, AreOutcomes, HaveOthers, IsCutOff, IsMerged, IsNextLevel, IsPut, points_of};
ghost use Rattle.acta_explore.specs.Points.{start};
ghost use Rattle.acta_explore.specs.inside.Shown.{shown};
ghost use Rattle.acta_explore.specs.inside.Turns.{ends_among, is_nil, successors};

use crate::key::Key;
use crate::outcome::Outcome;
use crate::plan::Plan;
use crate::point::Point;
use crate::watch::Watch;
use acta_machine::Handle;
use acta_script::ProgramLine;
use acta_table::Model;
use indexmap::IndexMap;
use std::alloc::AllocError;
use std::hash::{BuildHasherDefault, FoldHasher};

/// Why there is no answer.
#[derive(Clone, Copy, PartialEq, Eq, Debug)]
pub enum ExploreError {
    /// More points would have to be searched than allowed. Has the numbers of points and ends found so far.
    TooMany { points: u64, ends: usize },
    Memory,
}

impl From<AllocError> for ExploreError {
    ghost from_gives = { λ _ e. e ≡ fault.Memory };

    fn from(_error: AllocError) -> ExploreError {
        ExploreError::Memory
    }
}

// The points of a level, by their keys.
type Level<A> = IndexMap<Key<A>, Point<A>, BuildHasherDefault<FoldHasher>, A>;

// The ends that were found, by their outcomes.
type Ends<A> = IndexMap<Outcome<A>, Point<A>, BuildHasherDefault<FoldHasher>, A>;

// Adds a point to a level, unless the level has one with the same key. Returns whether it was added.
fn put<A: Handle>(
    plan: &Plan<'_, A>,
    level: &mut Level<A>,
    key: Key<A>,
    point: Point<A>,
) -> Result<bool, AllocError>
    requires keyed { AreKeyed plan.now level.old.entries }
    requires key { IsKeyOf plan.now point key }
    ensures keyed { OnOk result (AreKeyed plan.now level.new.entries) }
    ensures put { OnOk result (IsPut (AreEquivalent plan.now) (AreApart plan.now) (points_of level.old.entries) point (points_of level.new.entries)) }
{
    if level.contains_key(&key) {
        drop(key);
        drop(point);
        return Ok(false);
    }
    level.insert(key, point)?;
    Ok(true)
}

// Adds an end, unless there is one with the same outcome.
fn put_end<A: Handle>(
    plan: &Plan<'_, A>,
    ends: &mut Ends<A>,
    found: Outcome<A>,
    point: Point<A>,
) -> Result<(), AllocError>
    requires outcomes { AreOutcomes plan.now ends.old.entries }
    requires found { shown found ≡ outcome plan.now point }
    ensures outcomes { OnOk result (AreOutcomes plan.now ends.new.entries) }
    ensures put { OnOk result (IsPut (HaveSameOutcome plan.now) (HaveOthers plan.now) (points_of ends.old.entries) point (points_of ends.new.entries)) }
{
    if ends.contains_key(&found) {
        drop(found);
        drop(point);
        return Ok(());
    }
    ends.insert(found, point)?;
    Ok(())
}

// Adds the points after each step from a point to the next level. Returns whether there is a step.
fn expand<A: Handle>(
    alloc: A,
    plan: &Plan<'_, A>,
    point: &Point<A>,
    next: &mut Level<A>,
) -> Result<bool, AllocError>
    requires { AreKeyed plan.now next.old.entries }
    ensures keyed { OnOk result (AreKeyed plan.now next.new.entries) }
    ensures merged { OnOk result (IsMerged (AreEquivalent plan.now) (AreApart plan.now) (points_of next.old.entries) (successors plan.now point.now) (points_of next.new.entries)) }
    ensures has_step { IfOk result (λ b. b ≡ not (is_nil (successors plan.now point.now))) }
{
    let done = plan.lines_done(alloc, point.steps())?;
    let turns = plan.turns(alloc, done.as_slice())?;
    let mut has_step = false;
    for turn in &turns {
        let Some(further) = point.stepped(alloc, plan, done.as_slice(), *turn)? else {
            continue;
        };
        let key = Key::of(alloc, plan, &further)?;
        put(plan, next, key, further)?;
        has_step = true;
    }
    Ok(has_step)
}

// Expands a point into the next level, or adds it to the ends if it has no step.
fn settle<A: Handle>(
    alloc: A,
    plan: &Plan<'_, A>,
    point: &Point<A>,
    next: &mut Level<A>,
    ends: &mut Ends<A>,
) -> Result<(), AllocError>
    requires keyed { AreKeyed plan.now next.old.entries }
    requires outcomes { AreOutcomes plan.now ends.old.entries }
    ensures keyed { OnOk result (AreKeyed plan.now next.new.entries) }
    ensures outcomes { OnOk result (AreOutcomes plan.now ends.new.entries) }
    ensures merged { OnOk result (IsMerged (AreEquivalent plan.now) (AreApart plan.now) (points_of next.old.entries) (successors plan.now point.now) (points_of next.new.entries)) }
    ensures ended { OnOk result (IsMerged (HaveSameOutcome plan.now) (HaveOthers plan.now) (points_of ends.old.entries) (ends_among plan.now (point.now ∷ [])) (points_of ends.new.entries)) }
{
    if expand(alloc, plan, point, next)? {
        return Ok(());
    }
    let found = Outcome::of(alloc, plan, point)?;
    put_end(plan, ends, found, point.copy(alloc)?)
}

// The points one step after those of the level. Points of the level without a step are added to the ends. Returns `Err` with
// the number of points found if they are more than `room`, or without a number if memory runs out. `before` points were
// found earlier.
fn next_level<A: Handle, W: Watch>(
    alloc: A,
    plan: &Plan<'_, A>,
    level: &Level<A>,
    ends: &mut Ends<A>,
    before: u64,
    room: usize,
    watch: &mut W,
) -> Result<Level<A>, Option<usize>>
    requires { AreOutcomes plan.now ends.old.entries }
    ensures keyed { IfOk result (λ next. AreKeyed plan.now next.entries) }
    ensures outcomes { OnOk result (AreOutcomes plan.now ends.new.entries) }
    ensures few { IfOk result (λ next. length next.entries ≤ room) }
    ensures level { IfOk result (λ next. IsNextLevel plan.now (points_of level.now.entries) (points_of ends.old.entries) (points_of next.entries) (points_of ends.new.entries)) }
    ensures cut { IfErr result (λ found. IfSome found (λ count. IsCutOff plan.now (points_of level.now.entries) (points_of ends.old.entries) (points_of ends.new.entries) room count)) }
{
    let mut next = IndexMap::new(alloc);
    for index in 0..level.len() {
        let Some((_, point)) = level.get_index(index) else {
            break;
        };
        if settle(alloc, plan, point, &mut next, ends).is_err() {
            drop(next);
            return Err(None);
        }
        let found = next.len();
        watch.found(before.saturating_add(found as u64), ends.len());
        if found > room {
            drop(next);
            return Err(Some(found));
        }
    }
    Ok(next)
}

// The level with only the root.
fn first_level<A: Handle>(
    alloc: A,
    plan: &Plan<'_, A>,
    root: &Point<A>,
) -> Result<Level<A>, AllocError>
    ensures keyed { IfOk result (λ level. AreKeyed plan.now level.entries) }
    ensures level { IfOk result (λ level. points_of level.entries ≡ root.now ∷ []) }
{
    let mut level = IndexMap::new(alloc);
    let point = root.copy(alloc)?;
    let key = Key::of(alloc, plan, &point)?;
    level.insert(key, point)?;
    Ok(level)
}

/// All ways in which programs can end, each once. Contracts see the ends, the outcome of each, and the number of points.
#[derive(Drop)]
pub struct Explored<A: Handle> {
    ends: Ends<A>,
    points: u64,
}

impl<A: Handle> std::marker::Model for Explored<A> {
    ghost use Rattle.std.specs.Prelude.{map};
    ghost use Rattle.acta_explore.specs.Ends.{Found};
    ghost use Rattle.acta_explore.specs.inside.Merging.{outcomes_of, points_of};

    ghost Value = { Found A };

    ghost view = { λ e. record { ends = points_of e.ends.entries; outcomes = outcomes_of e.ends.entries; points = e.points } };
}

impl<A: Handle> Explored<A> {
    /// How many ends there are.
    pub fn len(&self) -> usize
        ensures { result ≡ length self.now.ends }
    {
        self.ends.len()
    }

    /// How many points were searched.
    pub fn points(&self) -> u64
        ensures { result ≡ self.now.points }
    {
        self.points
    }

    /// The end at this place, from 0, in the order of their first orders.
    pub fn end(&self, place: usize) -> Option<&Point<A>>
        ensures { option_map (λ point. point.now) result ≡ slice_get self.now.ends place }
    {
        let (_, point) = self.ends.get_index(place)?;
        Some(point)
    }

    /// The outcome of the end at this place.
    pub fn outcome(&self, place: usize) -> Option<&Outcome<A>>
        ensures { option_map (λ found. shown found.now) result ≡ slice_get self.now.outcomes place }
    {
        let (found, _) = self.ends.get_index(place)?;
        Some(found)
    }
}

/// Every way in which programs can end, in whatever order of their steps, on a new machine on the model. Each outcome is
/// returned once, with the first order that leads to it: the shorter order, and among equally long ones the one whose first
/// different step has the lower seat, then the lower alternative. Returns `TooMany` if more than `most` points would have to
/// be searched. `watch` is called with the progress after all steps from a point were tried.
pub fn explore<A: Handle, W: Watch>(
    alloc: A,
    model: &Model<A>,
    lines: &[ProgramLine<A>],
    most: u32,
    watch: &mut W,
) -> Result<Explored<A>, ExploreError>
    ensures all { IfOk result (λ explored. AreAllEnds lines.now model.now explored.ends) }
    ensures outcomes { IfOk result (λ explored. explored.outcomes ≡ map (outcome lines.now) explored.ends) }
    ensures few { IfOk result (λ explored. explored.points ≤ most) }
    ensures points { IfOk result (λ explored. CountsPoints lines.now (start model.now) explored.points) }
    ensures too_many { IfErr result (λ error. IsOver lines.now (start model.now) most error) }
{
    let start = Point::start(alloc, model)?;
    explore_from(alloc, &start, lines, most, watch)
}

/// Every way in which programs can end from this point, as `explore` finds them for a new machine. `lines` includes the
/// lines that are done at the point: see `Point::after` for the point after a machine's history. Each order begins with the
/// steps of the point.
pub fn explore_from<A: Handle, W: Watch>(
    alloc: A,
    root: &Point<A>,
    lines: &[ProgramLine<A>],
    most: u32,
    watch: &mut W,
) -> Result<Explored<A>, ExploreError>
    ensures all { IfOk result (λ explored. AreAllEndsFrom lines.now root.now explored.ends) }
    ensures outcomes { IfOk result (λ explored. explored.outcomes ≡ map (outcome lines.now) explored.ends) }
    ensures few { IfOk result (λ explored. explored.points ≤ most) }
    ensures points { IfOk result (λ explored. CountsPoints lines.now root.now explored.points) }
    ensures too_many { IfErr result (λ error. IsOver lines.now root.now most error) }
{
    if most == 0 {
        return Err(ExploreError::TooMany { points: 1, ends: 0 });
    }
    root.lemma_numbered();
    let plan = Plan::of(alloc, lines)?;
    let mut level = first_level(alloc, &plan, root)?;
    let mut ends = IndexMap::new(alloc);
    let mut points: u64 = 1;
    while !level.is_empty() {
        let room = most as usize - points as usize;
        level = match next_level(alloc, &plan, &level, &mut ends, points, room, watch) {
            Ok(next) => next,
            Err(Some(found)) => {
                return Err(ExploreError::TooMany {
                    points: points + found as u64,
                    ends: ends.len(),
                });
            }
            Err(None) => return Err(ExploreError::Memory),
        };
        points += level.len() as u64;
    }
    Ok(Explored { ends, points })
}
