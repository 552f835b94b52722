//! The places of a list in parts: each part is judged from a walk of its own.

ghost use Rattle.std.specs.Prelude.{◌≡◌, ◌≤◌, ◌++◌, flat_map, map, IfOk, OnOk};
ghost use Rattle.acta_judge.specs.inside.Parts.{advanced, at_end, faults_ahead, faults_left, together};

use crate::item_faults::report_item;
use acta_axioms::{Fault, Handle, Walk};
use acta_table::Items;
use rayon::prelude::*;
use std::alloc::AllocError;
use std::thread::Threads;

// Advances the walk by this many items, or to the end.
fn skip<'a, A: Handle>(walk: &mut Walk<'a, A>, size: usize) -> Result<(), AllocError>
    ensures { OnOk result (walk.new ≡ advanced size walk.old) }
{
    for _ in 0..size {
        walk.step()?;
    }
    Ok(())
}

// Adds the faults at the next place, if there is one, and advances the walk past it.
fn report_next<'a, A: Handle>(
    walk: &mut Walk<'a, A>,
    faults: &mut Vec<Fault, A>,
) -> Result<(), AllocError>
    ensures reported { OnOk result (faults.new.items ≡ faults.old.items ++ faults_ahead 1 walk.old) }
    ensures walked { OnOk result (walk.new ≡ advanced 1 walk.old) }
{
    let Some(item) = walk.next() else {
        return Ok(());
    };
    report_item(walk, item, faults)?;
    walk.step()
}

// The faults at the next `size` places, or at all that are left, and the walk after them.
fn report_part<'a, A: Handle>(
    alloc: A,
    walk: &mut Walk<'a, A>,
    size: usize,
) -> Result<Items<Fault, A>, AllocError>
    ensures reported { IfOk result (λ reported. reported ≡ faults_ahead size walk.old) }
    ensures walked { OnOk result (walk.new ≡ advanced size walk.old) }
{
    let mut faults = Vec::new(alloc);
    for _ in 0..size {
        report_next(walk, &mut faults)?;
    }
    Ok(Items::of(faults))
}

// The faults at all places left, and the walk at the end.
fn report_rest<'a, A: Handle>(
    alloc: A,
    walk: &mut Walk<'a, A>,
) -> Result<Items<Fault, A>, AllocError>
    ensures reported { IfOk result (λ reported. reported ≡ faults_left walk.old) }
    ensures walked { OnOk result (walk.new ≡ at_end walk.old) }
{
    let left = walk.ahead().len();
    report_part(alloc, walk, left)
}

// A walk at the start of each of the next parts of this size, and the walk itself after them.
fn cut<'a, A: Handle>(
    alloc: A,
    walk: &mut Walk<'a, A>,
    size: usize,
    count: usize,
) -> Result<Vec<Walk<'a, A>, A>, AllocError>
    ensures parts { IfOk result (λ parts. flat_map (faults_ahead size) parts.items ++ faults_left walk.new ≡ faults_left walk.old) }
    ensures whole { OnOk result (at_end walk.new ≡ at_end walk.old) }
{
    let mut parts = Vec::new(alloc);
    for _ in 0..count {
        parts.push(walk.copy()?)?;
        skip(walk, size)?;
    }
    Ok(parts)
}

// The faults at the places of the part at whose start this walk is, found on a copy of it.
fn report_copy<'a, A: Handle>(
    alloc: A,
    walk: &Walk<'a, A>,
    size: usize,
) -> Result<Items<Fault, A>, AllocError>
    ensures { IfOk result (λ reported. reported ≡ faults_ahead size walk.now) }
{
    let mut walk = walk.copy()?;
    report_part(alloc, &mut walk, size)
}

// The faults of each part, found in threads. The walks are borrowed: to move a vector of them into threads would allocate,
// without a way to report a failure.
fn report_parts<'a, A: Handle + Send + Sync, R: Threads + Sync>(
    rt: &R,
    alloc: A,
    parts: &[Walk<'a, A>],
    size: usize,
) -> Result<Vec<Items<Fault, A>, A>, AllocError>
    ensures { IfOk result (λ reported. reported.items ≡ map (faults_ahead size) parts.now) }
{
    match parts
        .par_iter()
        .with_min_len(1)
        .map(
            |walk: &Walk<A>| -> Result<Items<Fault, A>, AllocError>
                ensures { IfOk result (λ reported. reported ≡ faults_ahead size walk.now) }
            { report_copy(alloc, walk, size) },
        )
        .collect::<Result<Vec<Items<Fault, A>, A>, AllocError>>(rt, alloc)
    {
        Ok(reported) => reported,
        Err(error) => Err(error),
    }
}

/// The faults at all places left, and the walk at the end. Threads judge parts of this size if there is more than one;
/// otherwise the walk itself is used.
pub(crate) fn report_places<'a, A: Handle + Send + Sync, R: Threads + Sync>(
    rt: &R,
    alloc: A,
    walk: &mut Walk<'a, A>,
    size: usize,
) -> Result<Vec<Items<Fault, A>, A>, AllocError>
    requires { 1 ≤ size }
    ensures reported { IfOk result (λ reported. together reported.items ≡ faults_left walk.old) }
    ensures walked { OnOk result (walk.new ≡ at_end walk.old) }
{
    let count = walk.ahead().len().div_ceil(size);
    let parts = cut(alloc, walk, size, if count > 1 { count } else { 0 })?;
    let mut reported = report_parts(rt, alloc, parts.as_slice(), size)?;
    reported.push(report_rest(alloc, walk)?)?;
    Ok(reported)
}
