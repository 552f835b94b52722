//! Searches through all orders of the steps of programs, which succeed, and give up in time.

mod circles;

use crate::expecting::{holds, made, same};
use crate::models::model_of;
use acta_explore::{ExploreError, explore};
use acta_machine::Handle;
use acta_models::Standard;
use acta_script::{ProgramLine, read_program_line};
use acta_table::Model;
use std::alloc::Allocator;
use std::process::Abort;

/// The programs of these lines.
pub fn programs_of<A: Allocator + Copy>(
    rt: &impl Abort,
    alloc: A,
    model: &Model<A>,
    lines: &str,
) -> Vec<ProgramLine<A>, A> {
    let mut programs = Vec::new(alloc);
    for line in lines.lines() {
        let read = read_program_line(alloc, model, 4, line.as_bytes());
        made(rt, programs.push(made(rt, read, line)), line);
    }
    programs
}

// The number of points of a search; `None` if there are more than `most`.
fn points_within<A: Handle>(
    rt: &impl Abort,
    alloc: A,
    (model, programs): (&Model<A>, &[ProgramLine<A>]),
    most: u32,
) -> Option<u64> {
    match explore(alloc, model, programs, most, &mut ()) {
        Ok(explored) => {
            let points = explored.points();
            drop(explored);
            Some(points)
        }
        Err(ExploreError::TooMany { points, .. }) => {
            holds(rt, points > u64::from(most), "too many points");
            None
        }
        Err(ExploreError::Memory) => rt.panic("no memory"),
    }
}

// Programs without lines, and one that waits at once, have one end.
#[test]
fn nothing_to_do(rt: HostRuntime) {
    let model = model_of(&rt, rt.alloc(), Standard::Atomic.text());
    for lines in ["", "1 commit 1", "1 commit 1 | begin 1 flat"] {
        let programs = programs_of(&rt, rt.alloc(), &model, lines);
        let explored = explore(rt.alloc(), &model, programs.as_slice(), 2, &mut ());
        same(&rt, &made(&rt, explored, lines).len(), &1, lines);
        drop(programs);
    }
    drop(model);
}

/// Four registers, and transactions that refuse conflicts.
pub const FOUR: &str = "\
object x1 register 0
object x2 register 0
object x3 register 0
object x4 register 0
class flat
starts begin
may operate commit abort
scope others
policy refuse
commit keeps
delegation whole
end
";

const APART: &str = "\
1 begin 1 flat
1 do 1 x1 write 5
1 do 1 x1 read
1 commit 1
2 begin 2 flat
2 do 2 x2 write 6
2 do 2 x2 read
2 commit 2
3 begin 3 flat
3 do 3 x3 write 7
3 do 3 x3 read
3 commit 3
4 begin 4 flat
4 do 4 x4 write 8
4 do 4 x4 read
4 commit 4";

// Four programs without common objects have 63,063,000 orders, all through the same 5 * 5 * 5 * 5 points.
#[test]
fn orders_that_merge(rt: HostRuntime) {
    let model = model_of(&rt, rt.alloc(), FOUR);
    let programs = programs_of(&rt, rt.alloc(), &model, APART);
    let explored = explore(rt.alloc(), &model, programs.as_slice(), 625, &mut ());
    let explored = made(&rt, explored, "a search");
    same(&rt, &(explored.points(), explored.len()), &(625, 1), APART);
    let end = explored.end(0).expect(&rt, APART);
    for place in 0..end.steps().len() {
        same(&rt, &end.steps()[place].line, &place, APART);
    }
    drop(explored);
    drop(programs);
    drop(model);
}

// If no point is allowed, the first one is too many.
#[test]
fn no_points(rt: HostRuntime) {
    let model = model_of(&rt, rt.alloc(), FOUR);
    let programs = programs_of(&rt, rt.alloc(), &model, APART);
    for most in [0u32, 1, 5, 624] {
        let searched = (&model, programs.as_slice());
        let found = points_within(&rt, rt.alloc(), searched, most);
        same(&rt, &found, &None, APART);
    }
    drop(programs);
    drop(model);
}
