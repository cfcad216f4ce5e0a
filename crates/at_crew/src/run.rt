//! A whole job, run by as many threads as are asked for.

ghost use Rattle.std.specs.Prelude.{◌≡◌, ◌<◌, ◌≤◌, All, IfOk, length};
ghost use Rattle.at_crew.specs.Nodes.{IsBlockCount};
ghost use Rattle.at_crew.specs.Shown.{IsReady, IsDone, job_of};

use crate::crew::{Closed, Crew};
use crate::gate::Gate;
use crate::job::Job;
use crate::pass::Pass;
use at_text::Memory;
use std::alloc::Global;
use std::thread;
use std::thread::Threads;

/// The part of all blocks of the job, by so many passes at once, each in a thread of its own where threads can be made.
///
/// The conditions are those of [`Crew::new`]. `Memory` comes where the crew or the row of passes finds no room.
pub fn run_crew<J: Job, G: Gate, R: Threads + Sync>(
    rt: &R,
    alloc: Global,
    job: &J,
    blocks: u32,
    passes: u32,
    gate: &G,
) -> Result<J::Part, Memory>
    requires size { IsBlockCount blocks }
    requires count { blocks ≡ J.count (J.facts job.now) }
    requires passes { (0 < passes) × (passes ≤ 64) }
    ensures { IfOk result (λ x. J.stands (J.facts job.now) x 0 blocks) }
{
    let (crew, mut chief) = Crew::new(alloc, job, blocks, passes)?;
    let mut row = Vec::with_capacity(alloc, passes as usize)?;
    for _ in 0..passes {
        row.push_reserved(chief.pass(&crew));
    }
    let work = Work {
        crew: &crew,
        alloc,
        job,
        gate,
    };
    work_all(rt, &work, row.as_mut_slice());
    while let Some(pass) = row.pop() {
        chief.take_back(&crew, pass);
    }
    let Closed { whole, .. } = crew.close(chief);
    Ok(whole)
}

/// What each pass works with.
#[derive(Drop)]
struct Work<'a, J: Job, G: Gate> {
    crew: &'a Crew<J>,
    alloc: Global,
    job: &'a J,
    gate: &'a G,
}

// All passes of a row work at once, until each is over.
fn work_all<J: Job, G: Gate, R: Threads + Sync>(rt: &R, work: &Work<J, G>, row: &mut [Pass<J>])
    requires some { 0 < length row.old }
    requires facts { J.facts work.now.job.now ≡ J.facts (job_of work.now.crew.now) }
    requires ready { All (IsReady work.now.crew.now) row.old }
    ensures { All (IsDone work.now.crew.now) row.new }
{
    let threads = row.len();
    thread::for_each_mut(
        rt,
        row,
        threads,
        &|_: usize, pass: &mut Pass<J>|
            requires { IsReady work.now.crew.now pass.now
                × (J.facts work.now.job.now ≡ J.facts (job_of work.now.crew.now)) }
            ensures { IsDone work.entry.now.crew.now pass.exit.now }
        { work.crew.work(work.alloc, work.job, pass, work.gate) },
    );
}
