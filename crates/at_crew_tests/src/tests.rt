//! Crews of few blocks, step by step and by many threads.

ghost use Rattle.std.specs.Prelude.{◌≡◌, ℕ, ◌+◌, ◌-◌, ◌<◌, ◌≤◌, [], Some, None, false, true};
ghost use Rattle.at_crew.specs.Nodes.{IsBlockCount};
ghost use Rattle.at_crew.specs.Shown.{IsPassOf, IsReady, job_of, blocks_of, block_held, has_ended};

use at_crew::{Chief, Closed, Crew, Free, Gate, Job, Pass, run_crew};
use at_text::Memory;
use std::alloc::Global;
use std::process::Abort;
use std::sync::atomic::{AtomicU64, Ordering};
use std::test::Fail;
use std::thread::Threads;

// A part is the number of its blocks.
#[derive(Drop)]
struct Counting {
    blocks: u32,
}

impl Job for Counting {
    type Part = u64;

    type Facts = u32;

    ghost facts = { λ j. j.blocks };

    ghost count = { λ f. f };

    ghost stands = { λ f x a b. (a ≤ b) × (b ≤ f) × (f < 4294967296) × (x ≡ b - a) };

    fn run(&self, _alloc: Global, _block: u32) -> u64 {
        let _blocks = self.blocks;
        1
    }

    fn merge(&self, _alloc: Global, left: u64, right: u64) -> u64 {
        left + right
    }
}

// A part is a text with a letter for each block, or none for want of memory. Left and right can't be exchanged.
#[derive(Drop)]
struct Spelling {
    blocks: u32,
}

impl Job for Spelling {
    type Part = Option<String>;

    type Facts = u32;

    ghost facts = { λ j. j.blocks };

    ghost count = { λ f. f };

    ghost stands = { λ f x a b. (a ≤ b) × (b ≤ f) };

    fn run(&self, alloc: Global, block: u32) -> Option<String> {
        let mut text = String::new(alloc);
        text.push((b'a' + (block % 26) as u8) as char).ok()?;
        Some(text)
    }

    fn merge(&self, _alloc: Global, left: Option<String>, right: Option<String>) -> Option<String> {
        let mut text = left?;
        text.push_str(right?.as_str()).ok()?;
        Some(text)
    }
}

// The pass claims this block.
fn claims<J: Job>(rt: &impl Abort, crew: &Crew<J>, pass: &mut Pass<J>, block: u32)
    requires { IsReady crew.now pass.old }
    ensures pass { IsPassOf crew.now pass.new × (has_ended pass.new ≡ false) }
    ensures holds { (block_held pass.new ≡ Some block) × (block < blocks_of crew.now) }
    ensures count { J.count (J.facts (job_of crew.now)) ≡ blocks_of crew.now }
{
    let Some(claimed) = crew.claim(pass) else {
        panic!(rt; "no block is left")
    };
    assert!(rt; claimed == block, "block {block} is claimed");
    assert!(rt; pass.last() == Some(block), "block {block} is the last");
}

/// No block is left to the pass, which is over.
fn claims_none<J: Job>(rt: &impl Abort, crew: &Crew<J>, pass: &mut Pass<J>)
    requires { IsReady crew.now pass.old }
    ensures pass { IsPassOf crew.now pass.new }
    ensures over { has_ended pass.new ≡ true }
{
    let None = crew.claim(pass) else {
        panic!(rt; "no block is left")
    };
}

// The pass runs the block that it holds, and its part is merged at so many nodes.
fn settles<J: Job>(
    rt: &impl Abort,
    alloc: Global,
    crew: &Crew<J>,
    job: &J,
    pass: &mut Pass<J>,
    merges: u32,
)
    requires pass { IsPassOf crew.now pass.old × (has_ended pass.old ≡ false) }
    requires holds { (n : ℕ) × (block_held pass.old ≡ Some n) × (n < J.count (J.facts job.now)) }
    requires job { J.facts job.now ≡ J.facts (job_of crew.now) }
    ensures { IsReady crew.now pass.new }
{
    let Some(block) = pass.holding() else {
        unreachable!()
    };
    let part = job.run(alloc, block);
    let merged = crew.settle(alloc, job, pass, part);
    assert!(rt; merged == merges, "merges of block {block}");
}

// The chief has so many passes left to make, and so many away.
fn counts<J: Job>(chief: &Chief<J>, left: u32, away: u32) -> bool {
    chief.left() == left && chief.away() == away
}

/// Four blocks by one pass: what each call answers, and the whole.
#[test]
fn one_pass_over_four_blocks(rt: HostRuntime) -> Result<(), Fail> {
    let alloc = rt.alloc();
    let job = Counting { blocks: 4 };
    let (crew, mut chief) = Crew::new(alloc, &job, 4, 1)?;
    assert!(rt; counts(&chief, 1, 0));
    let mut pass = chief.pass(&crew);
    assert!(rt; counts(&chief, 0, 1));
    assert!(rt; pass.last().is_none() && pass.holding().is_none());
    claims(&rt, &crew, &mut pass, 0);
    assert!(rt; pass.holding() == Some(0));
    settles(&rt, alloc, &crew, &job, &mut pass, 0);
    assert!(rt; pass.holding().is_none());
    claims(&rt, &crew, &mut pass, 1);
    settles(&rt, alloc, &crew, &job, &mut pass, 1);
    claims(&rt, &crew, &mut pass, 2);
    settles(&rt, alloc, &crew, &job, &mut pass, 0);
    claims(&rt, &crew, &mut pass, 3);
    settles(&rt, alloc, &crew, &job, &mut pass, 2);
    assert!(rt; !pass.is_over());
    claims_none(&rt, &crew, &mut pass);
    assert!(rt; pass.is_over() && pass.last() == Some(4));
    chief.take_back(&crew, pass);
    assert!(rt; counts(&chief, 0, 0));
    assert!(rt; crew.close(chief).whole == 4);
    Ok(())
}

/// One block: there is no inner node.
#[test]
fn one_pass_over_one_block(rt: HostRuntime) -> Result<(), Fail> {
    let alloc = rt.alloc();
    let job = Counting { blocks: 1 };
    let (crew, mut chief) = Crew::new(alloc, &job, 1, 64)?;
    let mut pass = chief.pass(&crew);
    claims(&rt, &crew, &mut pass, 0);
    settles(&rt, alloc, &crew, &job, &mut pass, 0);
    claims_none(&rt, &crew, &mut pass);
    chief.take_back(&crew, pass);
    assert!(rt; crew.close(chief).whole == 1);
    Ok(())
}

/// Eight blocks by two passes in turn, as the figure of docs/CREW.md has it.
#[test]
fn two_passes_over_eight_blocks(rt: HostRuntime) -> Result<(), Fail> {
    let alloc = rt.alloc();
    let job = Spelling { blocks: 8 };
    let (crew, mut chief) = Crew::new(alloc, &job, 8, 2)?;
    let mut a = chief.pass(&crew);
    let mut b = chief.pass(&crew);
    claims(&rt, &crew, &mut a, 0);
    claims(&rt, &crew, &mut b, 1);
    settles(&rt, alloc, &crew, &job, &mut b, 0);
    claims(&rt, &crew, &mut b, 2);
    settles(&rt, alloc, &crew, &job, &mut a, 1);
    claims(&rt, &crew, &mut a, 3);
    settles(&rt, alloc, &crew, &job, &mut b, 0);
    claims(&rt, &crew, &mut b, 4);
    settles(&rt, alloc, &crew, &job, &mut a, 2);
    claims(&rt, &crew, &mut a, 5);
    settles(&rt, alloc, &crew, &job, &mut a, 0);
    claims(&rt, &crew, &mut a, 6);
    settles(&rt, alloc, &crew, &job, &mut b, 1);
    claims(&rt, &crew, &mut b, 7);
    settles(&rt, alloc, &crew, &job, &mut b, 0);
    crew.work(alloc, &job, &mut b, &Free);
    settles(&rt, alloc, &crew, &job, &mut a, 3);
    crew.work(alloc, &job, &mut a, &Free);
    assert!(rt; b.last() == Some(8) && a.last() == Some(9));
    chief.take_back(&crew, a);
    chief.take_back(&crew, b);
    let Closed { whole, .. } = crew.close(chief);
    let Some(text) = whole else {
        return Err(Memory.into());
    };
    assert!(rt; text.as_str() == "abcdefgh");
    Ok(())
}

// The whole of a job that counts.
fn counted<R: Threads + Sync>(
    rt: &R,
    alloc: Global,
    blocks: u32,
    passes: u32,
) -> Result<bool, Memory>
    requires size { IsBlockCount blocks }
    requires passes { (0 < passes) × (passes ≤ 64) }
{
    let whole = run_crew(rt, alloc, &Counting { blocks }, blocks, passes, &Free)?;
    Ok(whole == blocks as u64)
}

// The whole of a job that spells 64 letters.
fn spelt<R: Threads + Sync>(rt: &R, alloc: Global, passes: u32) -> Result<bool, Memory>
    requires passes { (0 < passes) × (passes ≤ 64) }
{
    let whole = run_crew(rt, alloc, &Spelling { blocks: 64 }, 64, passes, &Free)?;
    let Some(text) = whole else {
        return Err(Memory);
    };
    Ok(text.as_str() == "abcdefghijklmnopqrstuvwxyzabcdefghijklmnopqrstuvwxyzabcdefghijkl")
}

/// The whole counts the blocks, with fewer passes than blocks and with more.
#[test]
fn any_number_of_passes(rt: HostRuntime) -> Result<(), Fail> {
    assert!(rt; counted(&rt, rt.alloc(), 1, 1)?, "one block by one pass");
    assert!(rt; counted(&rt, rt.alloc(), 1, 64)?, "one block by 64 passes");
    assert!(rt; counted(&rt, rt.alloc(), 2, 64)?, "2 blocks by 64 passes");
    assert!(rt; counted(&rt, rt.alloc(), 64, 3)?, "64 blocks by 3 passes");
    assert!(rt;
        counted(&rt, rt.alloc(), 4096, 64)?,
        "4096 blocks by 64 passes"
    );
    assert!(rt; !Free.gives_up(0));
    Ok(())
}

/// The whole orders the blocks, with fewer passes than blocks and with as many.
#[test]
fn any_number_of_passes_in_order(rt: HostRuntime) -> Result<(), Fail> {
    assert!(rt; spelt(&rt, rt.alloc(), 1)?, "by one pass");
    assert!(rt; spelt(&rt, rt.alloc(), 2)?, "by 2 passes");
    assert!(rt; spelt(&rt, rt.alloc(), 7)?, "by 7 passes");
    assert!(rt; spelt(&rt, rt.alloc(), 64)?, "by 64 passes");
    Ok(())
}

// It counts how often each of two blocks is entered, and holds block 0 until block 1 was entered, for some time.
#[derive(Drop)]
struct Held {
    entries: [AtomicU64; 2],
    gave_up_waiting: AtomicU64,
}

impl Held {
    fn sees_block_1(&self) -> bool {
        for _ in 0..100_000_000u64 {
            if self.entries[1].load(Ordering::SeqCst) > 0 {
                return true;
            }
        }
        false
    }
}

impl Gate for Held {
    ghost given_up = { λ _. [] };

    fn enter(&self, block: u32) {
        if block < 2 {
            self.entries[block as usize].fetch_add(1, Ordering::SeqCst);
        }
        if block == 0 && !self.sees_block_1() {
            self.gave_up_waiting.store(1, Ordering::SeqCst);
        }
    }

    fn gives_up(&self, _block: u32) -> bool {
        false
    }
}

// Whether each of two blocks was entered once, and neither waited too long.
fn was_entered_once(gate: &Held) -> bool {
    gate.entries[0].load(Ordering::SeqCst) == 1
        && gate.entries[1].load(Ordering::SeqCst) == 1
        && gate.gave_up_waiting.load(Ordering::SeqCst) == 0
}

/// Two passes do run at once: block 0 waits for block 1, which a pass of its own has to enter.
#[test]
fn two_blocks_at_once(rt: HostRuntime) -> Result<(), Fail> {
    let gate = Held {
        entries: [AtomicU64::new(0), AtomicU64::new(0)],
        gave_up_waiting: AtomicU64::new(0),
    };
    let counted = run_crew(&rt, rt.alloc(), &Counting { blocks: 2 }, 2, 2, &gate)?;
    assert!(rt; counted == 2);
    assert!(rt; was_entered_once(&gate), "the blocks are entered");
    Ok(())
}

/// What the page of `at_crew` shows.
#[test]
fn the_example_of_the_crate(rt: HostRuntime) -> Result<(), Fail> {
    let alloc = rt.alloc();
    let job = Spelling { blocks: 4 };
    let whole = run_crew(&rt, alloc, &job, 4, 2, &Free)?;
    let Some(text) = whole else {
        return Err(Memory.into());
    };
    assert!(rt; text.as_str() == "abcd");
    Ok(())
}
