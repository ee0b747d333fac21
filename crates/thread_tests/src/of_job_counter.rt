ghost use Rattle.std.specs.Prelude.{◌≡◌, ℕ, ◌/◌, ◌<◌, ◌≤◌, [], length};
ghost use Rattle.job_counter.specs.Drawing.{drawing, IsOf};
ghost use Rattle.job_counter.specs.declared.counter.TheConstants.{ALL_PARTS};

use job_counter::{Counter, Counting, Dealing, Drawer};
use lattice::Memory;
use std::alloc::Global;
use std::test::Fail;
use std::thread::{Threads, join};

// How many jobs there are.
const JOBS: u64 = 50;

// What a thread does: it draws until a number past the last job, and answers the jobs that it drew.
fn work(counter: &Counter, drawer: Drawer, alloc: Global) -> (Drawer, Option<Vec<u64>>)
    requires of { IsOf drawer counter.now }
    requires fresh { (drawing drawer).drawn ≡ [] }
    requires room { JOBS < (drawing drawer).parts }
    ensures of { IsOf result.0 counter.entry.now }
    ensures parts { (drawing result.0).parts ≡ (drawing drawer).parts }
{
    let mut drawer = drawer;
    let mut found = Vec::new(alloc);
    for _turn in 0..JOBS + 1 {
        let number = counter.draw(&mut drawer);
        if number >= JOBS {
            return (drawer, Some(found));
        }
        if found.push(number).is_err() {
            return (drawer, None);
        }
    }
    (drawer, Some(found))
}

// Two threads draw, and their drawers are joined afterwards.
fn work_twice<R: Threads + Sync>(
    rt: &R,
    counter: &Counter,
    drawer: Drawer,
    alloc: Global,
) -> (Drawer, [Option<Vec<u64>>; 2])
    requires of { IsOf drawer counter.now }
    requires fresh { (drawing drawer).drawn ≡ [] }
    requires all { (drawing drawer).parts ≡ ALL_PARTS }
    ensures of { IsOf result.0 counter.entry.now }
    ensures all { (drawing result.0).parts ≡ ALL_PARTS }
{
    let mut drawer = drawer;
    let other = counter.split(&mut drawer);
    let front = move || -> (Drawer, Option<Vec<u64>>)
        requires { IsOf drawer counter.now × ((drawing drawer).drawn ≡ [])
            × ((drawing drawer).parts ≡ ALL_PARTS / 2) }
        ensures { IsOf result.0 counter.entry.now × ((drawing result.0).parts ≡ ALL_PARTS / 2) }
    { work(counter, drawer, alloc) };
    let back = move || -> (Drawer, Option<Vec<u64>>)
        requires { IsOf other counter.now × ((drawing other).drawn ≡ [])
            × ((drawing other).parts ≡ ALL_PARTS / 2) }
        ensures { IsOf result.0 counter.entry.now × ((drawing result.0).parts ≡ ALL_PARTS / 2) }
    { work(counter, other, alloc) };
    let ((mut drawer, found), (other, more)) = join(rt, front, back);
    counter.join(&mut drawer, other);
    (drawer, [found, more])
}

// Two threads draw the jobs of one counter: each job is drawn once, by one of them, and each thread
// draws one number past the last.
#[test]
fn two_threads_draw(rt: HostRuntime) -> Result<(), Fail> {
    let (counter, drawer) = Counter::make(rt.alloc())?;
    let (mut drawer, [front, back]) = work_twice(&rt, &counter, drawer, rt.alloc());
    let front = front.expect(&rt, "memory");
    let back = back.expect(&rt, "memory");
    assert_eq!(rt; counter.all_drawn(&mut drawer), JOBS + 2);
    for job in 0..JOBS {
        assert!(rt; front.contains(&job) != back.contains(&job));
    }
    assert_eq!(rt; front.len() + back.len(), JOBS as usize);
    Ok(())
}

// One alone draws the numbers in order.
#[test]
fn numbers_in_order(rt: HostRuntime) -> Result<(), Fail> {
    let (counter, mut drawer) = Counter::make(rt.alloc())?;
    assert_eq!(rt; counter.draw(&mut drawer), 0);
    assert_eq!(rt; counter.draw(&mut drawer), 1);
    assert_eq!(rt; counter.draw(&mut drawer), 2);
    assert_eq!(rt; counter.all_drawn(&mut drawer), 3);
    Ok(())
}

// What two hands take of three numbers, and then the hand of both.
fn three_numbers<D: Dealing>(alloc: Global) -> Result<[Option<u32>; 5], Memory> {
    let (dealing, hand) = D::make(alloc, 3, 2)?;
    let (mut first, mut second) = dealing.halve(hand);
    let one = dealing.take(&mut first);
    let two = dealing.take(&mut second);
    let three = dealing.take(&mut first);
    let four = dealing.take(&mut second);
    let mut hand = dealing.unite(first, second);
    Ok([one, two, three, four, dealing.take(&mut hand)])
}

// The numbers are dealt in order, each once, and then there are none left.
#[test]
fn numbers_are_dealt(rt: HostRuntime) -> Result<(), Fail> {
    let numbers = three_numbers::<Counting>(rt.alloc())?;
    assert_eq!(rt; numbers, [Some(0), Some(1), Some(2), None, None]);
    Ok(())
}
