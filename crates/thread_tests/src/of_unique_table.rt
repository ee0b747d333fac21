ghost use Rattle.std.specs.Prelude.{◌≡◌, ◌≤◌, IfOk, IfSome};
ghost use Rattle.std.specs.Thread.{IsSync};
ghost use Rattle.lattice.specs.Family.{Family, IsFamily};
ghost use Rattle.node_store.specs.Stores.{Grows};
ghost use Rattle.node_store.specs.AnyFamily.{MayHoldAny};
ghost use Rattle.unique_table.specs.Passes.{token_state, IsOf};
ghost use Rattle.thread_tests.specs.LastVariables.{IsOver};

use node_store::{Full, Handle, Node, Store, any_plan, grow, pack};
use std::alloc::Global;
use std::test::Fail;
use std::thread::{Threads, join};
use unique_table::{Shared, Token};

// The members of the family of the number that have the first of the last variables, so many of
// them.
fn upper(count: u32, number: u32) -> u32 {
    match count {
        1 => number >> 1,
        2 => number >> 2,
        3 => number >> 4,
        _ => number >> 8,
    }
}

// The handle of a family over the last variables, so many of them: bit m of the number tells
// whether m is a member.
fn numbered<S: Store>(store: &mut S, vars: u32, count: u32, number: u32) -> Result<Handle, Full>
    requires any { MayHoldAny vars (S.state store.old) }
    requires count { count ≤ vars }
    ensures grows { Grows (S.state store.old) (S.state store.new) }
    ensures any { MayHoldAny vars (S.state store.new) }
    ensures over { IfOk result (IsOver (S.state store.new) count) }
{
    if count == 0 {
        return Ok(Handle(number % 2));
    }
    let low = numbered(store, vars, count - 1, number)?;
    let high = numbered(store, vars, count - 1, upper(count, number))?;
    let var = store.vars() - (count - 1);
    grow(store, var, low, high)
}

// The handles of the families of these numbers.
fn handles<S: Store>(
    store: &mut S,
    alloc: Global,
    vars: u32,
    numbers: &[u32],
) -> Option<Vec<Handle>>
    requires { MayHoldAny vars (S.state store.old) }
    ensures grows { Grows (S.state store.old) (S.state store.new) }
    ensures any { MayHoldAny vars (S.state store.new) }
{
    let mut found = Vec::new(alloc);
    for number in numbers {
        let handle = numbered(store, vars, vars, *number).ok()?;
        found.push(handle).ok()?;
    }
    Some(found)
}

// What a thread does.
fn work(
    table: &Shared,
    token: Token,
    alloc: Global,
    vars: u32,
    numbers: &[u32],
) -> (Token, Option<Vec<Handle>>)
    requires of { IsOf token table.now }
    requires any { MayHoldAny vars (token_state token) }
    ensures of { IsOf result.0 table.entry.now }
    ensures any { MayHoldAny vars (token_state result.0) }
{
    let mut pass = table.pass(token);
    let found = handles(&mut pass, alloc, vars, numbers);
    (pass.end(), found)
}

// Two threads on passes that one was split into, and that are joined afterwards.
fn work_twice<R: Threads + Sync>(
    rt: &R,
    table: &Shared,
    token: Token,
    alloc: Global,
    vars: u32,
    first: &[u32],
    second: &[u32],
) -> (Token, [Option<Vec<Handle>>; 2])
    requires of { IsOf token table.now }
    requires any { MayHoldAny vars (token_state token) }
    ensures of { IsOf result.0 table.entry.now }
    ensures any { MayHoldAny vars (token_state result.0) }
{
    let mut pass = table.pass(token);
    let twin = pass.split().end();
    let token = pass.end();
    let front = move || -> (Token, Option<Vec<Handle>>)
        requires { IsOf token table.now × MayHoldAny vars (token_state token) }
        ensures { IsOf result.0 table.entry.now × MayHoldAny vars (token_state result.0) }
    { work(table, token, alloc, vars, first) };
    let back = move || -> (Token, Option<Vec<Handle>>)
        requires { IsOf twin table.now × MayHoldAny vars (token_state twin) }
        ensures { IsOf result.0 table.entry.now × MayHoldAny vars (token_state result.0) }
    { work(table, twin, alloc, vars, second) };
    let ((token, found), (other, more)) = join(rt, front, back);
    let mut pass = table.pass(token);
    pass.join(table.pass(other));
    (pass.end(), [found, more])
}

// Four threads.
fn work_four_times<R: Threads + Sync>(
    rt: &R,
    table: &Shared,
    token: Token,
    alloc: Global,
    vars: u32,
    numbers: [&[u32]; 4],
) -> (Token, [Option<Vec<Handle>>; 4])
    requires of { IsOf token table.now }
    requires any { MayHoldAny vars (token_state token) }
    ensures of { IsOf result.0 table.entry.now }
    ensures any { MayHoldAny vars (token_state result.0) }
{
    let mut pass = table.pass(token);
    let twin = pass.split().end();
    let token = pass.end();
    let front = move || -> (Token, [Option<Vec<Handle>>; 2])
        requires { IsSync R.row × IsOf token table.now × MayHoldAny vars (token_state token) }
        ensures { IsOf result.0 table.entry.now × MayHoldAny vars (token_state result.0) }
    { work_twice(rt, table, token, alloc, vars, numbers[0], numbers[1]) };
    let back = move || -> (Token, [Option<Vec<Handle>>; 2])
        requires { IsSync R.row × IsOf twin table.now × MayHoldAny vars (token_state twin) }
        ensures { IsOf result.0 table.entry.now × MayHoldAny vars (token_state result.0) }
    { work_twice(rt, table, twin, alloc, vars, numbers[2], numbers[3]) };
    let ((token, found), (other, more)) = join(rt, front, back);
    let mut pass = table.pass(token);
    pass.join(table.pass(other));
    let [first, second] = found;
    let [third, fourth] = more;
    (pass.end(), [first, second, third, fourth])
}

// Two nodes in a table of 16 slots. The first packs to 3 * 2^48 + 1 * 2^24 + 1 = 844424946909185,
// whose mixing to 4 bits is 12, so slot 12 has it, which is Handle(14). The second packs to 2 *
// 2^48 + 14 * 2^24 + 14 = 562950188302350, whose mixing is 12 too: it takes slot 13, which is
// Handle(15).
#[test]
fn second_node_probes_on(rt: HostRuntime) -> Result<(), Fail> {
    let (table, token) = Shared::make(rt.alloc(), 4, 3, any_plan(3))?;
    let mut pass = table.pass(token);
    let found = handles(&mut pass, rt.alloc(), 3, &[3, 15, 3]).expect(&rt, "room for two nodes");
    assert_eq!(rt;
        found.as_slice(),
        [Handle(14), Handle(15), Handle(14)].as_slice()
    );
    let (one, first) = (Handle(1), Handle(14));
    assert_eq!(rt;
        pack(&Node {
            var: 3,
            lo: one,
            hi: one
        }),
        844424946909185
    );
    assert_eq!(rt;
        pack(&Node {
            var: 2,
            lo: first,
            hi: first
        }),
        562950188302350
    );
    Ok(())
}

// Two threads ask for the same two nodes, and have the same handles.
#[test]
fn two_threads_agree(rt: HostRuntime) -> Result<(), Fail> {
    let (table, token) = Shared::make(rt.alloc(), 4, 3, any_plan(3))?;
    let numbers = [3u32, 15];
    let (_token, [front, back]) = work_twice(&rt, &table, token, rt.alloc(), 3, &numbers, &numbers);
    let front = front.expect(&rt, "room for two nodes");
    assert_eq!(rt; front.as_slice(), [Handle(14), Handle(15)].as_slice());
    assert_eq!(rt;
        back.expect(&rt, "room for two nodes").as_slice(),
        front.as_slice()
    );
    Ok(())
}

// The numbers of a thousand families, the first five hundred the same for each thread.
fn thousand(alloc: Global, thread: u32) -> Option<Vec<u32>> {
    let mut numbers = Vec::new(alloc);
    for i in 0..1000u32 {
        let which = if i < 500 {
            i
        } else {
            i.wrapping_add(thread.wrapping_mul(500))
        };
        // An odd factor, so that no two have the same number.
        numbers.push(which.wrapping_mul(40503) % 65536).ok()?;
    }
    Some(numbers)
}

// Four threads ask for a thousand nodes each, half of them the same: each node has one handle.
#[test]
fn four_threads_agree(rt: HostRuntime) -> Result<(), Fail> {
    let alloc = rt.alloc();
    let (table, token) = Shared::make(alloc, 12, 4, any_plan(4))?;
    let one = thousand(alloc, 0).expect(&rt, "memory");
    let two = thousand(alloc, 1).expect(&rt, "memory");
    let three = thousand(alloc, 2).expect(&rt, "memory");
    let four = thousand(alloc, 3).expect(&rt, "memory");
    let numbers = [
        one.as_slice(),
        two.as_slice(),
        three.as_slice(),
        four.as_slice(),
    ];
    let (token, found) = work_four_times(&rt, &table, token, alloc, 4, numbers);
    let mut pass = table.pass(token);
    for (thread, handles_of_thread) in found.iter().enumerate() {
        let handles_of_thread = handles_of_thread.as_ref().expect(&rt, "room for all nodes");
        let again = handles(&mut pass, alloc, 4, numbers[thread]).expect(&rt, "room for all nodes");
        assert_eq!(rt; handles_of_thread.as_slice(), again.as_slice());
    }
    Ok(())
}

// Each slot takes a node: the families over two variables but the two constants take 14, and those
// of 16 and 17 the last two. Then the table is full, and the pass still has the handles of the
// nodes that are there.
#[test]
fn full_after_the_last_slot(rt: HostRuntime) -> Result<(), Fail> {
    let (table, token) = Shared::make(rt.alloc(), 4, 3, any_plan(3))?;
    let mut pass = table.pass(token);
    let numbers = [
        0u32, 1, 2, 3, 4, 5, 6, 7, 8, 9, 10, 11, 12, 13, 14, 15, 16, 17,
    ];
    let found = handles(&mut pass, rt.alloc(), 3, &numbers).expect(&rt, "a slot for each node");
    assert!(rt; handles(&mut pass, rt.alloc(), 3, &[18]).is_none());
    let again = handles(&mut pass, rt.alloc(), 3, &numbers).expect(
        &rt,
        "the handles of nodes that are there",
    );
    assert_eq!(rt; again.as_slice(), found.as_slice());
    Ok(())
}
