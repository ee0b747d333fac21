ghost use Rattle.std.specs.Prelude.{IfSome};
ghost use Rattle.node_store.specs.Stores.{Grows};
ghost use Rattle.node_store.specs.AnyFamily.{MayHoldAny};
ghost use Rattle.set_algebra.specs.ReadyStores.{IsReady};
ghost use Rattle.unique_table.specs.Passes.{token_state, IsOf};

use computed_cache::CachedPass;
use lattice::Op;
use node_store::{Handle, Store, any_plan};
use set_algebra::{inter, power, union};
use std::test::Fail;
use std::thread::{Threads, join};
use unique_table::{Shared, Token};

// The nodes of the variables 3 and 2 below all numbers. In a table of 16 slots they take Handle(14)
// and Handle(15), whoever interns them.
fn lower<S: Store>(store: &mut S) -> Option<(Handle, Handle)>
    requires { MayHoldAny 3 (S.state store.old) }
    ensures grows { Grows (S.state store.old) (S.state store.new) }
    ensures any { MayHoldAny 3 (S.state store.new) }
    ensures ready { IfSome result (λ r. IsReady 3 (S.state store.new) r.0 r.1) }
{
    let all = power(store).ok()?;
    let half = store.node(all)?.lo;
    let quarter = store.node(half)?.lo;
    Some((quarter, half))
}

// The result that is kept of their union is found for these operands in this order, and stands as
// the one word 719866119483 * 2^24 + 15 + 1 at its place.
#[test]
fn union_is_kept(rt: HostRuntime) -> Result<(), Fail> {
    let (table, token) = Shared::make(rt.alloc(), 4, 3, any_plan(3))?;
    let mut pass = CachedPass::new(table.pass(token));
    let (quarter, half) = lower(&mut pass).expect(&rt, "room for three nodes");
    assert_eq!(rt; quarter, Handle(14));
    assert_eq!(rt; half, Handle(15));
    assert_eq!(rt; pass.look(Op::Union, quarter, half.0), None);
    assert_eq!(rt; union(&mut pass, quarter, half)?, half);
    assert_eq!(rt; pass.look(Op::Union, quarter, half.0), Some(half));
    assert_eq!(rt; pass.look(Op::Union, half, quarter.0), None);
    assert_eq!(rt; pass.end().cache_load(2868), 0xA79B_5D45_3B00_0010);
    Ok(())
}

// The key of the union of handles 14 and 15 is 1 * 2^48 + 14 * 2^24 + 15 = 281475211591695. Its
// place and quotient are those of its product with 11400714819323198485, modulo 2^52. So there is a
// word at this place, which begins with this quotient.
#[test]
fn union_has_its_place(rt: HostRuntime) -> Result<(), Fail> {
    let (table, token) = Shared::make(rt.alloc(), 4, 3, any_plan(3))?;
    let mut pass = CachedPass::new(table.pass(token));
    let (quarter, half) = lower(&mut pass).expect(&rt, "room for three nodes");
    let _ = union(&mut pass, quarter, half)?;
    let word = pass.end().cache_load(2868);
    assert!(rt; word != 0, "a vacant place");
    assert_eq!(rt; word >> 24, 719866119483);
    Ok(())
}

// The result of one operation on the two nodes, which keeps it in the table.
fn found<S: Store>(store: &mut S, op: Op) -> Option<Handle>
    requires { MayHoldAny 3 (S.state store.old) }
    ensures grows { Grows (S.state store.old) (S.state store.new) }
    ensures any { MayHoldAny 3 (S.state store.new) }
{
    let (quarter, half) = lower(store)?;
    match op {
        Op::Union => union(store, quarter, half).ok(),
        _ => inter(store, quarter, half).ok(),
    }
}

// What a thread does.
fn work(table: &Shared, token: Token, op: Op) -> (Token, Option<Handle>)
    requires of { IsOf token table.now }
    requires any { MayHoldAny 3 (token_state token) }
    ensures of { IsOf result.0 table.entry.now }
    ensures any { MayHoldAny 3 (token_state result.0) }
{
    let mut pass = CachedPass::new(table.pass(token));
    let result = found(&mut pass, op);
    (pass.end().end(), result)
}

// Two threads, the one with the union and the other with the intersection.
fn work_twice<R: Threads + Sync>(
    rt: &R,
    table: &Shared,
    token: Token,
) -> ((Token, Option<Handle>), (Token, Option<Handle>))
    requires of { IsOf token table.now }
    requires any { MayHoldAny 3 (token_state token) }
    ensures first { IsOf result.0.0 table.entry.now × MayHoldAny 3 (token_state result.0.0) }
    ensures second { IsOf result.1.0 table.entry.now × MayHoldAny 3 (token_state result.1.0) }
{
    let mut pass = CachedPass::new(table.pass(token));
    let twin = pass.split().end().end();
    let token = pass.end().end();
    let front = move || -> (Token, Option<Handle>)
        requires { IsOf token table.now × MayHoldAny 3 (token_state token) }
        ensures { IsOf result.0 table.entry.now × MayHoldAny 3 (token_state result.0) }
    { work(table, token, Op::Union) };
    let back = move || -> (Token, Option<Handle>)
        requires { IsOf twin table.now × MayHoldAny 3 (token_state twin) }
        ensures { IsOf result.0 table.entry.now × MayHoldAny 3 (token_state result.0) }
    { work(table, twin, Op::Inter) };
    join(rt, front, back)
}

// Each of two passes finds the result that the other one's thread kept, and so does one pass after
// both are joined. The two results have places of their own, so none is written over.
#[test]
fn results_of_another_thread_are_found(rt: HostRuntime) -> Result<(), Fail> {
    let (table, token) = Shared::make(rt.alloc(), 4, 3, any_plan(3))?;
    let ((token, united), (twin, common)) = work_twice(&rt, &table, token);
    assert_eq!(rt; united, Some(Handle(15)));
    assert_eq!(rt; common, Some(Handle(14)));
    let mut first = CachedPass::new(table.pass(token));
    let mut second = CachedPass::new(table.pass(twin));
    let (quarter, half) = lower(&mut first).expect(&rt, "nodes that are there");
    assert_eq!(rt; first.look(Op::Inter, quarter, half.0), common);
    let (quarter, half) = lower(&mut second).expect(&rt, "nodes that are there");
    assert_eq!(rt; second.look(Op::Union, quarter, half.0), united);
    second.join(first);
    assert_eq!(rt; second.look(Op::Inter, quarter, half.0), common);
    Ok(())
}
