ghost use Rattle.std.specs.Prelude.{◌≡◌, ◌≤◌, ◌<◌, ◌^◌};

use job_counter::Dealing;
use job_deques::Deques;
use std::test::Fail;

// The next seven numbers that a hand takes.
fn take_seven<D: Dealing>(dealing: &D, hand: &mut D::Hand) -> [Option<u32>; 7]
    requires { D.is_of dealing.now hand.old }
    ensures of { D.is_of dealing.now hand.new }
    ensures shares { D.shares hand.new ≡ D.shares hand.old }
{
    [
        dealing.take(hand),
        dealing.take(hand),
        dealing.take(hand),
        dealing.take(hand),
        dealing.take(hand),
        dealing.take(hand),
        dealing.take(hand),
    ]
}

// One hand with all shares takes the numbers deque by deque, each of them in order.
#[test]
fn one_hand_takes_all(rt: HostRuntime) -> Result<(), Fail> {
    let (dealing, mut hand) = Deques::make(rt.alloc(), 6, 2)?;
    let taken = take_seven(&dealing, &mut hand);
    assert_eq!(rt;
        taken,
        [Some(0), Some(2), Some(4), Some(1), Some(3), Some(5), None]
    );
    Ok(())
}

// A hand of one seat takes the numbers of its own deque, and then those of the other. The hand that
// both make finds none.
#[test]
fn half_a_hand_steals(rt: HostRuntime) -> Result<(), Fail> {
    let (dealing, hand) = Deques::make(rt.alloc(), 6, 2)?;
    let (mut first, second) = dealing.halve(hand);
    let taken = take_seven(&dealing, &mut first);
    assert_eq!(rt;
        taken,
        [Some(0), Some(2), Some(4), Some(1), Some(3), Some(5), None]
    );
    let mut hand = dealing.unite(first, second);
    assert_eq!(rt; dealing.take(&mut hand), None);
    Ok(())
}
