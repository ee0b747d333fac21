//! The channel and its rule: what was taken, followed by what is in it, is what was sent.
ghost use Rattle.std.specs.Prelude.{◌≡◌, true, false, [], ◌∷◌, ◌++◌, IfOk};
ghost use Rattle.crossbeam_channel.specs.Claims.{view, IsSeatAt};
ghost use Rattle.crossbeam_channel.specs.Ends.{sends_on, receives_on};
ghost use Rattle.file_relay.specs.Messages.{ends_once};
ghost use Rattle.file_relay.specs.Relayed.{log};

use crate::message::Message;
use crossbeam_channel::protocol::{Join, Lesson, Outcome, Protocol, Split};
use crossbeam_channel::{Pass, RuledReceiver, RuledSender, bounded_with};
use std::alloc::{AllocError, Global};
use std::collections::LinkedList;
use std::sync::Wait;
use std::thread;

// The most messages that wait in the channel.
const MOST_WAITING: usize = 4;

/// What a pass may do, what was sent and what was taken by it. Contracts alone name such values.
pub struct Log {
    pub sends: bool,
    pub takes: bool,
    pub sent: LinkedList<Message>,
    pub got: LinkedList<Message>,
}

/// The rule of the channel.
pub struct InOrder;

impl Protocol<Message, Log> for InOrder {
    ghost use Rattle.std.specs.Prelude.{true, []};
    ghost use Rattle.file_relay.specs.Relayed.{log, Relayed};

    ghost holds = { Relayed };

    ghost first = { log true true [] [] };
}

// A pass that sends and one that takes are made of one, and are one again.
struct Roles;

impl Split<Log> for Roles {
    ghost use Rattle.std.specs.Prelude.{true, false, []};
    ghost use Rattle.file_relay.specs.Relayed.{log};

    ghost left = { λ v. log true false v.sent [] };

    ghost right = { λ v. log false true [] v.got };
}

impl Join<Log> for Roles {
    ghost use Rattle.std.specs.Prelude.{true, false, []};
    ghost use Rattle.file_relay.specs.Relayed.{log};

    ghost both = { λ v w. log true true v.sent w.got };

    ghost spent = { log false false [] [] };
}

struct Sent;

impl Outcome<Message, Log> for Sent {
    ghost then = { λ v x w. w ≡ log v.sends v.takes (v.sent ++ x ∷ []) v.got };
}

impl Lesson<Message, Log> for Sent {
    ghost use Rattle.std.specs.Prelude.{⊤};

    ghost fact = { λ v items. ⊤ };
}

struct Got;

impl Outcome<Message, Log> for Got {
    ghost then = { λ v x w. w ≡ log v.sends v.takes v.sent (v.got ++ x ∷ []) };
}

impl Lesson<Message, Log> for Got {
    ghost use Rattle.std.specs.Prelude.{⊤};

    ghost fact = { λ v items. ⊤ };
}

struct Total;

impl Lesson<Message, Log> for Total {
    ghost fact = { λ v items. v.sent ≡ v.got ++ items };
}

/// The end of the channel on which messages are sent.
pub type Outlet = RuledSender<Message, Log, InOrder>;

/// The end of the channel on which messages are taken.
pub type Inlet = RuledReceiver<Message, Log, InOrder>;

/// What a thread may do with the channel, and what it did.
pub type Token = Pass<Message, Log>;

/// A channel that holds at most 4 messages: its ends, and a pass for each.
pub struct Link {
    pub outlet: Outlet,
    pub inlet: Inlet,
    pub sending: Token,
    pub taking: Token,
}

/// Makes a channel. One pass may send on it, and the other may take from it.
pub fn open_link(alloc: Global) -> Result<Link, AllocError>
    ensures one { IfOk result (λ l. receives_on l.inlet ≡ sends_on l.outlet) }
    ensures outlet { IfOk result (λ l. IsSeatAt (sends_on l.outlet) l.sending) }
    ensures inlet { IfOk result (λ l. IsSeatAt (receives_on l.inlet) l.taking) }
    ensures sends { IfOk result (λ l. view l.sending ≡ log true false [] []) }
    ensures takes { IfOk result (λ l. view l.taking ≡ log false true [] []) }
{
    let (outlet, inlet, mut sending) = bounded_with::<Message, Log, InOrder, Global>(
        alloc,
        MOST_WAITING,
    )?;
    let taking = outlet.another::<Roles>(&mut sending);
    Ok(Link {
        outlet,
        inlet,
        sending,
        taking,
    })
}

/// Sends the message, and waits until there is room for it. A refused send decides nothing and is
/// tried again.
pub fn send<R: Wait>(rt: &R, outlet: &Outlet, pass: &mut Token, message: Message)
    requires channel { IsSeatAt (sends_on outlet.now) pass.old }
    requires sends { (view pass.old).sends ≡ true }
    ensures channel { IsSeatAt (sends_on outlet.now) pass.new × (pass.new.id ≡ pass.old.id) }
    ensures sent { view pass.new ≡ log true (view pass.old).takes
        ((view pass.old).sent ++ message ∷ []) (view pass.old).got }
{
    let mut message = message;
    for _ in rt.forever() {
        match outlet.send_as::<Sent, R>(rt, pass, message) {
            Ok(()) => return,
            Err(refused) => message = refused.into_inner(),
        }
        thread::yield_now();
    }
    unreachable!()
}

/// Takes the next message, and waits until there is one. A refused receive decides nothing and is
/// tried again.
pub fn take<R: Wait>(rt: &R, inlet: &Inlet, pass: &mut Token) -> Message
    requires channel { IsSeatAt (receives_on inlet.now) pass.old }
    requires takes { (view pass.old).takes ≡ true }
    ensures channel { IsSeatAt (receives_on inlet.now) pass.new × (pass.new.id ≡ pass.old.id) }
    ensures got { view pass.new ≡ log (view pass.old).sends true (view pass.old).sent
        ((view pass.old).got ++ result ∷ []) }
{
    for _ in rt.forever() {
        match inlet.recv_as::<Got, R>(rt, pass) {
            Ok(message) => return message,
            Err(_) => thread::yield_now(),
        }
    }
    unreachable!()
}

/// Brings both passes together, once each has come to the end mark: what was taken is what was
/// sent.
pub fn settle(outlet: &Outlet, sending: Token, taking: Token)
    requires outlet { IsSeatAt (sends_on outlet.now) sending }
    requires inlet { IsSeatAt (sends_on outlet.now) taking }
    requires sending { view sending ≡ log true false (view sending).sent [] }
    requires taking { view taking ≡ log false true [] (view taking).got }
    requires sent { ends_once (view sending).sent ≡ true }
    requires got { ends_once (view taking).got ≡ true }
    ensures { (view taking).got ≡ (view sending).sent }
{
    let mut pass = sending;
    outlet.absorb::<Roles>(&mut pass, taking);
    outlet.learn_as::<Total>(&mut pass);
}
