// What an actor sent and did is put behind what others sent and did.
ghost use Rattle.std.specs.Prelude.{◌≡◌, ◌+◌, ◌≤◌, [], ◌++◌, length, vec_capacity, vec_len};
ghost use Rattle.letter_types.specs.Letters.{sealed};

use letter_types::{Act, Acts, Letter, LetterId, Letters, Outgoing};
use std::mem;
use tv_base::{ActorNo, Stamp};

// Messages go to the end, for which there is room, each with its id.
fn move_sent(letters: &mut Vec<Letter>, stamp: Stamp, actor: ActorNo, sent: &mut Vec<Outgoing>)
    requires few { length sent.old.items ≤ 0xffff_ffff }
    requires room { vec_len letters.old + length sent.old.items ≤ vec_capacity letters.old }
    ensures moved { letters.new.items ≡ letters.old.items ++ sealed stamp.0 actor.0 0 sent.old.items }
    ensures left { sent.new.items ≡ [] }
{
    let mut number: u32 = 0;
    for outgoing in sent.drain(..) {
        let Outgoing { to, body } = outgoing;
        letters.push_reserved(Letter {
            id: LetterId {
                stamp,
                place: number,
            },
            from: actor,
            to,
            body,
        });
        number = number.saturating_add(1);
    }
}

/// Moves messages to the end, for which there is room, each with its id. The list that they were in keeps its room.
#[inline(always)]
pub(crate) fn push_sent(letters: &mut Vec<Letter>, stamp: Stamp, actor: ActorNo, sent: &mut Letters)
    requires { vec_len letters.old + length sent.old ≤ vec_capacity letters.old }
    ensures moved { letters.new.items ≡ letters.old.items ++ sealed stamp.0 actor.0 0 sent.old }
    ensures left { sent.new ≡ [] }
{
    if sent.items().is_empty() {
        return;
    }
    let alloc = *letters.allocator();
    let mut open = mem::replace(sent, Letters::new(alloc)).into_vec();
    move_sent(letters, stamp, actor, &mut open);
    *sent = Letters::from_vec(open);
}

/// Moves acts to the end, for which there is room. The list that they were in keeps its room.
#[inline(always)]
pub(crate) fn push_done(acts: &mut Vec<Act>, done: &mut Acts)
    requires { vec_len acts.old + length done.old ≤ vec_capacity acts.old }
    ensures moved { acts.new.items ≡ acts.old.items ++ done.old }
    ensures left { done.new ≡ [] }
{
    if done.items().is_empty() {
        return;
    }
    let alloc = *acts.allocator();
    let mut open = mem::replace(done, Acts::new(alloc)).into_vec();
    let _moved = acts.append(&mut open);
    *done = Acts::from_vec(open);
}
