// The answer of a tree to its client.
ghost use Rattle.std.specs.Prelude.{◌≡◌, ◌++◌, OnErr, OnOk};
ghost use Rattle.world_model.specs.Notices.{reply_letters};

use letter_types::{Answer, Body, Letters, Outgoing};
use tree_home::Answered;
use tv_base::{ActorNo, NoMemory};

/// Adds the answer to the client, if there is one. If memory runs out, the messages are unchanged.
pub fn push_reply(
    sent: &mut Letters,
    client: ActorNo,
    answer: Option<Answered>,
) -> Result<(), NoMemory>
    ensures ok { OnOk result (sent.new ≡ sent.old ++ reply_letters client.0 answer) }
    ensures err { OnErr result (sent.new ≡ sent.old) }
{
    let Some(answered) = answer else {
        return Ok(());
    };
    sent.push(Outgoing {
        to: client,
        body: Body::Reply {
            tree: answered.tree,
            version: answered.version,
            answer: Answer::Whole(answered.values),
        },
    })?;
    Ok(())
}
