// What the client sends and does.
ghost use Rattle.std.specs.Prelude.{if◌then◌else◌, ◌≡◌, ◌+◌, ◌^◌, ◌<◌, ◌++◌, ◌∷◌, [], OnOk};
ghost use Rattle.letter_types.specs.declared.acts.Act.TheVariants.{Finished};
ghost use Rattle.tx_trees.specs.Adding.{advances_in};
ghost use Rattle.world_model.specs.Client.{advance_letter, rows_letters};
ghost use Rattle.client_rows.specs.News.{sent_first};
ghost use Rattle.client_rows.specs.inside.Heard.{wanted_letter};

use crate::news::News;
use letter_types::{Act, Acts, Body, Letters, Outgoing};
use tv_base::{ActorNo, NoMemory};
use tx_trees::{Script, ScriptRow};

/// A message to the coordinator.
fn to_coordinator(script: &Script, body: Body) -> Outgoing
    ensures { result ≡ record { to = record { 0 = script.now.nodes }; body = body } }
{
    Outgoing {
        to: ActorNo(script.nodes()),
        body,
    }
}

/// Puts the messages behind others that are sent before those of the rows: the coordinator hears of an answer.
pub(crate) fn push_first(sent: &mut Letters, script: &Script, news: News) -> Result<(), NoMemory>
    ensures { OnOk result (sent.new ≡ sent.old ++ sent_first script.now news) }
{
    if let News::Answered(_) = news {
        sent.push(to_coordinator(script, Body::Nudge))?;
    }
    Ok(())
}

/// The message that asks for an advancement, after `asked` earlier ones.
fn advance_letter(script: &Script, asked: u32) -> Body
    requires { asked + 1 < 2 ^ 32 }
    ensures { result ≡ advance_letter script.now asked }
{
    if script.is_lossy() {
        Body::AdvanceNo { advance: asked + 1 }
    } else {
        Body::Advance
    }
}

/// Puts the messages of these rows behind others, in order. Before, `before` advancements were asked for.
pub(crate) fn push_rows(
    sent: &mut Letters,
    script: &Script,
    before: u32,
    rows: &[ScriptRow],
) -> Result<(), NoMemory>
    requires { before + advances_in rows.now < 2 ^ 32 }
    ensures { OnOk result (sent.new ≡ sent.old ++ rows_letters script.now before rows.now) }
{
    let mut asked = before;
    for row in rows {
        match *row {
            ScriptRow::Tree(tree) => sent.push(Outgoing {
                to: ActorNo(script.home_of(tree)),
                body: Body::Root { tree },
            })?,
            ScriptRow::Advance => {
                sent.push(to_coordinator(script, advance_letter(script, asked)))?;
                asked += 1;
            }
            ScriptRow::Lose => sent.push(to_coordinator(script, Body::Lose))?,
            ScriptRow::Settle => {}
        }
    }
    Ok(())
}

/// Puts the act behind others that the client finishes, if it does.
pub(crate) fn push_end(acts: &mut Acts, finishes: bool) -> Result<(), NoMemory>
    ensures { OnOk result (acts.new ≡ acts.old ++ (if finishes then Finished ∷ [] else [])) }
{
    if finishes {
        acts.push(Act::Finished)?;
    }
    Ok(())
}

/// Puts the message behind others that tells a coordinator that has forgotten how many advancements it was asked for.
pub(crate) fn push_wanted(
    sent: &mut Letters,
    script: &Script,
    epoch: u64,
    advances: u32,
) -> Result<(), NoMemory>
    ensures { OnOk result (sent.new ≡ sent.old ++ wanted_letter script.now epoch advances ∷ []) }
{
    sent.push(to_coordinator(script, Body::Wanted { epoch, advances }))?;
    Ok(())
}
