// What a message tells the client.
ghost use Rattle.std.specs.Prelude.{◌≡◌, false, get_or};
ghost use Rattle.client_rows.specs.News.{answered_after, ended_after};
ghost use Rattle.client_rows.specs.inside.Heard.{news_of_end, heard_of};

use letter_types::Body;
use tv_base::{TreeNo, Version};
use tx_trees::Script;

/// What is new to the client.
#[derive(Clone, Copy)]
pub enum News {
    /// The run begins.
    Begun,
    /// This transaction, which is one of the script's, is answered.
    Answered(TreeNo),
    /// One more advancement has ended.
    Ended,
    /// This many advancements have ended.
    EndedTo(Version),
}

/// What the client of a script hears from a message.
#[derive(Clone, Copy)]
pub(crate) enum Heard {
    /// Nothing that matters to it.
    Nothing,
    /// News, at which it submits what it may.
    Told(News),
    /// The coordinator of this epoch has forgotten how many advancements it was asked for.
    Asked(u64),
}

/// What the client of a script hears from a message of this body.
pub(crate) fn heard_of(script: &Script, body: &Body) -> Heard
    ensures { result ≡ heard_of script.now body.now }
{
    match body {
        Body::Go => Heard::Told(News::Begun),
        Body::Reply { tree, .. } if (tree.0 as usize) < script.trees().len() => {
            Heard::Told(News::Answered(*tree))
        }
        Body::Advanced { version } => Heard::Told(news_of_end(script, *version)),
        Body::Ask { epoch } if script.is_lossy() => Heard::Asked(*epoch),
        _ => Heard::Nothing,
    }
}

/// What the end of an advancement tells, which comes with this version. A coordinator that may forget may tell an end
/// twice, or more ends than one at once.
fn news_of_end(script: &Script, version: Version) -> News
    ensures { result ≡ news_of_end script.now version }
{
    if script.is_lossy() {
        News::EndedTo(version)
    } else {
        News::Ended
    }
}

/// Whether a transaction is answered once the news is known. False if it isn't there.
pub(crate) fn is_answered(answered: &[bool], news: News, tree: TreeNo) -> bool
    ensures { result ≡ get_or (answered_after news answered.now) tree.0 false }
{
    let Some(before) = answered.get(tree.0 as usize) else {
        return false;
    };
    match news {
        News::Answered(now) => *before || now == tree,
        _ => *before,
    }
}

/// How many advancements have ended once the news is known.
pub(crate) fn ended_after(news: News, ended: u64) -> u64
    ensures { result ≡ ended_after news ended }
{
    match news {
        News::Ended => ended.saturating_add(1),
        News::EndedTo(version) => ended.max(version.0),
        _ => ended,
    }
}

/// Marks what the news says.
pub(crate) fn mark(answered: &mut Vec<bool>, news: News)
    ensures { answered.new.items ≡ answered_after news answered.old.items }
{
    if let News::Answered(tree) = news {
        if let Some(known) = answered.get_mut(tree.0 as usize) {
            *known = true;
        }
    }
}
