// The client: it submits the script's rows.
ghost use Rattle.std.specs.Prelude.{if◌then◌else◌, ◌≡◌, ◌==◌, ◌&&◌, ◌≤◌, ◌∷◌, [], length, not, IfOk, OnErr, OnOk};
ghost use Rattle.letter_types.specs.declared.acts.Act.TheVariants.{Finished};
ghost use Rattle.world_model.specs.Client.{client_row, start_client, wanted};
ghost use Rattle.client_rows.specs.Changes.{IsClientStepOf, after_client_change, client_step, with_all_places};
ghost use Rattle.client_rows.specs.Kept.{IsKeptOf, kept_of};
ghost use Rattle.client_rows.specs.inside.Heard.{finishes_with_news, submit_at};
ghost use Rattle.client_rows.specs.inside.Places.{is_over, place_reached};

use crate::change::ClientChange;
use crate::letters::{push_end, push_first, push_rows, push_wanted};
use crate::news::{Heard, News, ended_after, heard_of, mark};
use crate::places::{RowPlace, furthest, is_over, with_news};
use letter_types::{Acts, Letter, Letters};
use std::alloc::Global;
use std::marker::Model;
use tv_base::NoMemory;
use tx_trees::{Script, ScriptRow};

/// The client's state. It counts what it has submitted, so that no step goes over those rows again.
#[derive(Drop)]
pub struct Client {
    at: RowPlace,
    pub(crate) answered: Vec<bool>,
    ended: u64,
    pub(crate) finished: bool,
}

impl Model for Client {
    ghost use Rattle.client_rows.specs.Kept.{Kept};

    ghost Value = { Kept };

    ghost use Rattle.client_rows.specs.Held.{kept_here};

    ghost view = { kept_here };
}

/// Whether the client finishes at a place: no row is left, all has ended, and it hasn't finished before.
fn finishes(rows: &[ScriptRow], at: RowPlace, ended: u64, finished: bool) -> bool
    ensures { result ≡ ((at.next == length rows.now) && (is_over at ended && not finished)) }
{
    at.next == rows.len() && is_over(at, ended) && !finished
}

impl Client {
    /// The client as a run begins: no row is submitted.
    pub fn new(alloc: Global, script: &Script) -> Result<Client, NoMemory>
        ensures start { IfOk result (λ c. c ≡ kept_of script.now (start_client script.now)) }
        ensures kept { IfOk result (IsKeptOf script.now) }
    {
        let answered = vec![in alloc; false; script.trees().len()]?;
        let at = RowPlace {
            next: 0,
            sent: 0,
            unanswered: 0,
            asked: 0,
        };
        Ok(Client {
            at,
            answered,
            ended: 0,
            finished: false,
        })
    }

    /// Prepares what the client's table says of a message. The script is the one that the client was made with. What goes
    /// out is put into the two lists, whose items are dropped and whose room is used. It takes time for the rows that are
    /// submitted, and not for those before them; it takes all memory that the step needs, and changes nothing else.
    #[inline(never)]
    pub fn prepare(
        &self,
        letter: &Letter,
        script: &Script,
        sent: &mut Letters,
        acts: &mut Acts,
    ) -> Result<ClientChange, NoMemory>
        requires { IsKeptOf script.now self.now }
        ensures { IfOk result (λ change. IsClientStepOf script.now (client_row script.now self.now.client letter.now.body)
            self.now (client_step change sent.new acts.new)) }
    {
        sent.clear();
        acts.clear();
        match heard_of(script, &letter.body) {
            Heard::Nothing => Ok(ClientChange::Still),
            Heard::Told(news) => self.submit(news, script, sent, acts),
            Heard::Asked(epoch) => self.answer(epoch, script, sent),
        }
    }

    /// Prepares what the client does at news: it submits what it may.
    fn submit(
        &self,
        news: News,
        script: &Script,
        sent: &mut Letters,
        acts: &mut Acts,
    ) -> Result<ClientChange, NoMemory>
        requires kept { IsKeptOf script.now self.now }
        requires none_sent { sent.old ≡ [] }
        requires no_acts { acts.old ≡ [] }
        ensures { IfOk result (λ change. IsClientStepOf script.now (submit_at script.now news self.now.client)
            self.now (client_step change sent.new acts.new)) }
    {
        let _valid = script.nodes();
        let at = self.reaches(news, script);
        let rows = script.rows();
        let finishes = finishes(rows, at, ended_after(news, self.ended), self.finished);
        push_first(sent, script, news)?;
        push_rows(sent, script, self.at.asked, &rows[self.at.next..at.next])?;
        push_end(acts, finishes)?;
        Ok(ClientChange::Submit { news, at, finishes })
    }

    /// How far it comes at news: the place after the last row that it may submit then.
    fn reaches(&self, news: News, script: &Script) -> RowPlace
        requires { IsKeptOf script.now self.now }
        ensures forward { self.now.client.next ≤ result.next }
        ensures within { result.next ≤ length script.now.rows }
        ensures place { result ≡ place_reached script.now.rows news self.now.client }
    {
        let _valid = script.nodes();
        let rows = script.rows();
        let ended = ended_after(news, self.ended);
        let known = with_news(rows, &self.answered, news, self.at);
        furthest(rows, &self.answered, news, ended, known)
    }

    /// Whether the client would finish with a message: then it would have submitted all rows, all would have ended, and
    /// it hasn't finished before. The script is the one that the client was made with.
    pub fn ends_with(&self, letter: &Letter, script: &Script) -> bool
        requires { IsKeptOf script.now self.now }
        ensures { (client_row script.now self.now.client letter.now.body).acts ≡ (if result then Finished ∷ [] else []) }
    {
        match heard_of(script, &letter.body) {
            Heard::Nothing => false,
            Heard::Told(news) => self.finishes_at(news, script),
            Heard::Asked(_epoch) => false,
        }
    }

    /// Gives each transaction that came with a longer script its place among the answers: it isn't answered. If memory
    /// runs out, the client is as it was.
    pub fn make_places(&mut self, script: &Script) -> Result<(), NoMemory>
        requires { length self.old.client.answered ≤ length script.now.trees }
        ensures ok { OnOk result (self.new ≡ with_all_places script.now self.old) }
        ensures err { OnErr result (self.new ≡ self.old) }
    {
        self.answered.resize(script.trees().len(), false)?;
        Ok(())
    }

    /// Whether it would finish at news.
    pub(crate) fn finishes_at(&self, news: News, script: &Script) -> bool
        requires { IsKeptOf script.now self.now }
        ensures { result ≡ finishes_with_news script.now news self.now.client }
    {
        let at = self.reaches(news, script);
        let ended = ended_after(news, self.ended);
        finishes(script.rows(), at, ended, self.finished)
    }

    /// Prepares the answer to a coordinator that has forgotten: how many advancements it was asked for.
    fn answer(
        &self,
        epoch: u64,
        script: &Script,
        sent: &mut Letters,
    ) -> Result<ClientChange, NoMemory>
        requires kept { IsKeptOf script.now self.now }
        requires none_sent { sent.old ≡ [] }
        ensures { IfOk result (λ change. IsClientStepOf script.now (wanted script.now epoch self.now.client)
            self.now (client_step change sent.new [])) }
    {
        push_wanted(sent, script, epoch, self.at.asked)?;
        Ok(ClientChange::Still)
    }

    /// Does what a prepared step changes. It needs no memory.
    pub fn done(&mut self, change: ClientChange)
        ensures { self.new ≡ after_client_change change self.old }
    {
        match change {
            ClientChange::Still => {}
            ClientChange::Submit { news, at, finishes } => {
                mark(&mut self.answered, news);
                self.at = at;
                self.ended = ended_after(news, self.ended);
                self.finished |= finishes;
            }
        }
    }
}
