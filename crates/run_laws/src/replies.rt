// What replies say.
ghost use Rattle.std.specs.Prelude.{◌≤◌};
ghost use Rattle.run_laws.specs.EachRun.{OfEachHistory, OfEachTree};
ghost use Rattle.tree_laws.specs.Dids.{answers};
ghost use Rattle.run_laws.specs.Replies.{RepliesNameNoes, RepliesShow, RepliesTell};

/// In every run each reply goes from its transaction's home to the client, has the version with which the transaction
/// was begun, and says what the transaction's acts gave: of an update no values; of a read the values of its Dids, by
/// subtransaction; of a committed strict transaction the values of its positive votes, by subtransaction; of an aborted
/// one the cause of the negative vote with the lowest number.
pub fn replies_tell_what_was_done()
    ensures { OfEachHistory RepliesTell }
{}

/// In every run a reply that a transaction aborted names the cause of the negative vote with the lowest number: the
/// subtransaction of that number voted no for that cause, and none of a lower number voted no. The transaction was
/// decided to abort.
pub fn aborted_replies_name_the_lowest_no()
    ensures { OfEachHistory RepliesNameNoes }
{}

/// In every run the reply of a read says the values of its items at the read's version in the serial order of the whole
/// history.
pub fn read_replies_show_what_is_worth()
    ensures { OfEachHistory RepliesShow }
{}

/// In every run a transaction is answered at most once: at most one of all messages that were sent is its reply.
pub fn trees_are_answered_once()
    ensures { OfEachTree (λ s past t. answers past t ≤ 1) }
{}
