// What every run's report says of its replies.
ghost use Rattle.std.specs.Prelude.{List};
ghost use Rattle.letter_types.specs.declared.entries.Entry.{Entry};
ghost use Rattle.tx_trees.specs.ScriptData.{ScriptData};
ghost use Rattle.tx_trees.specs.Valid.{IsValid};
ghost use Rattle.world_model.specs.Runs.{IsWorldRun};
ghost use Rattle.audit_laws.specs.ReplyLines.{LinesSayReplies};

/// In every run, finished or not, the line that a report prints of an answered transaction is the one that its reply
/// says: its version, and the values, or that it aborted and why.
pub fn reports_say_what_replies_say()
    ensures { (s : ScriptData) (h : List Entry) → IsValid s → IsWorldRun s h → LinesSayReplies s h }
{}
