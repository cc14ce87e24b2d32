// Laws of verdicts.
ghost use Rattle.std.specs.Prelude.{ℕ, List};
ghost use Rattle.tx_trees.specs.ScriptData.{ScriptData};
ghost use Rattle.tx_trees.specs.Valid.{IsValid};
ghost use Rattle.history_audit.specs.Verdicts.{HasOneVerdict, IsOfOneHistory};

/// A text has one verdict: any two verdicts of it are equal.
pub fn a_text_has_one_verdict()
    ensures { (s : ScriptData) (text : List ℕ) → IsValid s → HasOneVerdict s text }
{}

/// A text that is taken as a whole fixes its history, with all messages that were taken.
pub fn an_accepted_text_is_one_history()
    ensures { (s : ScriptData) (text : List ℕ) → IsValid s → IsOfOneHistory s text }
{}
