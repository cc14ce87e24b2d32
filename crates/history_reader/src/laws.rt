// The laws that a text begins with one entry, and has one reading.
ghost use Rattle.std.specs.Prelude.{ℕ, List};
ghost use Rattle.tx_trees.specs.ScriptData.{ScriptData};
ghost use Rattle.tx_trees.specs.Valid.{IsValid};
ghost use Rattle.history_reader.specs.OneEntry.{BeginsWithOne};
ghost use Rattle.history_reader.specs.Walks.{HasOneReading};

/// If a text begins with the lines of two entries, these tell the same, and the same text comes behind them: they have
/// one stamp, one actor, the same messages and acts, and took messages of one id.
pub fn a_text_begins_with_one_entry()
    ensures { (s : ScriptData) (text : List ℕ) → IsValid s → BeginsWithOne s text }
{}

/// A text has one reading: whoever reads it finds the same history, with the same messages taken, or the same fault at
/// the same entry.
pub fn a_text_has_one_reading()
    ensures { (s : ScriptData) (text : List ℕ) → IsValid s → HasOneReading s text }
{}
