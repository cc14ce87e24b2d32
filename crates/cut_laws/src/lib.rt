//! Laws of texts that are cut where a record of comma separated fields ends: what comes behind may be read on its own.
#![tactic(auto)]

ghost use Rattle.cut_laws.specs.Cuts.{RecordsAreCut, RecordsAreFew};

/// Where bytes end a record, the records of the text are that one and those of the rest. The rest may be read on its
/// own, also behind a byte that ends a line.
pub fn records_are_cut()
    ensures { RecordsAreCut }
{}

/// A text has no more records than bytes, so whoever asks for more of them is given the same.
pub fn records_are_few()
    ensures { RecordsAreFew }
{}
