//! The audit of a printed history. A walk reads its text entry by entry, and a judge says whether each entry may come
//! after those before it. The verdict of a text, by the first entry that fails, says what it means that the text is
//! accepted or refused; a text has one. Mode audit reads a script and a printed history from a source, in its two
//! parts, judges the history, and makes a line of the verdict.
#![tactic(auto)]

mod auditor;
mod dividing;
mod laws;
mod rules;
mod source_audit;

pub use auditor::{AuditRefusal, audit};
pub use laws::{a_text_has_one_verdict, an_accepted_text_is_one_history};
pub use rules::AuditRule;
pub use source_audit::{AuditStop, HistoryFault, MOST_AUDIT_BYTES, audit_source};
