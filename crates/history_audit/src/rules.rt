// What a printed history may fail in.
ghost use Rattle.std.specs.Prelude.{◌≡◌};
ghost use Rattle.history_audit.specs.Names.{audit_rule_name, rule_name};

use board_rules::Rule;

/// In what the text of a history fails first. The first three cases are of an entry, in this order.
#[derive(Clone, Copy, Debug, PartialEq, Eq)]
pub enum AuditRule {
    /// What comes next isn't the lines of an entry that may be printed.
    Text,
    /// The stamp isn't the next one, or the message taken wasn't sent, was taken before or isn't the actor's.
    Postal,
    /// The entry breaks this rule of the Board, and none before it.
    Judged(Rule),
    /// No entry fails, but the client hasn't finished.
    End,
}

impl AuditRule {
    /// Its name, as a refusal tells it: that of the rule that is broken, or the case's own.
    pub fn name(self) -> &'static str
        ensures { result.now ≡ audit_rule_name self }
    {
        match self {
            AuditRule::Text => "Text",
            AuditRule::Postal => "Postal",
            AuditRule::Judged(rule) => rule_name(rule),
            AuditRule::End => "End",
        }
    }
}

// The name of a rule.
fn rule_name(rule: Rule) -> &'static str
    ensures { result.now ≡ rule_name rule }
{
    match rule {
        Rule::Born => "Born",
        Rule::Did => "Did",
        Rule::Turned => "Turned",
        Rule::Showed => "Showed",
        Rule::Swept => "Swept",
        Rule::Fits => "Fits",
        Rule::Right => "Right",
        Rule::AtOnce => "AtOnce",
    }
}
