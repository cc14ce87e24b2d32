//! Laws of the report's lines while a run goes on, and its script too: the line of a tree that is whole stays as it is,
//! and where the client would finish, the lines of the script's trees are what each later report begins with, and what
//! their replies say.
#![tactic(auto)]

ghost use Rattle.line_laws.specs.Fronts.{FrontsStay};
ghost use Rattle.line_laws.specs.Lines.{LinesStay};
ghost use Rattle.line_laws.specs.Replies.{RepliesSayLines, RepliesStay};

/// The line of each tree that is whole in a run is the same in the report of each run that goes on from there, of each
/// script that goes on from this one.
pub fn lines_stay()
    ensures { LinesStay }
{}

/// Where the client would finish with the next entry, the lines of the script's trees are what the report begins with
/// of each run that goes on from there, of each script that goes on from this one.
pub fn fronts_stay()
    ensures { FrontsStay }
{}

/// Where the client would finish with the next entry, the lines of the script's trees by their replies, of which that
/// entry may take the last, are those of the report.
pub fn replies_say_lines()
    ensures { RepliesSayLines }
{}

/// The reply of a tree that a history took is that of each history that goes on.
pub fn replies_stay()
    ensures { RepliesStay }
{}
