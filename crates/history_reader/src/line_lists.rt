// The lines of letters, and those of acts.
ghost use Rattle.std.specs.Prelude.{codes, IfOk};
ghost use Rattle.history_text.specs.History.{act_lines, sent_lines};
ghost use Rattle.history_text.specs.Printable.{IsAct, IsSent};
ghost use Rattle.history_reader.specs.inside.Lines.{AreLines};

use crate::heads::{read_act_line, read_sent};
use crate::lines::Lines;
use letter_types::{Acts, Letters};
use std::alloc::Global;
use tv_base::NoMemory;
use tx_trees::Script;

// The lines of letters, up to one of another kind.
#[tactic(auto, using(crate::proofs::Printed::no_letter_line, crate::proofs::Printed::bad_letter_line, crate::proofs::Printed::good_letter_line))]
pub(crate) fn read_letters(
    alloc: Global,
    script: &Script,
    lines: &mut Lines,
) -> Result<Option<Letters>, NoMemory>
    ensures { IfOk result (AreLines (codes "sent ") (sent_lines script.now) (IsSent script.now) lines.old lines.new) }
{
    let mut letters = Letters::new(alloc);
    'lines: while lines.begins(b"sent ") {
        let _nodes = script.nodes();
        let Some(line) = lines.next() else {
            return Ok(None);
        };
        let Some(letter) = read_sent(alloc, script, line)? else {
            return Ok(None);
        };
        letters.push(letter)?;
    }
    Ok(Some(letters))
}

// The lines of acts, up to one of another kind.
#[tactic(auto, using(crate::proofs::Printed::no_act_line, crate::proofs::Printed::bad_act_line, crate::proofs::Printed::good_act_line))]
pub(crate) fn read_acts(
    alloc: Global,
    script: &Script,
    lines: &mut Lines,
) -> Result<Option<Acts>, NoMemory>
    ensures { IfOk result (AreLines (codes "act ") (act_lines script.now) (IsAct script.now) lines.old lines.new) }
{
    let mut acts = Acts::new(alloc);
    'lines: while lines.begins(b"act ") {
        let _nodes = script.nodes();
        let Some(line) = lines.next() else {
            return Ok(None);
        };
        let Some(act) = read_act_line(alloc, script, line)? else {
            return Ok(None);
        };
        acts.push(act)?;
    }
    Ok(Some(acts))
}
