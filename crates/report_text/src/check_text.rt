// The line that says what a script has.
ghost use Rattle.std.specs.Prelude.{◌≡◌, ◌<◌, ◌^◌, IfOk};
ghost use Rattle.tx_trees.specs.Adding.{all_subs};
ghost use Rattle.report_text.specs.Lines.{check_line_of};

use crate::run_report::advances;
use history_text::push_count;
use std::alloc::Global;
use tv_base::{NoMemory, Text};
use tx_trees::{Script, Tree};

/// The line that counts a script's parts: nodes, items, transactions, subtransactions (with roots) and advancements.
/// Running out of memory is the only error.
#[tactic(auto, using(crate::proofs::Counts::fits))]
pub fn check_line(alloc: Global, script: &Script) -> Result<Text, NoMemory>
    ensures { IfOk result (λ text. text ≡ check_line_of script.now) }
{
    let mut text = Text::new(alloc);
    push_count(&mut text, b"ok nodes ", script.nodes() as u64)?;
    push_count(&mut text, b" items ", script.items().len() as u64)?;
    push_count(&mut text, b" trees ", script.trees().len() as u64)?;
    push_count(&mut text, b" subs ", count_subs(script.trees()))?;
    push_count(&mut text, b" advances ", advances(script) as u64)?;
    text.push_all(b"\n")?;
    Ok(text)
}

// How many subtransactions the trees have.
pub(crate) fn count_subs(trees: &[Tree]) -> u64
    requires { all_subs trees.now < 2 ^ 64 }
    ensures { result ≡ all_subs trees.now }
{
    let mut count = 0u64;
    for tree in trees {
        count += tree.subs.items().len() as u64;
    }
    count
}
