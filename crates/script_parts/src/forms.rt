// What a script's form allows.
ghost use Rattle.std.specs.Prelude.{◌≡◌, ◌≤◌};
ghost use Rattle.commute_ops.specs.declared.kinds.TheConstants.{MOST_AMOUNT};
ghost use Rattle.script_parts.specs.Forms.{most_amount, most_nodes};

use crate::parts::Form;
use commute_ops::MOST_AMOUNT;
use tv_base::MOST_NODES;

impl Form {
    /// The greatest number of nodes: 16 in the first form, 64 in the second.
    pub fn most_nodes(self) -> u8
        ensures { result ≡ most_nodes self }
    {
        match self {
            Form::One => 16,
            Form::Two => MOST_NODES as u8,
        }
    }

    /// The greatest magnitude of an amount or an initial value, and the greatest sum of an item's magnitudes: 10^15 in
    /// the first form, 10^30 in the second.
    pub fn most_amount(self) -> u128
        ensures most { result ≡ most_amount self }
        ensures small { result ≤ MOST_AMOUNT }
    {
        match self {
            Form::One => 1_000_000_000_000_000,
            Form::Two => MOST_AMOUNT,
        }
    }
}
