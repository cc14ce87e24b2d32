ghost use Rattle.std.specs.Prelude.{◌≡◌, IfOk};

use crate::value::Value;
use std::alloc::Global;
use tv_base::{ItemNo, NoMemory, Seq};

/// The values that the gets of a subtransaction or of a tree gave, each with its item, in order.
pub type Values = Seq<(ItemNo, Value), 0xffff_ffff>;

/// An equal list of values. The copy of an empty list, which most are, needs no memory.
pub fn copy_values(alloc: Global, values: &Values) -> Result<Values, NoMemory>
    ensures { IfOk result (λ copy. copy ≡ values.now) }
{
    if values.items().is_empty() {
        return Ok(Values::new(alloc));
    }
    Ok(values.clone()?)
}
