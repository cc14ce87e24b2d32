// No run makes this call: an audit asks for the verdict alone.
ghost use Rattle.std.specs.Prelude.{◌<◌, IfOk, length};
ghost use Rattle.board_judge.specs.Judged.{IsWorthBy};

use crate::judge::Judge;
use commute_ops::Value;
use tv_base::{ItemNo, NoMemory, Version};

impl<'a> Judge<'a> {
    /// The value of an item in the serial order at a version, after the entries that were taken. Only a bag needs
    /// memory.
    pub fn worth(&self, item: ItemNo, version: Version) -> Result<Value, NoMemory>
        requires { item.0 < length self.now.script.items }
        ensures { IfOk result (IsWorthBy self.now item.0 version.0) }
    {
        let value = self.kept.worths[item.0 as usize].at(self.basis.alloc, version)?;
        Ok(value)
    }
}
