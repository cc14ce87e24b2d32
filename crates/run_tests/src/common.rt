// Scripts of texts, letters, and worlds whose letters are taken as a picker chooses.
ghost use Rattle.world_core.specs.Actors.{IsWorldOf};

use letter_types::{Body, Letter, LetterId};
use script_reader::read_script;
use sim_runner::Picker;
use std::alloc::Global;
use std::test::Fail;
use tv_base::{ActorNo, NoMemory, Stamp};
use tx_trees::Script;
use world_core::World;

/// The script of a text.
pub(crate) fn script_of(alloc: Global, text: &[u8]) -> Result<Script, Fail> {
    Ok(read_script(alloc, text)?)
}

/// A message between these actors.
pub(crate) fn letter(from: u8, to: u8, body: Body) -> Letter {
    Letter {
        id: LetterId {
            stamp: Stamp(1),
            place: 0,
        },
        from: ActorNo(from),
        to: ActorNo(to),
        body,
    }
}

/// Takes at most `most` messages of a world, as a picker chooses.
pub(crate) fn take<P: Picker>(
    script: &Script,
    world: &mut World,
    picker: &mut P,
    most: u32,
) -> Result<(), NoMemory>
    requires { IsWorldOf script.now world.old }
    ensures { IsWorldOf script.now world.new }
{
    for _ in 0..most {
        if world.waiting() == 0 {
            break;
        }
        let place = picker.choose(world) % world.waiting();
        world.step(script, place)?;
    }
    Ok(())
}
