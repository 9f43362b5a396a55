//! A script played on one thread.
ghost use Rattle.std.specs.Prelude.{◌≡◌, IfOk, map};
ghost use Rattle.election_script.specs.Lawful.{IsLawful};
ghost use Rattle.polling_world.specs.Keys.{key_of, roster_of};
ghost use Rattle.polling_world.specs.Playing.{IsPlayed};

use crate::machine::Memory;
use crate::world::World;
use election_script::Script;
use lms_sign::LmsSecret;
use std::alloc::Global;

/// The script's machines, which have these keys, once they have taken its steps, in order. A step
/// that changes nothing is passed over.
pub fn play(alloc: Global, script: &Script, keys: Vec<LmsSecret>) -> Result<World, Memory>
    requires lawful { IsLawful script.now }
    requires keys { keys.items ≡ map (key_of script.now) script.now.machines }
    ensures machines { IfOk result (λ world. IsPlayed script.now world.machines) }
    ensures roster { IfOk result (λ world. world.roster ≡ roster_of script.now) }
{
    let mut world = World::make(alloc, script, keys)?;
    let steps = script.steps.as_slice();
    for step in steps {
        let _stepped = world.step(alloc, step)?;
    }
    Ok(world)
}
