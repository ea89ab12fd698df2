//! Restarts of replicas.

ghost use Rattle.std.specs.Prelude.{◌≡◌, ◌<◌, ◌++◌, [], ◌∷◌, length, slice_set, vec_len, OnOk, OnErr};
ghost use Rattle.world.specs.Inner.CoreSteps.{MayStep};
ghost use Rattle.world.specs.Inner.Invariant.{IsReady};

use crate::boot_list::BootList;
use crate::cores::{Cores, new_replica};
use script::{Event, Output};
use std::alloc::AllocError;

impl Cores {
    /// Replaces a replica by a new one, in a boot that it never had: without frames, queries or a
    /// batch, and with no rows. All memory is taken first; if there is none, nothing has changed.
    pub fn restart(&mut self, number: u8, boot: u64) -> Output
        requires ready { IsReady self.old }
        requires there { number < length self.old.replicas }
        ensures { MayStep self.old (Event.Restart number boot) result self.new }
    {
        let index = number as usize;
        if self.boots[index].has(boot) {
            return Output::BootUsed;
        }
        let Ok(replica) = new_replica(self.alloc, &self.setup, self.partitions, number, boot) else {
            return Output::Memory;
        };
        let boots = &mut self.boots[index];
        if begin_boot(&mut self.replicas, index, replica, boots, boot).is_err() {
            return Output::Memory;
        }
        Output::Boot(boot)
    }
}

/// Puts a replica in the place of an old one, and notes its boot. Fails only if out of memory, and
/// then the old one stays.
fn begin_boot<T: Drop>(
    replicas: &mut Vec<T>,
    index: usize,
    replica: T,
    boots: &mut BootList,
    boot: u64,
) -> Result<(), AllocError>
    requires { index < vec_len replicas.old }
    ensures ok { OnOk result ((replicas.new.items ≡ slice_set replicas.old.items index replica)
        × (boots.new ≡ boots.old ++ boot ∷ [])) }
    ensures err { OnErr result ((replicas.new.items ≡ replicas.old.items) × (boots.new ≡ boots.old)) }
{
    boots.push(boot)?;
    replicas[index] = replica;
    Ok(())
}
