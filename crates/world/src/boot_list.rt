//! The boots of a replica, which contracts see as a list.

ghost use Rattle.std.specs.Prelude.{◌≡◌, [], ◌∷◌, ◌++◌, IfOk, OnOk, OnErr};
ghost use Rattle.world.specs.Steps.{had_boot};

use std::alloc::{AllocError, Global};
use std::marker::Model;

/// The boots of a replica, in their order.
#[derive(Drop)]
pub struct BootList {
    items: Vec<u64>,
}

impl Model for BootList {
    ghost use Rattle.std.specs.Prelude.{List, ℕ};

    ghost Value = { List ℕ };

    ghost view = { λ boots. boots.items.items };
}

impl BootList {
    /// The list of one boot. Fails only if out of memory.
    pub fn of_one(alloc: Global, boot: u64) -> Result<BootList, AllocError>
        ensures { IfOk result (λ boots. boots ≡ boot ∷ []) }
    {
        let mut items = Vec::new(alloc);
        items.push(boot)?;
        Ok(BootList { items })
    }

    /// Whether this boot is one of them.
    pub fn has(&self, boot: u64) -> bool
        ensures { result ≡ had_boot self.now boot }
    {
        self.items.contains(&boot)
    }

    /// Adds a boot. Fails only if out of memory.
    pub fn push(&mut self, boot: u64) -> Result<(), AllocError>
        ensures ok { OnOk result (self.new ≡ self.old ++ boot ∷ []) }
        ensures err { OnErr result (self.new ≡ self.old) }
    {
        self.items.push(boot)?;
        Ok(())
    }
}
