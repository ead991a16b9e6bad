ghost use Rattle.std.specs.Prelude.{◌≡◌, ◌++◌, ◌<◌, ◌⊎◌, ◌∷◌, [], length, slice_get, Some, IfOk, OnOk, OnErr};
ghost use Rattle.pf_laneops.specs.Meaning.LaneCodes.{CanAdd, IsCode};

use crate::lane_item::LaneItem;
use indexmap::IndexSet;
use std::alloc::{AllocError, Global};
use std::marker::Model;

/// Items in order, each once, and the number of the output item.
#[derive(Drop)]
pub struct LaneCode {
    items: IndexSet<LaneItem>,
    output: u32,
}

impl Model for LaneCode {
    ghost use Rattle.pf_laneops.specs.Meaning.LaneCodes.{Code, IsCode};

    ghost Value = { Code };

    ghost view = { λ c. record { items = c.items.keys; output = c.output } };

    ghost invariant = { λ c. IsCode c.items.keys };
}

impl LaneCode {
    /// Code without items, with the output number 0. It takes no memory.
    pub fn new(alloc: Global) -> LaneCode
        ensures items { result.items ≡ [] }
        ensures output { result.output ≡ 0 }
    {
        LaneCode {
            items: IndexSet::new(alloc),
            output: 0,
        }
    }

    /// The number of the item: that of an equal item, else the new last number. After want of
    /// memory the code is as before.
    pub fn add(&mut self, item: LaneItem) -> Result<u32, AllocError>
        requires { CanAdd self.old.items item }
        ensures item { IfOk result (λ n. slice_get self.new.items n ≡ Some item) }
        ensures items { (self.new.items ≡ self.old.items) ⊎ (self.new.items ≡ self.old.items ++ item ∷ []) }
        ensures output { self.new.output ≡ self.old.output }
        ensures err { OnErr result (self.new ≡ self.old) }
        ensures kept { IsCode self.new.items }
    {
        let (n, _) = self.items.insert_full(item)?;
        Ok(n as u32)
    }

    /// Makes item n the output.
    pub fn set_output(&mut self, n: u32)
        requires { n < length self.old.items }
        ensures { self.new ≡ record self.old { output = n } }
    {
        self.output = n;
    }

    /// The items, in the order in which they were first added.
    pub fn items(&self) -> &[LaneItem]
        ensures value { result.now ≡ self.now.items }
        ensures kept { IsCode self.now.items }
    {
        self.items.as_slice()
    }

    /// The number of the output item.
    pub fn output(&self) -> u32
        ensures { result ≡ self.now.output }
    {
        self.output
    }
}
