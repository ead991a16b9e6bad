ghost use Rattle.std.specs.Prelude.{◌≡◌, [], ◌∷◌, ◌++◌, OnOk, MatchOption};

use std::alloc::{AllocError, Global};
use std::marker::Model;

/// A list that grows and shrinks at its front.
#[derive(Drop)]
pub struct Stack<T> {
    items: Vec<T>,
}

impl<T> Model for Stack<T> {
    ghost use Rattle.std.specs.Prelude.{List, reverse};
    ghost use Rattle.std.specs.Coded.{coded_list};

    ghost Value = { List T };

    ghost coded = { coded_list T.code };

    ghost view = { λ s. reverse s.items.items };
}

impl<T> Stack<T> {
    pub fn new(alloc: Global) -> Stack<T>
        ensures { result ≡ [] }
    {
        Stack {
            items: Vec::new(alloc),
        }
    }

    pub fn pop(&mut self) -> Option<T>
        ensures { MatchOption result ((self.old ≡ []) × (self.new ≡ [])) (λ first. self.old ≡ first ∷ self.new) }
    {
        self.items.pop()
    }
}

impl<T: Drop> Stack<T> {
    pub fn push(&mut self, item: T) -> Result<(), AllocError>
        ensures { OnOk result (self.new ≡ item ∷ self.old) }
    {
        self.items.push(item)?;
        Ok(())
    }
}

impl<T: Copy + Drop> Stack<T> {
    /// Puts all items to the front, the first of them first.
    pub fn push_all(&mut self, items: &[T]) -> Result<(), AllocError>
        ensures { OnOk result (self.new ≡ items.now ++ self.old) }
    {
        let mut left = items.len();
        while 0 < left {
            left -= 1;
            self.push(items[left])?;
        }
        Ok(())
    }
}
