ghost use Rattle.std.specs.Prelude.{◌≡◌, ◌<◌, ◌++◌, [], ◌∷◌, length};

use pf_machine::Control;
use std::marker::Model;

/// An instruction of a table of lines.
#[derive(Clone, Copy, Drop)]
pub enum TableLine<O> {
    Vector(O),
    Control(Control),
}

/// At most eight numbers.
#[derive(Drop)]
pub struct Numbers {
    items: [u32; 8],
    count: usize,
}

impl Model for Numbers {
    ghost use Rattle.std.specs.Prelude.{List, ℕ, take, ◌≤◌, ◌≡◌, length};

    ghost Value = { List ℕ };

    ghost view = { λ l. take l.count l.items };

    ghost invariant = { λ l. (l.count ≤ 8) × (length l.items ≡ 8) };
}

impl Numbers {
    /// No number.
    pub fn new() -> Numbers
        ensures { result ≡ [] }
    {
        Numbers {
            items: [0; 8],
            count: 0,
        }
    }

    /// The list with one number more.
    pub fn with(mut self, n: u32) -> Numbers
        requires { length self < 8 }
        ensures { result ≡ self ++ n ∷ [] }
    {
        self.items[self.count] = n;
        self.count += 1;
        self
    }

    pub fn as_slice(&self) -> &[u32]
        ensures { result.now ≡ self.now }
    {
        &self.items[..self.count]
    }
}

/// A frame of a table, by its place, with the operands at its marks.
#[derive(Drop)]
pub struct Spelling {
    pub place: usize,
    pub numbers: Numbers,
}
