ghost use Rattle.std.specs.Prelude.{◌≡◌, ◌==◌, ◌≤◌, length};
ghost use Rattle.std.specs.Cmp.Lexicographic.{pointwise};
ghost use Rattle.std.specs.Cmp.Rules.{comparing, hashing};
ghost use Rattle.std.specs.Hash as fed;
ghost use Rattle.std.proofs.Common.{rules};

use smallvec::SmallVec;
use std::alloc::Global;
use std::hash::{Hash, Hasher};
use std::marker::Model;

/// Up to four numbers of earlier items, in order.
#[derive(Drop)]
pub struct ArgList {
    numbers: SmallVec<u32, 4>,
}

impl Model for ArgList {
    ghost use Rattle.std.specs.Prelude.{List, ℕ, length, ◌≤◌};
    ghost use Rattle.std.specs.Coded.{coded_list, coded_ℕ};

    ghost Value = { List ℕ };

    ghost coded = { coded_list coded_ℕ };

    ghost view = { λ l. l.numbers.items };

    ghost invariant = { λ l. length l.numbers.items ≤ 4 };
}

impl ArgList {
    /// The list of these numbers. It takes no memory.
    pub fn of(alloc: Global, args: &[u32]) -> ArgList
        requires { length args.now ≤ 4 }
        ensures { result ≡ args.now }
    {
        match SmallVec::from_slice(alloc, args) {
            Ok(numbers) => ArgList { numbers },
            Err(_) => unreachable!(),
        }
    }

    /// The numbers, in order.
    pub fn numbers(&self) -> &[u32]
        ensures value { result.now ≡ self.now }
        ensures few { length result.now ≤ 4 }
    {
        self.numbers.as_slice()
    }
}

impl PartialEq for ArgList {
    ghost eq = { pointwise ◌==◌ };

    ghost laws = { Prim.search (comparing, rules) };

    fn eq(&self, other: &ArgList) -> bool {
        self.numbers() == other.numbers()
    }
}

impl Eq for ArgList {
    ghost laws = { Prim.search (comparing, rules) };
}

impl Hash for ArgList {
    ghost hash_input = { fed.slice fed.u32 };

    ghost respects_eq = { Prim.search (hashing, rules) };

    fn hash<H: Hasher>(&self, state: &mut H) {
        self.numbers().hash(state);
    }
}
