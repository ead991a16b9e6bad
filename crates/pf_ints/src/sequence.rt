ghost use Rattle.std.specs.Prelude.{◌≡◌, [], ◌∷◌, ◌++◌, ◌+◌, ◌<◌, ◌≤◌, length, take, drop, slice_get, slice_set, slice_index_or, IfOk, OnOk, OnErr, OnSome, IsTrue, ◌↔◌};
ghost use Rattle.std.specs.Option.{option_copied};

use crate::name::Name;
use std::alloc::{AllocError, Global};
use std::marker::Model;

/// A list that contracts see as the list of its items.
#[derive(Drop)]
pub struct Sequence<T> {
    items: Vec<T>,
}

/// Whole numbers.
pub type NumberList = Sequence<i128>;

/// Bytes.
pub type ByteList = Sequence<u8>;

/// The way to a node of a tree: the number of a child at each step, counted from 0.
pub type Path = Sequence<u8>;

/// Pixels of 8 or 16 bits.
pub type PixelList = Sequence<u16>;

/// Numbers of names.
pub type NameNumbers = Sequence<u32>;

/// Names.
pub type NameList = Sequence<Name>;

impl<T> Model for Sequence<T> {
    ghost use Rattle.std.specs.Prelude.{List};
    ghost use Rattle.std.specs.Coded.{coded_list};

    ghost Value = { List T };

    ghost coded = { coded_list T.code };

    ghost view = { λ s. s.items.items };
}

impl<T> Sequence<T> {
    /// A list with no item. It takes no memory.
    pub fn new(alloc: Global) -> Sequence<T>
        ensures { result ≡ [] }
    {
        Sequence {
            items: Vec::new(alloc),
        }
    }

    /// The items of the vector, in order.
    pub fn from_vec(items: Vec<T>) -> Sequence<T>
        ensures { result ≡ items.items }
    {
        Sequence { items }
    }

    /// How many items there are.
    pub fn len(&self) -> usize
        ensures { result ≡ length self.now }
    {
        self.items.len()
    }

    /// Whether there is no item.
    pub fn is_empty(&self) -> bool
        ensures { IsTrue result ↔ (self.now ≡ []) }
    {
        self.items.is_empty()
    }

    /// Item n, counted from 0, or None where there is no such place.
    pub fn get(&self, n: usize) -> Option<&T>
        ensures value { option_copied result ≡ slice_get self.now n }
        ensures within { OnSome result (n < length self.now) }
    {
        self.items.get(n)
    }

    /// The items, in order.
    pub fn as_slice(&self) -> &[T]
        ensures { result.now ≡ self.now }
    {
        self.items.as_slice()
    }
}

impl<T: Drop> Sequence<T> {
    /// Appends the item. After want of memory the list is as before.
    pub fn push(&mut self, item: T) -> Result<(), AllocError>
        ensures ok { OnOk result (self.new ≡ self.old ++ item ∷ []) }
        ensures err { OnErr result (self.new ≡ self.old) }
    {
        self.items.push(item)?;
        Ok(())
    }

    /// Puts the item in place of item n.
    pub fn set(&mut self, n: usize, item: T)
        requires { n < length self.old }
        ensures { self.new ≡ slice_set self.old n item }
    {
        self.items[n] = item;
    }
}

impl<T: Copy> Sequence<T> {
    /// A list of the slice's items.
    pub fn from_slice(alloc: Global, items: &[T]) -> Result<Sequence<T>, AllocError>
        ensures { IfOk result (λ s. s ≡ items.now) }
    {
        let items = Vec::from_slice(alloc, items)?;
        Ok(Sequence { items })
    }

    /// Writes the items over those from place n on.
    pub fn overwrite(&mut self, n: usize, items: &[T])
        requires { n + length items.now ≤ length self.old }
        ensures { self.new ≡ take n self.old ++ (items.now ++ drop (n + length items.now) self.old) }
    {
        self.items.as_mut_slice()[n..n + items.len()].copy_from_slice(items);
    }
}

impl<T: Copy> Sequence<Sequence<T>> {
    /// Writes the items over the whole of list n, which has as many.
    pub fn overwrite_item(&mut self, n: usize, items: &[T])
        requires within { n < length self.old }
        requires alike { length items.now ≡ length (slice_index_or self.old n []) }
        ensures { self.new ≡ slice_set self.old n items.now }
    {
        let item = &mut self.items[n];
        item.overwrite(0, items);
    }
}

impl<T> Sequence<T> {
    /// Item n.
    pub fn at(&self, n: usize) -> &T
        requires { n < length self.now }
        ensures { slice_get self.now n ≡ Some result.now }
    {
        &self.items[n]
    }

    /// The items as a vector, in order.
    pub fn into_vec(self) -> Vec<T>
        ensures { result.items ≡ self }
    {
        let Sequence { items } = self;
        items
    }
}

/// A value that can be copied where there is memory. The copy equals what it copies.
pub trait Duplicate: Drop {
    fn copy(&self, alloc: Global) -> Result<Self, AllocError>
        ensures { IfOk result (λ c. c ≡ self.now) };
}

impl<T: Duplicate> Duplicate for Sequence<T> {
    fn copy(&self, alloc: Global) -> Result<Sequence<T>, AllocError> {
        let mut copies = Sequence::new(alloc);
        for item in self.items.as_slice() {
            copies.push(item.copy(alloc)?)?;
        }
        Ok(copies)
    }
}

impl Duplicate for i128 {
    fn copy(&self, _alloc: Global) -> Result<i128, AllocError> {
        Ok(*self)
    }
}

impl Duplicate for u8 {
    fn copy(&self, _alloc: Global) -> Result<u8, AllocError> {
        Ok(*self)
    }
}

impl Duplicate for u16 {
    fn copy(&self, _alloc: Global) -> Result<u16, AllocError> {
        Ok(*self)
    }
}

impl Duplicate for Name {
    fn copy(&self, _alloc: Global) -> Result<Name, AllocError> {
        Ok(*self)
    }
}
