//! Small lists, which contracts see as plain lists.
ghost use Rattle.std.specs.Prelude.{◌≡◌, List, [], ◌∷◌, ◌++◌, ◌↔◌, length, slice_get, IsTrue, OnOk};
ghost use Rattle.std.specs.Prelude.{OnErr, option_map};

use super::memory::Memory;
use super::mono::Mono;
use std::alloc::Global;
use std::marker::Model;

/// A list. Contracts see it as the list of its elements.
#[derive(Drop)]
pub struct Seq<T> {
    items: Vec<T>,
}

/// A list of monomials.
pub type Monos = Seq<Mono>;

/// A list of lists of monomials.
pub type MonoLists = Seq<Monos>;

/// A list of bytes.
pub type Text = Seq<u8>;

/// The bytes of a name.
pub type Name = Seq<u8>;

/// A list of names.
pub type Names = Seq<Name>;

/// A list of texts.
pub type Pages = Seq<Text>;

/// A list of input positions, which begin with 1: the greatest variable's first.
pub type Order = Seq<u32>;

impl<T> Model for Seq<T> {
    ghost Value = { List T };

    ghost view = { λ s. s.items.items };
}

impl<T> Seq<T> {
    /// The empty list. It takes no memory.
    pub fn new(alloc: Global) -> Seq<T>
        ensures { result ≡ [] }
    {
        Seq {
            items: Vec::new(alloc),
        }
    }

    /// The list of the elements of `items`. It takes no memory.
    pub fn from_vec(items: Vec<T>) -> Seq<T>
        ensures { result ≡ items.items }
    {
        Seq { items }
    }

    /// The elements, as a vector again. It takes no memory.
    pub fn into_vec(self) -> Vec<T>
        ensures { result.items ≡ self }
    {
        let Seq { items } = self;
        items
    }

    /// The number of elements.
    pub fn len(&self) -> usize
        ensures { result ≡ length self.now }
    {
        self.items.len()
    }

    /// Whether there are no elements.
    pub fn is_empty(&self) -> bool
        ensures { IsTrue result ↔ (self.now ≡ []) }
    {
        self.items.is_empty()
    }

    /// The elements in order.
    pub fn as_slice(&self) -> &[T]
        ensures { result.now ≡ self.now }
    {
        self.items.as_slice()
    }
}

impl<T: Drop> Seq<T> {
    /// Puts the element at the end of the list.
    pub fn push(&mut self, item: T) -> Result<(), Memory>
        ensures ok { OnOk result (self.new ≡ self.old ++ item ∷ []) }
        ensures err { OnErr result (self.new ≡ self.old) }
    {
        self.items.push(item)?;
        Ok(())
    }
}
