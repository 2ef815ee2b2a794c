//! A vector that contracts see as the list of its items, so that a value that holds one can be
//! compared with a definition's.

ghost use Rattle.std.specs.Prelude.{◌≡◌};

use std::marker::Model;

/// Items in order.
#[derive(Drop)]
pub struct List<T> {
    items: Vec<T>,
}

impl<T> Model for List<T> {
    ghost use Rattle.std.specs.Prelude.{List as Items};

    ghost Value = { Items T };

    ghost view = { λ list. list.items.items };
}

impl<T> List<T> {
    ghost use Rattle.std.specs.Borrow.{sem};
    ghost use Rattle.cs_types.specs.Lending.{LendsItems};

    /// The items of a vector. It takes no memory.
    pub fn of(items: Vec<T>) -> Self
        ensures { result ≡ items.items }
    {
        List { items }
    }

    /// The vector of the items. It takes no memory.
    pub fn into_vec(self) -> Vec<T>
        ensures { result.items ≡ self }
    {
        let List { items } = self;
        items
    }

    /// The items, lent.
    pub fn items(&self) -> &[T]
        ensures { result.now ≡ self.now }
    {
        &self.items
    }

    /// The items, lent to be changed.
    pub fn items_mut(&mut self) -> &mut [T]
        ensures* writes_back { sem 𝓛 (LendsItems T.row self.entry result) }
        ensures value { result.now ≡ self.old }
    {
        self.items.as_mut_slice()
    }
}
