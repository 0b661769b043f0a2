//! Lists that contracts see as lists.
ghost use Rattle.std.specs.Mem.{FitsInMemory};
ghost use Rattle.std.specs.Prelude.{◌≡◌};

use std::marker::Model;
use std::slice;

/// A list of items, in order. A list of one item takes no block of memory.
#[derive(Debug, Drop)]
pub struct Items<T> {
    held: Held<T>,
}

#[derive(Debug, Drop)]
enum Held<T> {
    One(T),
    Many(Vec<T>),
}

impl<T> Model for Items<T> {
    ghost use Rattle.std.specs.Prelude.{List};
    ghost use Rattle.rx_ranges.specs.Held.{held_items};

    ghost Value = { List T };

    ghost view = { λ l. held_items l.held };
}

impl<T: Drop> Items<T> {
    /// These items.
    pub fn from_vec(items: Vec<T>) -> Self
        ensures { result ≡ items.items }
    {
        let mut items = items;
        if items.len() == 1 {
            if let Some(item) = items.pop() {
                return Items {
                    held: Held::One(item),
                };
            }
        }
        Items {
            held: Held::Many(items),
        }
    }
}

impl<T> Items<T> {
    /// The items in order.
    pub fn items(&self) -> &[T]
        requires { FitsInMemory T.row }
        ensures { result.now ≡ self.now }
    {
        match &self.held {
            Held::One(item) => slice::from_ref(item),
            Held::Many(items) => items.as_slice(),
        }
    }
}
