//! A list that contracts see as its items.
ghost use Rattle.std.specs.Prelude.{◌≡◌, length};

use std::marker::Model;

/// A list seen by contracts as its items in order. It is made from a `Vec` and turns back into it, without taking memory.
#[derive(Debug)]
pub struct Items<T> {
    items: Vec<T>,
}

impl<T> Model for Items<T> {
    ghost use Rattle.std.specs.Prelude.{List};
    ghost use Rattle.std.specs.Coded.{coded_list};

    ghost Value = { List T };

    ghost coded = { coded_list T.code };

    ghost view = { λ a. a.items.items };
}

// Written out, so that a caller sees one call where it drops a list.
impl<T: Drop> Drop for Items<T> {
    fn drop(self) {
        let Items { items: vec } = self;
        drop(vec);
    }
}

impl<T> Items<T> {
    /// Takes over a `Vec` without copying.
    pub fn new(items: Vec<T>) -> Self
        ensures { result ≡ items.items }
    {
        Items { items }
    }

    pub fn as_slice(&self) -> &[T]
        ensures { result.now ≡ self.now }
    {
        self.items.as_slice()
    }

    /// Returns the `Vec` without copying.
    pub fn into_vec(self) -> Vec<T>
        ensures { result.items ≡ self }
    {
        let Items { items } = self;
        items
    }
}
