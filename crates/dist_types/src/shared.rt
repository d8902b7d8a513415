//! Lists that their copies share.
ghost use Rattle.std.specs.Prelude.{◌≡◌, IfOk};
ghost use Rattle.std.specs.Arc.{arc_slice_items};
ghost use Rattle.std.specs.Cmp.Lexicographic.{pointwise, lists_per, lists_equiv};

use crate::fault::OutOfMemory;
use crate::items::TryClone;
use std::alloc::Global;
use std::marker::Model;
use std::sync::ArcSlice;

/// A list that doesn't change, one for all its copies.
#[derive(Debug)]
pub struct Shared<T> {
    items: ArcSlice<T>,
}

impl<T: Drop> Drop for Shared<T> {
    fn drop(self) {
        let Shared { items: _ } = self;
    }
}

impl<T> Model for Shared<T> {
    ghost use Rattle.std.specs.Prelude.{List};
    ghost use Rattle.std.specs.Arc.{arc_slice_items};

    ghost Value = { List T };

    ghost view = { λ list. arc_slice_items list.items };
}

impl<T> Shared<T> {
    /// The elements, in their order.
    pub fn as_slice(&self) -> &[T]
        ensures { result.now ≡ self.now }
    {
        self.items.as_slice()
    }
}

impl<T: Drop> Shared<T> {
    /// The list of these elements, in their order. It takes memory for the count of the copies;
    /// where there is none, the elements are dropped.
    pub fn of(items: Vec<T>) -> Result<Shared<T>, OutOfMemory>
        ensures { IfOk result (λ list. list ≡ items.items) }
    {
        let items = ArcSlice::from_vec(items)?;
        Ok(Shared { items })
    }
}

impl<T: Drop> TryClone for Shared<T> {
    fn try_clone(&self, _alloc: Global) -> Result<Shared<T>, OutOfMemory> {
        let items = self.items.clone()?;
        Ok(Shared { items })
    }
}

impl<T: PartialEq> PartialEq for Shared<T> {
    ghost eq = { pointwise T.eq };

    ghost laws = { lists_per T.laws };

    fn eq(&self, other: &Shared<T>) -> bool {
        self.items == other.items
    }
}

impl<T: Eq> Eq for Shared<T> {
    ghost laws = { lists_equiv T.Eq.laws };
}
