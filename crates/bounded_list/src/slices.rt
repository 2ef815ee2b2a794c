//! A bounded list as a slice of its items, and the loops over these.

ghost use Rattle.std.specs.Prelude.{◌≡◌, ◌<◌, ◌≤◌, ◌^◌, length, slice_index_or};
ghost use Rattle.std.specs.Borrow.{sem};
ghost use Rattle.std.specs.Iterator.Runs.{EveryRun, ItemsMapTo};
ghost use Rattle.std.specs.Slice.Iter.{iter_rest, iter_mut_rest, iter_steps, iter_mut_steps};
ghost use Rattle.bounded_list.specs.Lends.{LendsItems, LendsItem, LendsEach};

use crate::BoundedList;
use std::ops::{DerefSlice, DerefSliceMut, Index, IndexMut};
use std::slice;

impl<T> DerefSlice for BoundedList<T> {
    type Elem = T;

    ghost deref_gives = { λ list items. (items ≡ list.items) × (length items ≤ list.room) };

    #[inline(always)]
    fn deref(&self) -> &[T]
        ensures value { result.now ≡ self.now.items }
        ensures fits { length result.now ≤ self.now.room }
    {
        self.as_slice()
    }
}

impl<T> DerefSliceMut for BoundedList<T> {
    #[inline(always)]
    fn deref_mut(&mut self) -> &mut [T]
        ensures* writes_back { sem 𝓛 (LendsItems T.row self.entry result) }
        ensures value { result.now ≡ self.old.items }
        ensures fits { length result.now ≤ self.old.room }
    {
        self.as_mut_slice()
    }
}

impl<T> Index<usize> for BoundedList<T> {
    type Output = T;

    ghost can_index = { λ list index. index < length list.items };

    ghost index_gives = { λ list index item. item ≡ slice_index_or list.items index item };

    #[inline(always)]
    fn index(&self, index: usize) -> &T
        requires { index < length self.now.items }
        ensures { result.now ≡ slice_index_or self.now.items index result.now }
    {
        &self.as_slice()[index]
    }
}

impl<T> IndexMut<usize> for BoundedList<T> {
    #[inline(always)]
    fn index_mut(&mut self, index: usize) -> &mut T
        requires { index < length self.old.items }
        ensures* writes_back { sem 𝓛 (LendsItem T.row self.entry index result) }
        ensures value { result.now ≡ slice_index_or self.old.items index result.now }
    {
        self.item_mut(index)
    }
}

impl<'a, T> IntoIterator for &'a BoundedList<T> {
    type Item = &'a T;

    type IntoIter = slice::Iter<'a, T>;

    ghost into_iter_gives = { λ list iter. (iter_rest iter ≡ list.now.items)
        × (length (iter_rest iter) < 2 ^ 64)
        × EveryRun (iter_steps {A = T})
        (λ run. ItemsMapTo run (λ item. item.now) (iter_rest run.from)) };

    #[inline(always)]
    fn into_iter(self) -> slice::Iter<'a, T> {
        self.as_slice().iter()
    }
}

impl<'a, T> IntoIterator for &'a mut BoundedList<T> {
    type Item = &'a mut T;

    type IntoIter = slice::IterMut<'a, T>;

    ghost into_iter_gives = { λ list iter. (iter_mut_rest iter ≡ list.now.items)
        × (length (iter_mut_rest iter) < 2 ^ 64)
        × EveryRun (iter_mut_steps {A = T})
        (λ run. ItemsMapTo run (λ item. item.now) (iter_mut_rest run.from)) };

    #[inline(always)]
    fn into_iter(self) -> slice::IterMut<'a, T>
        ensures* writes_back { sem 𝓛 (LendsEach T.row self.entry result) }
        ensures into_iter_gives { (iter_mut_rest result ≡ self.old.items)
            × (length (iter_mut_rest result) < 2 ^ 64)
            × EveryRun (iter_mut_steps {A = T})
            (λ run. ItemsMapTo run (λ item. item.now) (iter_mut_rest run.from)) }
    {
        self.as_mut_slice().iter_mut()
    }
}
