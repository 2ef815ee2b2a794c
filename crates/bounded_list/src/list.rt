//! The list and its methods. It is apart, since no other file reads how the items are kept.

ghost use Rattle.std.specs.Prelude.{◌≡◌, ◌+◌, ◌-◌, ◌<◌, ◌≤◌, ◌==◌, ◌↔◌, [], ◌∷◌, ◌++◌, length, take, replicate, insert, remove, Some, IsOk, IsSome, IfOk, IfSome, IfNone, slice_get, slice_index_or};
ghost use Rattle.std.specs.List.{IsItemAtMut};
ghost use Rattle.std.specs.List.Retain.{IsFiltered};
ghost use Rattle.std.specs.Fn.{CalledAt};
ghost use Rattle.std.specs.Option.{option_to_list};
ghost use Rattle.std.specs.Borrow.{sem};

use std::alloc::{AllocError, Global};
use std::marker::Model;

/// Items in order, and room for a fixed number of them. `with_room` and `filled` make a list and alone take memory: no
/// other call does, and none hands out an allocator. The items and the memory go when the list is dropped.
#[derive(Drop)]
pub struct BoundedList<T> {
    items: Vec<T>,
}

impl<T> Model for BoundedList<T> {
    ghost use Rattle.std.specs.Prelude.{◌≤◌, length, vec_capacity};
    ghost use Rattle.bounded_list.specs.Bounded.{Bounded, bounded_code};

    ghost Value = { Bounded T };

    ghost coded = { bounded_code T.code };

    ghost view = { λ list. record { items = list.items.items; room = vec_capacity list.items } };

    ghost invariant = { λ list. length list.items.items ≤ vec_capacity list.items };
}

impl<T> BoundedList<T> {
    ghost use Rattle.bounded_list.specs.Lends.{LendsItems, LendsItem, LendsItemIf};

    /// A list with no items, and room for `room` of them, a count. It takes memory for them all, and it fails if the
    /// allocator does not have that much. It never fails if no room is asked for.
    pub fn with_room(alloc: Global, room: usize) -> Result<BoundedList<T>, AllocError>
        ensures items { IfOk result (λ list. list.items ≡ []) }
        ensures room { IfOk result (λ list. list.room ≡ room) }
        ensures none { room ≡ 0 → IsOk result }
    {
        let items = Vec::with_capacity(alloc, room)?;
        Ok(BoundedList { items })
    }

    /// How many items there are, from 0 to the room.
    #[inline(always)]
    pub fn len(&self) -> usize
        ensures { result ≡ length self.now.items }
    {
        self.items.len()
    }

    /// How many items the list can hold, a count. It never changes.
    #[inline(always)]
    pub fn room(&self) -> usize
        ensures room { result ≡ self.now.room }
        ensures fits { length self.now.items ≤ result }
    {
        self.items.capacity()
    }

    /// Whether there is no item.
    #[inline(always)]
    pub fn is_empty(&self) -> bool
        ensures { result ≡ (length self.now.items == 0) }
    {
        self.items.is_empty()
    }

    /// Whether there is room for no further item.
    #[inline(always)]
    pub fn is_full(&self) -> bool
        ensures full { result ≡ (length self.now.items == self.now.room) }
        ensures fits { length self.now.items ≤ self.now.room }
    {
        self.items.len() == self.room()
    }

    /// The items, lent.
    #[inline(always)]
    pub fn as_slice(&self) -> &[T]
        ensures value { result.now ≡ self.now.items }
        ensures fits { length result.now ≤ self.now.room }
    {
        self.items.as_slice()
    }

    /// The items, lent to be changed.
    #[inline(always)]
    pub fn as_mut_slice(&mut self) -> &mut [T]
        ensures* writes_back { sem 𝓛 (LendsItems T.row self.entry result) }
        ensures value { result.now ≡ self.old.items }
        ensures fits { length result.now ≤ self.old.room }
    {
        self.items.as_mut_slice()
    }

    /// The item at the index, lent to be changed. `None` exactly if there is none.
    #[inline(always)]
    pub fn get_mut(&mut self, index: usize) -> Option<&mut T>
        ensures* writes_back { sem 𝓛 (LendsItemIf T.row self.entry index result) }
        ensures variant { IsSome result ↔ (index < length self.old.items) }
        ensures value { IfSome result
            (λ item. item.now ≡ slice_index_or self.old.items index item.now) }
        ensures item { IsItemAtMut self.old.items index result }
    {
        self.items.get_mut(index)
    }

    /// The item at the index, lent to be changed.
    #[inline(always)]
    pub(crate) fn item_mut(&mut self, index: usize) -> &mut T
        requires { index < length self.old.items }
        ensures* writes_back { sem 𝓛 (LendsItem T.row self.entry index result) }
        ensures value { result.now ≡ slice_index_or self.old.items index result.now }
    {
        &mut self.items[index]
    }

    /// Puts the item after the others. There must be room for it.
    #[inline(always)]
    pub fn push(&mut self, item: T)
        requires room { length self.old.items < self.old.room }
        ensures items { self.new.items ≡ self.old.items ++ item ∷ [] }
        ensures room { self.new.room ≡ self.old.room }
    {
        self.items.push_reserved(item);
    }

    /// Puts the item at the index, before those from there on. There must be room for it.
    pub fn insert(&mut self, index: usize, item: T)
        requires index { index ≤ length self.old.items }
        requires room { length self.old.items < self.old.room }
        ensures items { self.new.items ≡ insert self.old.items index item }
        ensures room { self.new.room ≡ self.old.room }
    {
        self.items.insert(index, item).unwrap();
    }

    /// Takes the last item out, if there is one.
    #[inline(always)]
    pub fn pop(&mut self) -> Option<T>
        ensures items { self.old.items ≡ self.new.items ++ option_to_list result }
        ensures variant { IsSome result ↔ (0 < length self.old.items) }
        ensures value { result ≡ slice_get self.old.items (length self.old.items - 1) }
        ensures rest { self.new.items ≡ take (length self.old.items - 1) self.old.items }
        ensures room { self.new.room ≡ self.old.room }
    {
        self.items.pop()
    }

    /// Takes out the item at the index. Those after it move up by one place.
    pub fn remove(&mut self, index: usize) -> T
        requires { index < length self.old.items }
        ensures value { result ≡ slice_index_or self.old.items index result }
        ensures items { self.new.items ≡ remove self.old.items index }
        ensures room { self.new.room ≡ self.old.room }
    {
        self.items.remove(index)
    }
}

impl<T: Drop> BoundedList<T> {
    /// Drops all items.
    #[inline(always)]
    pub fn clear(&mut self)
        ensures items { self.new.items ≡ [] }
        ensures room { self.new.room ≡ self.old.room }
    {
        self.items.clear();
    }

    /// Keeps the items of which the closure answers `true`, in their order, and drops the others.
    pub fn retain<F: FnMut(&T) -> bool>(&mut self, keeps: F)
        requires { F.IsAlwaysCallable keeps }
        ensures filtered { IsFiltered (CalledAt F.FnMut) keeps self.old.items self.new.items }
        ensures bound { length self.new.items ≤ length self.old.items }
        ensures room { self.new.room ≡ self.old.room }
    {
        self.items.retain(keeps);
    }
}

impl<T: Copy> BoundedList<T> {
    /// A list of `room` copies of the item, a count, so with room for no more. It takes memory as `with_room` does.
    pub fn filled(alloc: Global, item: T, room: usize) -> Result<BoundedList<T>, AllocError>
        ensures items { IfOk result (λ list. list.items ≡ replicate room item) }
        ensures room { IfOk result (λ list. list.room ≡ room) }
        ensures none { room ≡ 0 → IsOk result }
    {
        let mut items = Vec::with_capacity(alloc, room)?;
        for _ in 0..room {
            items.push_reserved(item);
        }
        Ok(BoundedList { items })
    }
}
