//! A vector whose growth can fail.
ghost use Rattle.std.specs.Prelude.{◌≡◌, ◌==◌, [], ◌∷◌, ◌++◌, length, take, OnOk, OnErr, IfOk};

use crate::memory::NoMemory;
use std::alloc::Global;
use std::marker::Model;

/// Items, in an order, to which more can be put while there is memory. Contracts see their list.
#[derive(Drop)]
pub struct TryVec<T> {
    items: Vec<T>,
}

impl<T> Model for TryVec<T> {
    ghost use Rattle.std.specs.Prelude.{List};

    ghost Value = { List T };

    ghost view = { λ v. v.items.items };
}

impl<T: Drop> TryVec<T> {
    /// No items yet.
    pub fn new(alloc: Global) -> Self
        ensures { result ≡ [] }
    {
        TryVec {
            items: Vec::new(alloc),
        }
    }

    /// These items, in their order.
    pub fn from_vec(items: Vec<T>) -> Self
        ensures { result ≡ items.items }
    {
        TryVec { items }
    }

    /// One more item at the end. Where there is no memory for it, the items stay as they were.
    pub fn push(&mut self, item: T) -> Result<(), NoMemory>
        ensures ok { OnOk result (self.new ≡ self.old ++ item ∷ []) }
        ensures err { OnErr result (self.new ≡ self.old) }
    {
        self.items.push(item)?;
        Ok(())
    }

    /// The items, in their order.
    pub fn items(&self) -> &[T]
        ensures { result.now ≡ self.now }
    {
        self.items.as_slice()
    }

    /// The number of items.
    pub fn len(&self) -> usize
        ensures { result ≡ length self.now }
    {
        self.items.len()
    }

    /// Whether there are no items.
    pub fn is_empty(&self) -> bool
        ensures { result ≡ (length self.now == 0) }
    {
        self.items.is_empty()
    }

    /// The items themselves, in their order.
    pub fn into_vec(self) -> Vec<T>
        ensures { result.items ≡ self }
    {
        self.items
    }
}

impl<T: Copy + Drop> TryVec<T> {
    /// Equal items. `NoMemory` if there is none for them.
    pub fn copy(&self) -> Result<TryVec<T>, NoMemory>
        ensures { IfOk result (λ copy. copy ≡ self.now) }
    {
        let mut copy = TryVec::new(*self.items.allocator());
        copy.extend(self.items())?;
        Ok(copy)
    }

    /// These items after the others. Where there is no memory for them, the others stay as they
    /// were.
    pub fn extend(&mut self, items: &[T]) -> Result<(), NoMemory>
        ensures ok { OnOk result (self.new ≡ self.old ++ items.now) }
        ensures err { OnErr result (self.new ≡ self.old) }
    {
        self.items.extend_from_slice(items)?;
        Ok(())
    }

    /// These items after the others, in three parts. Where there is no memory for all of them, the
    /// others stay as they were.
    pub fn extend_parts(&mut self, first: &[T], second: &[T], third: &[T]) -> Result<(), NoMemory>
        ensures ok { OnOk result (self.new ≡ self.old ++ first.now ++ second.now ++ third.now) }
        ensures err { OnErr result (self.new ≡ self.old) }
    {
        let before = self.items.len();
        let put = self.put_parts(first, second, third);
        if put.is_err() {
            self.items.truncate(before);
        }
        put
    }

    /// The three parts after the others, as far as there is memory for them.
    fn put_parts(&mut self, first: &[T], second: &[T], third: &[T]) -> Result<(), NoMemory>
        ensures ok { OnOk result (self.new ≡ self.old ++ first.now ++ second.now ++ third.now) }
        ensures err { OnErr result (take (length self.old) self.new ≡ self.old) }
    {
        self.extend(first)?;
        self.extend(second)?;
        self.extend(third)
    }
}

#[cfg(test)]
mod tests {
    use super::*;
    use std::test::Fail;

    #[test]
    fn items_are_kept_in_order(rt: HostRuntime) -> Result<(), Fail> {
        let mut numbers: TryVec<u8> = TryVec::new(rt.alloc());
        assert!(rt; numbers.is_empty());
        numbers.push(6)?;
        numbers.extend(&[7, 8])?;
        numbers.extend_parts(&[1], &[], &[2, 3])?;
        let copy = numbers.copy()?;
        assert_eq!(rt; copy.items(), [6, 7, 8, 1, 2, 3].as_slice());
        assert_eq!(rt; numbers.len(), 6);
        assert_eq!(rt; numbers.into_vec().as_slice(), copy.items());
        Ok(())
    }
}
