ghost use Rattle.std.specs.Prelude.{◌≡◌, List, [], ◌∷◌, ◌++◌, length, IfOk, OnOk, OnErr, ◌==◌};
ghost use Rattle.std.specs.Cmp.Lexicographic.{pointwise, slice_cmp, slice_partial_cmp, lists_per, lists_equiv, lists_po, lists_total, lists_agrees, lists_ties};

use crate::{Addr, Datagram, Duplicate, Entry, NoMemory, Rid};
use std::alloc::Global;
use std::cmp::Ordering;
use std::marker::Model;

/// A vector that contracts see as the list of its items.
#[derive(Debug, Drop)]
pub struct Listed<T> {
    items: Vec<T>,
}

pub type Bytes = Listed<u8>;

pub type Numbers = Listed<u64>;

pub type Addrs = Listed<Addr>;

pub type Rids = Listed<Rid>;

/// Entries of the log without their bodies.
pub type Metas = Listed<Entry>;

pub type Datagrams = Listed<Datagram>;

impl<T> Model for Listed<T> {
    ghost use Rattle.std.specs.Prelude.{List};
    ghost use Rattle.std.specs.Coded.{coded_list};

    ghost Value = { List T };

    ghost coded = { coded_list T.code };

    ghost view = { λ a. a.items.items };
}

impl<T> Listed<T> {
    /// No items, with no memory taken.
    pub fn new(alloc: Global) -> Self
        ensures { result ≡ [] }
    {
        Listed {
            items: Vec::new(alloc),
        }
    }

    /// The items of `v`, with no memory taken.
    pub fn from_vec(v: Vec<T>) -> Self
        ensures { result ≡ v.items }
    {
        Listed { items: v }
    }

    pub fn as_slice(&self) -> &[T]
        ensures { result.now ≡ self.now }
    {
        self.items.as_slice()
    }

    pub fn len(&self) -> usize
        ensures { result ≡ length self.now }
    {
        self.items.len()
    }

    pub fn is_empty(&self) -> bool
        ensures { result ≡ (length self.now == 0) }
    {
        self.items.is_empty()
    }

    /// The vector given back, with no memory taken.
    pub fn into_vec(self) -> Vec<T>
        ensures { result.items ≡ self }
    {
        self.items
    }
}

impl<T: Drop> Listed<T> {
    pub fn push(&mut self, item: T) -> Result<(), NoMemory>
        ensures ok { OnOk result (self.new ≡ self.old ++ item ∷ []) }
        ensures err { OnErr result (self.new ≡ self.old) }
    {
        self.items.push(item)?;
        Ok(())
    }
}

impl<T: Duplicate + Drop> Listed<T> {
    /// The same items once more.
    pub fn copy(&self, alloc: Global) -> Result<Self, NoMemory>
        ensures { IfOk result (λ other. other ≡ self.now) }
    {
        let mut items = Vec::with_capacity(alloc, self.items.len())?;
        'items: for item in self.items.iter() {
            items.push(item.duplicate(alloc)?)?;
        }
        Ok(Listed { items })
    }
}

impl<T: PartialEq> PartialEq for Listed<T> {
    ghost eq = { pointwise T.eq };

    ghost laws = { lists_per T.laws };

    fn eq(&self, other: &Self) -> bool {
        self.items.as_slice() == other.items.as_slice()
    }
}

impl<T: Eq> Eq for Listed<T> {
    ghost laws = { lists_equiv T.Eq.laws };
}

impl<T: PartialOrd> PartialOrd for Listed<T> {
    ghost partial_cmp = { slice_partial_cmp T.partial_cmp };

    ghost laws = { lists_po T.PartialOrd.laws };

    fn partial_cmp(&self, other: &Self) -> Option<Ordering> {
        self.items.as_slice().partial_cmp(&other.items.as_slice())
    }
}

impl<T: Ord> Ord for Listed<T> {
    ghost cmp = { slice_cmp T.cmp };

    ghost total = { lists_total T.total };

    ghost matches_partial_cmp = { lists_agrees T.matches_partial_cmp };

    ghost matches_eq = { lists_ties T.cmp T.matches_eq };

    fn cmp(&self, other: &Self) -> Ordering {
        self.items.as_slice().cmp(&other.items.as_slice())
    }
}

#[cfg(test)]
mod tests {
    use super::*;
    use std::test::Fail;

    #[test]
    fn copies_are_equal(rt: HostRuntime) -> Result<(), Fail> {
        let from = Addr { ip: 1, port: 2 };
        let to = Addr { ip: 3, port: 4 };
        let bytes = Bytes::from_vec(b"abc".to_vec(rt.alloc())?);
        let mut datagrams = Datagrams::new(rt.alloc());
        datagrams.push(Datagram { from, to, bytes })?;
        let bytes = Bytes::new(rt.alloc());
        datagrams.push(Datagram {
            from: to,
            to: from,
            bytes,
        })?;
        let copy = datagrams.copy(rt.alloc())?;
        assert_eq!(rt; copy, datagrams);
        assert_eq!(rt; copy.len(), 2);
        assert_eq!(rt; copy.is_empty(), false);
        Ok(())
    }

    #[test]
    fn bytes_are_ordered_as_texts(rt: HostRuntime) -> Result<(), Fail> {
        let alloc = rt.alloc();
        let sorted: [&[u8]; 5] = [b"", b"a", b"ab", b"b", b"\xff"];
        for (i, x) in sorted.iter().enumerate() {
            for (j, y) in sorted.iter().enumerate() {
                let left = Bytes::from_vec(x.to_vec(alloc)?);
                let right = Bytes::from_vec(y.to_vec(alloc)?);
                assert_eq!(rt; left.cmp(&right), i.cmp(&j));
                assert_eq!(rt; left == right, i == j);
            }
        }
        Ok(())
    }
}
