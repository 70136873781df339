use r2_base::{Datagram, Duplicate, Listed, NoMemory, Numbers, Room};
use std::alloc::Global;

/// What a link in memory gives at one `receive`.
#[derive(Debug, PartialEq, Eq, Drop)]
pub enum Item {
    Datagram(Datagram),
    /// Nothing comes while the caller waits.
    Quiet,
}

pub type Items = Listed<Item>;

/// What one link in memory, or one of its twins, is made from.
#[derive(Debug, PartialEq, Eq, Drop)]
pub struct Lane {
    /// What `receive` gives, in order. After the last item it gives the end.
    pub items: Items,
    /// What `bind` and `send` may use: a call each, and the bytes that are sent.
    pub room: Room,
    /// The calls that fail, counted from 1 over all methods but `rejoin`.
    pub fails: Numbers,
}

pub type Lanes = Listed<Lane>;

impl Duplicate for Item {
    fn duplicate(&self, alloc: Global) -> Result<Self, NoMemory> {
        match self {
            Item::Datagram(datagram) => Ok(Item::Datagram(datagram.duplicate(alloc)?)),
            Item::Quiet => Ok(Item::Quiet),
        }
    }
}

impl Duplicate for Lane {
    fn duplicate(&self, alloc: Global) -> Result<Self, NoMemory> {
        Ok(Lane {
            items: self.items.copy(alloc)?,
            room: self.room,
            fails: self.fails.copy(alloc)?,
        })
    }
}
