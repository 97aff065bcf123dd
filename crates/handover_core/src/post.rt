use crate::Item;

/// An item and the core that it goes to.
#[derive(Clone, Copy, Debug, PartialEq, Eq)]
pub struct Post {
    /// The core whose receive queue gets the item.
    pub core: u8,
    /// The item.
    pub item: Item,
}
