ghost use Rattle.std.specs.Prelude.{◌≡◌, ◌≤◌, ◌<◌, ◌++◌, ◌∷◌, [], Option, Some, length, slice_get, IfOk};
ghost use Rattle.pcapng_reader.specs.Blocks.{at_first};

use crate::format::MOST_INTERFACES;
use crate::{ByteOrder, Interface};
use rss_base::NoMemory;
use std::alloc::Global;
use std::marker::Model;

/// What the blocks before a block tell of how it is read. It has room for all interfaces that a
/// section may have.
#[derive(Drop)]
pub struct Scope {
    order: ByteOrder,
    table: Vec<Interface>,
    count: usize,
    link: Option<u16>,
}

impl Model for Scope {
    ghost use Rattle.std.specs.Prelude.{◌≡◌, ◌≤◌, take, length};
    ghost use Rattle.pcapng_reader.specs.declared.format.TheConstants.{MOST_INTERFACES};
    ghost use Rattle.pcapng_reader.specs.Scope as told;

    ghost Value = { told.Scope };

    ghost view = { λ s. record { order = s.order; interfaces = take s.count s.table.items; link = s.link } };

    ghost invariant = { λ s. (s.count ≤ length s.table.items) × (length s.table.items ≡ MOST_INTERFACES) };
}

impl Scope {
    /// What is known before the first block. It takes its memory now, and none later.
    pub fn new(alloc: Global) -> Result<Scope, NoMemory>
        ensures { IfOk result (λ scope. scope ≡ at_first) }
    {
        let none = Interface {
            link: 0,
            snap: 0,
            resolution: 0,
        };
        match vec![in alloc; none; MOST_INTERFACES] {
            Ok(table) => Ok(Scope {
                order: ByteOrder::Little,
                table,
                count: 0,
                link: None,
            }),
            Err(_) => Err(NoMemory),
        }
    }

    /// The byte order of the section.
    pub fn order(&self) -> ByteOrder
        ensures { result ≡ self.now.order }
    {
        self.order
    }

    /// The link of the first record, once there was one.
    pub fn link(&self) -> Option<u16>
        ensures { result ≡ self.now.link }
    {
        self.link
    }

    /// How many interfaces the section has so far.
    pub fn interfaces(&self) -> usize
        ensures { result ≡ length self.now.interfaces }
    {
        self.count
    }

    /// The interface with a number, from 0, where the section has it.
    pub fn interface(&self, number: u32) -> Option<Interface>
        ensures { result ≡ slice_get self.now.interfaces number }
    {
        let number = number as usize;
        if number < self.count {
            Some(self.table[number])
        } else {
            None
        }
    }

    /// A section begins, in this byte order.
    pub fn begin(&mut self, order: ByteOrder)
        ensures { self.new ≡ record { order = order; interfaces = []; link = self.old.link } }
    {
        self.order = order;
        self.count = 0;
    }

    /// The section has one interface more.
    pub fn add(&mut self, interface: Interface)
        requires { length self.old.interfaces < MOST_INTERFACES }
        ensures { self.new ≡ record { order = self.old.order; interfaces = self.old.interfaces ++ interface ∷ []; link = self.old.link } }
    {
        self.table[self.count] = interface;
        self.count += 1;
    }

    /// This is the link of the first record.
    pub fn tell_link(&mut self, link: u16)
        ensures { self.new ≡ record { order = self.old.order; interfaces = self.old.interfaces; link = Some link } }
    {
        self.link = Some(link);
    }
}
