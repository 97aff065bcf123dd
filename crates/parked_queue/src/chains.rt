// The chains of a lot, two for each bucket that has cells.
ghost use Rattle.std.specs.Prelude.{◌≡◌, ◌<◌, ◌∷◌, ◌++◌, [], length, map, reverse, slice_index_or, slice_set, Some};
ghost use Rattle.packet_pool.specs.Facts.{facts, IsAlone};
ghost use Rattle.packet_pool.specs.Chain.{chain};
ghost use Rattle.parked_queue.specs.Parked.{place_of};
ghost use Rattle.parked_queue.specs.Chained.{cells_of, cells_in};

use packet_pool::{Cell, Link, link, unlink};
use std::mem;

// The cells of a bucket that has some. The front chain begins with the bucket's oldest cell and the
// back chain with its newest, so that cells are parked and taken at the head of a chain.
#[derive(Drop)]
pub(crate) struct Chains {
    front: Box<Cell>,
    back: Link,
}

// Takes the chains of a bucket.
pub(crate) fn take_chains(chains: &mut Vec<Option<Chains>>, bucket: u16) -> Option<Chains>
    requires { bucket < length chains.old.items }
    ensures given { cells_in result ≡ slice_index_or (map cells_in chains.old.items) bucket [] }
    ensures left { map cells_in chains.new.items ≡ slice_set (map cells_in chains.old.items) bucket [] }
{
    mem::replace(&mut chains[bucket as usize], None)
}

// Makes chains those of a bucket.
pub(crate) fn put_chains(chains: &mut Vec<Option<Chains>>, bucket: u16, cells: Option<Chains>)
    requires { bucket < length chains.old.items }
    ensures { map cells_in chains.new.items ≡ slice_set (map cells_in chains.old.items) bucket (cells_in cells) }
{
    chains[bucket as usize] = cells;
}

// Puts a cell behind those of a bucket.
pub(crate) fn push(cells: Option<Chains>, cell: Box<Cell>) -> Chains
    requires { IsAlone cell.value }
    ensures { cells_of result ≡ cells_in cells ++ facts cell.value ∷ [] }
{
    match cells {
        None => Chains {
            front: cell,
            back: None,
        },
        Some(Chains { front, back }) => Chains {
            front,
            back: Some(link(cell, back)),
        },
    }
}

// The place of a bucket's oldest cell.
pub(crate) fn first_place(cells: &Chains) -> u32
    ensures { place_of (cells_of cells.now) ≡ Some result }
{
    cells.front.place
}

// Takes the oldest cell of a bucket from the others.
pub(crate) fn take_first(cells: Chains) -> (Box<Cell>, Option<Chains>)
    ensures first { IsAlone result.0.value }
    ensures parts { cells_of cells ≡ facts result.0.value ∷ cells_in result.1 }
{
    let (cell, rest) = unlink(cells.front);
    (cell, chains_of(rest, cells.back))
}

// What is left of a bucket's chains. Where the front chain has come to its end, the back chain is
// turned and becomes the front, so each cell is turned at most once.
fn chains_of(front: Link, back: Link) -> Option<Chains>
    ensures { cells_in result ≡ chain front ++ reverse (chain back) }
{
    match front {
        Some(front) => Some(Chains { front, back }),
        None => Some(Chains {
            front: turn(back)?,
            back: None,
        }),
    }
}

// Turns a chain round, in place.
fn turn(mut from: Link) -> Link
    ensures { chain result ≡ reverse (chain from) }
{
    let mut to: Link = None;
    while let Some(cell) = from {
        let (first, rest) = unlink(cell);
        to = Some(link(first, to));
        from = rest;
    }
    to
}
