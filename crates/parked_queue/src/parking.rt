// What parking and taking do to the chains and the line of a lot.
ghost use Rattle.std.specs.Prelude.{◌≡◌, ◌<◌, [], length, map, slice_index_or, vec_capacity, MatchOption};
ghost use Rattle.packet_pool.specs.Facts.{facts, IsAlone};
ghost use Rattle.parked_queue.specs.Chained.{cells_in};
ghost use Rattle.parked_queue.specs.Parked.{parked, unparked, waits, FirstIs};
ghost use Rattle.parked_queue.specs.Lined.{IsLined};

use crate::chains::{Chains, push, put_chains, take_chains, take_first};
use crate::line::{join_line, leave_line};
use packet_pool::Cell;

// Parks a cell behind those of its bucket.
pub(crate) fn park_in(chains: &mut Vec<Option<Chains>>, line: &mut Vec<u16>, cell: Box<Cell>)
    requires lined { IsLined (map cells_in chains.old.items) line.old.items (vec_capacity line.old) }
    requires range { (facts cell.value).bucket < length chains.old.items }
    requires alone { IsAlone cell.value }
    ensures is { waits (map cells_in chains.new.items) line.new.items ≡ parked (facts cell.value) (waits (map cells_in chains.old.items) line.old.items) }
    ensures lined { IsLined (map cells_in chains.new.items) line.new.items (vec_capacity line.new) }
{
    let bucket = cell.bucket;
    let cells = take_chains(chains, bucket);
    join_line(line, bucket, &cells);
    put_chains(chains, bucket, Some(push(cells, cell)));
}

// Takes the oldest cell of a bucket.
pub(crate) fn take_from(
    chains: &mut Vec<Option<Chains>>,
    line: &mut Vec<u16>,
    bucket: u16,
) -> Option<Box<Cell>>
    requires lined { IsLined (map cells_in chains.old.items) line.old.items (vec_capacity line.old) }
    requires range { bucket < length chains.old.items }
    ensures given { MatchOption result (slice_index_or (map cells_in chains.old.items) bucket [] ≡ []) (λ cell. FirstIs (facts cell.value) (slice_index_or (map cells_in chains.old.items) bucket []) × IsAlone cell.value) }
    ensures left { MatchOption result (waits (map cells_in chains.new.items) line.new.items ≡ waits (map cells_in chains.old.items) line.old.items) (λ _. waits (map cells_in chains.new.items) line.new.items ≡ unparked bucket (waits (map cells_in chains.old.items) line.old.items)) }
    ensures lined { IsLined (map cells_in chains.new.items) line.new.items (vec_capacity line.new) }
{
    let (cell, rest) = take_first(take_chains(chains, bucket)?);
    leave_line(line, bucket, &rest);
    put_chains(chains, bucket, rest);
    Some(cell)
}
