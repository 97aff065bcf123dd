// The line of waiting buckets.
ghost use Rattle.std.specs.Prelude.{◌≡◌, ◌<◌, [], vec_len, vec_capacity};
ghost use Rattle.parked_queue.specs.Chained.{cells_in};
ghost use Rattle.parked_queue.specs.Parked.{removed, also_waits, still_waits};

use crate::chains::Chains;

// Before a cell is parked behind the cells of a bucket: the bucket begins to wait where it has
// none.
pub(crate) fn join_line(line: &mut Vec<u16>, bucket: u16, cells: &Option<Chains>)
    requires { cells_in cells.now ≡ [] → vec_len line.old < vec_capacity line.old }
    ensures items { line.new.items ≡ also_waits (cells_in cells.now) bucket line.old.items }
    ensures room { vec_capacity line.new ≡ vec_capacity line.old }
{
    if cells.is_none() {
        line.push_reserved(bucket);
    }
}

// When these cells are left of a bucket: it waits no more where there are none.
pub(crate) fn leave_line(line: &mut Vec<u16>, bucket: u16, cells: &Option<Chains>)
    ensures items { line.new.items ≡ still_waits (cells_in cells.now) bucket line.old.items }
    ensures room { vec_capacity line.new ≡ vec_capacity line.old }
{
    if cells.is_none() {
        remove_first(line, bucket);
    }
}

// Takes a bucket out of the line. Those behind it move up.
fn remove_first(line: &mut Vec<u16>, bucket: u16)
    ensures items { line.new.items ≡ removed bucket line.old.items }
    ensures room { vec_capacity line.new ≡ vec_capacity line.old }
{
    let mut at = 0;
    while at < line.len() {
        if line[at] == bucket {
            let _gone = line.remove(at);
            return;
        }
        at += 1;
    }
}
