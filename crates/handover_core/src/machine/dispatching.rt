// The dispatcher's events.
ghost use Rattle.std.specs.Prelude.{◌≡◌, ◌<◌, ◌+◌, ◌++◌, ◌∷◌, [], ℕ, List, length, true, map, slice_set, slice_index_or, vec_len, vec_capacity};
ghost use Rattle.std.specs.VecDeque.{deque_len, deque_capacity};
ghost use Rattle.handover_core.specs.declared.worker_core.WorkerCore.{WorkerCore};
ghost use Rattle.handover_core.specs.State.{blank_core, MachineView};
ghost use Rattle.handover_core.specs.Machine.{enabled, step};
ghost use Rattle.handover_core.specs.Dispatch.{kind_at};
ghost use Rattle.handover_core.specs.Cores.{core_state, HaveRoom};

use crate::{Event, Item, Kind, Machine, Post, WorkerCore};

impl Machine {
    // The next packet goes to the owner of its bucket.
    pub(super) fn send(&mut self)
        requires { enabled self.old Event.Send ≡ true }
        ensures { self.new ≡ step self.old Event.Send }
    {
        let bucket = self.packets[self.sent as usize];
        let state = self.buckets[bucket as usize];
        let place = self.sent_of[bucket as usize];
        let kind = kind_at(state.start, place);
        self.sent += 1;
        self.free -= 1;
        self.sent_of[bucket as usize] = place + 1;
        post(
            &mut self.dispatched,
            &mut self.cores,
            state.owner,
            Item::Of {
                kind,
                bucket,
                place,
            },
        );
    }

    // The dispatcher sees the word of a bucket.
    pub(super) fn look(&mut self, bucket: u16)
        requires { enabled self.old (Event.Look bucket) ≡ true }
        ensures { self.new ≡ step self.old (Event.Look bucket) }
    {
        let state = &mut self.buckets[bucket as usize];
        state.seen = state.word;
    }

    // A bucket goes to another core, and a mark to the one that had it.
    pub(super) fn move_to(&mut self, bucket: u16, to: u8)
        requires { enabled self.old (Event.Move bucket to) ≡ true }
        ensures { self.new ≡ step self.old (Event.Move bucket to) }
    {
        let owner = self.buckets[bucket as usize].owner;
        let place = self.sent_of[bucket as usize];
        self.free -= 1;
        self.moves -= 1;
        post(
            &mut self.dispatched,
            &mut self.cores,
            owner,
            Item::Of {
                kind: Kind::Mark,
                bucket,
                place,
            },
        );
        let state = &mut self.buckets[bucket as usize];
        state.owner = to;
        state.start = place;
    }

    // A bucket of which nothing was sent goes to another core.
    pub(super) fn place(&mut self, bucket: u16, to: u8)
        requires { enabled self.old (Event.Place bucket to) ≡ true }
        ensures { self.new ≡ step self.old (Event.Place bucket to) }
    {
        self.buckets[bucket as usize].owner = to;
    }

    // Nothing more comes for a core.
    pub(super) fn send_end(&mut self, core: u8)
        requires { enabled self.old (Event.SendEnd core) ≡ true }
        ensures { self.new ≡ step self.old (Event.SendEnd core) }
    {
        self.ends[core as usize] = true;
        self.ending = true;
        post(&mut self.dispatched, &mut self.cores, core, Item::End);
    }
}

// A packet is the first of its stint where it stands at the stint's start.
fn kind_at(start: u32, place: u32) -> Kind
    ensures { result ≡ kind_at start place }
{
    if place == start {
        Kind::First
    } else {
        Kind::Next
    }
}

// An item goes to a core's queue.
fn post(dispatched: &mut Vec<Post>, cores: &mut Vec<WorkerCore>, core: u8, item: Item)
    requires core { core < length cores.old.items }
    requires listed { vec_len dispatched.old < vec_capacity dispatched.old }
    requires queued { (d : WorkerCore) → deque_len (slice_index_or cores.old.items core d).queue < deque_capacity (slice_index_or cores.old.items core d).queue }
    ensures dispatched { dispatched.new.items ≡ dispatched.old.items ++ record { core = core; item = item } ∷ [] }
    ensures room { vec_capacity dispatched.new ≡ vec_capacity dispatched.old }
    ensures cores { map core_state cores.new.items ≡ slice_set (map core_state cores.old.items) core (record (slice_index_or (map core_state cores.old.items) core blank_core) { queue = (slice_index_or (map core_state cores.old.items) core blank_core).queue ++ item ∷ [] }) }
    ensures rooms { (q t : ℕ) → HaveRoom q t cores.old.items → HaveRoom q t cores.new.items }
{
    dispatched.push_reserved(Post { core, item });
    cores[core as usize].push(item);
}
