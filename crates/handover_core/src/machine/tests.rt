use crate::{Event, FEWEST_CELLS, MOST_CELLS, Machine};
use indirection::{MOST_BUCKETS, MOST_CORES, Table};
use std::alloc::Global;
use std::test::Fail;

// What a machine is made of.
#[derive(Clone, Copy)]
struct Shape<'a> {
    cores: u8,
    owners: &'a [u8],
    packets: &'a [u16],
    pool: u32,
    moves: u64,
}

// The machine of a shape, unless memory ends or the shape is none.
fn machine_of(alloc: Global, shape: Shape) -> Option<Machine> {
    let buckets = shape.owners.len() as u64;
    if shape.cores == 0 || shape.cores > MOST_CORES {
        return None;
    }
    if buckets == 0 || buckets > u64::from(MOST_BUCKETS) {
        return None;
    }
    let table = Table::of_list(alloc, shape.cores, buckets as u16, shape.owners).ok()?;
    let packets = shape.packets.to_vec(alloc).ok()?;
    if !packets.iter().all(|bucket| u64::from(*bucket) < buckets) || packets.len() > 1000 {
        return None;
    }
    if shape.pool < FEWEST_CELLS || shape.pool > MOST_CELLS {
        return None;
    }
    if shape.moves > packets.len() as u64 {
        return None;
    }
    Machine::new(alloc, shape.cores, &table, packets, shape.pool, shape.moves).ok()
}

// Takes the events, as long as each is enabled.
fn taken(machine: &mut Machine, events: &[Event]) -> bool {
    for event in events {
        if !machine.enabled(event) {
            return false;
        }
        machine.step(*event);
    }
    true
}

// Takes the next event again and again, and counts them.
fn finished(machine: &mut Machine) -> u32 {
    for count in 0..1000 {
        match machine.next_event() {
            Some(event) if machine.enabled(&event) => machine.step(event),
            _ => return count,
        }
    }
    1000
}

// The word of the first bucket, how many of its packets were worked, and the free cells.
fn numbers(machine: &Machine) -> (u64, u32, u32) {
    if machine.enabled(&Event::Look { bucket: 0 }) {
        (machine.word(0), machine.worked(0), machine.free())
    } else {
        (0, 0, 0)
    }
}

const THREE_PACKETS: Shape = Shape {
    cores: 2,
    owners: &[0],
    packets: &[0, 0, 0],
    pool: 2,
    moves: 1,
};

const TO_THE_MOVE: [Event; 6] = [
    Event::Send,
    Event::Take { core: 0 },
    Event::Claim { core: 0, bucket: 0 },
    Event::Send,
    Event::Look { bucket: 0 },
    Event::Move { bucket: 0, to: 1 },
];

#[test]
fn a_move_behind_two_packets_leaves_eleven_steps(rt: HostRuntime) -> Result<(), Fail> {
    let mut machine = machine_of(rt.alloc(), THREE_PACKETS).ok_or("no machine")?;
    assert_eq!(rt; machine.steps_left(), 16);
    assert!(rt; taken(&mut machine, &TO_THE_MOVE));
    assert_eq!(rt; machine.steps_left(), 11);
    assert!(rt; !machine.enabled(&Event::Send));
    assert!(rt; machine.next_event() == Some(Event::Take { core: 0 }));
    Ok(())
}

#[test]
fn the_next_events_finish_a_machine(rt: HostRuntime) -> Result<(), Fail> {
    let mut machine = machine_of(rt.alloc(), THREE_PACKETS).ok_or("no machine")?;
    assert!(rt; finished(&mut machine) <= 16);
    assert_eq!(rt; numbers(&machine), (7, 3, 2));
    Ok(())
}

#[test]
fn the_next_events_finish_a_move(rt: HostRuntime) -> Result<(), Fail> {
    let mut machine = machine_of(rt.alloc(), THREE_PACKETS).ok_or("no machine")?;
    assert!(rt; taken(&mut machine, &TO_THE_MOVE));
    assert!(rt; finished(&mut machine) <= 11);
    assert_eq!(rt; numbers(&machine), (7, 3, 2));
    Ok(())
}

const TWO_PACKETS: Shape = Shape {
    cores: 2,
    owners: &[0],
    packets: &[0, 0],
    pool: 2,
    moves: 1,
};

const CANDIDATES: [Event; 12] = [
    Event::Send,
    Event::Look { bucket: 0 },
    Event::Move { bucket: 0, to: 0 },
    Event::Move { bucket: 0, to: 1 },
    Event::Place { bucket: 0, to: 1 },
    Event::SendEnd { core: 0 },
    Event::SendEnd { core: 1 },
    Event::Take { core: 0 },
    Event::Take { core: 1 },
    Event::Claim { core: 0, bucket: 0 },
    Event::Claim { core: 1, bucket: 0 },
    Event::Release { core: 0, bucket: 0 },
];

// How many steps an event counts.
fn counted(event: &Event) -> u64 {
    match event {
        Event::Look { .. } => 0,
        Event::Place { .. } => 0,
        _ => 1,
    }
}

// Whether a machine of two packets and one move keeps its promises after so many counted events.
fn keeps_its_promises(machine: &Machine, steps: u64) -> bool {
    let (word, worked, free) = numbers(machine);
    let told = if word % 2 == 1 {
        word == 2 * u64::from(worked) + 1
    } else {
        word <= 2 * u64::from(worked)
    };
    let goes_on = match machine.next_event() {
        Some(event) => machine.enabled(&event),
        None => (word, worked, free) == (5, 2, 2),
    };
    told && goes_on && free <= 2 && machine.steps_left() == 14u64.saturating_sub(steps)
}

// What comes of a list of candidates, by their places.
enum Came {
    // An event isn't enabled.
    Stopped,
    // A promise is broken.
    Broke,
    // All are enabled.
    Through,
}

fn what_comes(alloc: Global, places: &[usize]) -> Came {
    let Some(mut machine) = machine_of(alloc, TWO_PACKETS) else {
        return Came::Broke;
    };
    let mut steps = 0u64;
    for place in places {
        let event = CANDIDATES[*place % 12];
        if !machine.enabled(&event) {
            return Came::Stopped;
        }
        machine.step(event);
        steps = steps.saturating_add(counted(&event));
        if !keeps_its_promises(&machine, steps) {
            return Came::Broke;
        }
    }
    Came::Through
}

// The next list in the order of the search: one event longer where the last one went through.
fn go_on(places: &mut Vec<usize>, longer: bool, longest: usize) -> bool {
    if longer && places.len() < longest {
        return places.push(0).is_ok();
    }
    for _ in 0..longest {
        match places.pop() {
            Some(place) if place < 11 => return places.push(place + 1).is_ok(),
            Some(_) => {}
            None => return false,
        }
    }
    false
}

// How many lists of at most so many enabled events there are, unless one breaks a promise.
fn all_lists(alloc: Global, longest: usize) -> Option<u32> {
    let mut places: Vec<usize> = Vec::new(alloc);
    let mut through = 0u32;
    let mut more = go_on(&mut places, true, longest);
    for _ in 0..5_000_000 {
        if !more {
            return Some(through);
        }
        let longer = match what_comes(alloc, &places) {
            Came::Broke => return None,
            Came::Stopped => false,
            Came::Through => true,
        };
        through = through.saturating_add(u32::from(longer));
        more = go_on(&mut places, longer, longest);
    }
    None
}

#[test]
fn every_short_list_of_events_keeps_the_promises(rt: HostRuntime) {
    let lists = all_lists(rt.alloc(), 7);
    assert!(rt; lists.is_some());
}
