// The next event of a machine.
ghost use Rattle.std.specs.Prelude.{◌≡◌, ◌<◌, length, find};
ghost use Rattle.handover_core.specs.declared.event.Event.TheVariants.{SendEnd, Take, Claim, Release};
ghost use Rattle.handover_core.specs.Machine.{enabled, next_event, each_core, at_core, each_pair};

use crate::{Event, Machine};

impl Machine {
    /// The first enabled one of Send, SendEnd, Take, Claim and Release, each by lowest core and then
    /// by lowest bucket. There is none exactly where the machine is finished.
    pub fn next_event(&self) -> Option<Event>
        ensures { result ≡ next_event self.now }
    {
        if self.enabled(&Event::Send) {
            return Some(Event::Send);
        }
        if let Some(event) = self.next_end() {
            return Some(event);
        }
        if let Some(event) = self.next_take() {
            return Some(event);
        }
        if let Some(event) = self.next_claim() {
            return Some(event);
        }
        self.next_release()
    }

    fn next_end(&self) -> Option<Event>
        ensures { result ≡ find (enabled self.now) (each_core self.now SendEnd) }
    {
        let count = self.cores.len() as u8;
        for core in 0..count {
            let event = Event::SendEnd { core };
            if self.enabled(&event) {
                return Some(event);
            }
        }
        None
    }

    fn next_take(&self) -> Option<Event>
        ensures { result ≡ find (enabled self.now) (each_core self.now Take) }
    {
        let count = self.cores.len() as u8;
        for core in 0..count {
            let event = Event::Take { core };
            if self.enabled(&event) {
                return Some(event);
            }
        }
        None
    }

    fn next_claim(&self) -> Option<Event>
        ensures { result ≡ find (enabled self.now) (each_pair self.now Claim) }
    {
        let count = self.cores.len() as u8;
        for core in 0..count {
            if let Some(event) = self.claim_at(core) {
                return Some(event);
            }
        }
        None
    }

    fn next_release(&self) -> Option<Event>
        ensures { result ≡ find (enabled self.now) (each_pair self.now Release) }
    {
        let count = self.cores.len() as u8;
        for core in 0..count {
            if let Some(event) = self.release_at(core) {
                return Some(event);
            }
        }
        None
    }

    fn claim_at(&self, core: u8) -> Option<Event>
        ensures { result ≡ find (enabled self.now) (at_core self.now Claim core) }
    {
        let count = self.buckets.len() as u16;
        for bucket in 0..count {
            let event = Event::Claim { core, bucket };
            if self.enabled(&event) {
                return Some(event);
            }
        }
        None
    }

    fn release_at(&self, core: u8) -> Option<Event>
        ensures { result ≡ find (enabled self.now) (at_core self.now Release core) }
    {
        let count = self.buckets.len() as u16;
        for bucket in 0..count {
            let event = Event::Release { core, bucket };
            if self.enabled(&event) {
                return Some(event);
            }
        }
        None
    }
}
