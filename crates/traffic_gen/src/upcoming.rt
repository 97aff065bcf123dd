ghost use Rattle.std.specs.Prelude.{◌≡◌, ◌⊎◌, ◌<◌, [], min, length, take, drop};
ghost use Rattle.traffic_gen.specs.Traffic.{traffic};
ghost use Rattle.traffic_gen.specs.Upcoming.{upcoming_bytes};

use crate::ahead::Ahead;

/// What is still to be given of the traffic of a number: what was made ahead, and the records from
/// an index on.
#[derive(Drop)]
pub struct Upcoming {
    pub count: u32,
    pub number: u32,
    pub next: u32,
    pub ahead: Ahead,
}

impl Upcoming {
    /// All bytes of the traffic.
    pub fn new(count: u32, number: u32) -> Upcoming
        ensures count { result.count ≡ count }
        ensures number { result.number ≡ number }
        ensures bytes { upcoming_bytes result ≡ traffic count number }
    {
        Upcoming {
            count,
            number,
            next: 0,
            ahead: Ahead::of_header(),
        }
    }

    // Makes the next record ahead, where the one before was given whole.
    fn refill(&mut self)
        ensures count { self.new.count ≡ self.old.count }
        ensures number { self.new.number ≡ self.old.number }
        ensures bytes { upcoming_bytes self.new ≡ upcoming_bytes self.old }
        ensures some { (0 < length self.new.ahead) ⊎ (upcoming_bytes self.new ≡ []) }
    {
        if self.ahead.left() == 0 && self.next < self.count {
            self.ahead.set_record(self.number, self.next);
            self.next += 1;
        }
    }

    /// Puts the next bytes at the front of `into`, as many as are left and fit, and answers how
    /// many.
    pub fn give(&mut self, into: &mut [u8]) -> usize
        ensures count { self.new.count ≡ self.old.count }
        ensures number { self.new.number ≡ self.old.number }
        ensures given { result ≡ min (length into.old) (length (upcoming_bytes self.old)) }
        ensures bytes { take result into.new ≡ take result (upcoming_bytes self.old) }
        ensures rest { upcoming_bytes self.new ≡ drop result (upcoming_bytes self.old) }
    {
        let mut done = 0;
        while done < into.len() {
            self.refill();
            let given = self.ahead.give(&mut into[done..]);
            if given == 0 {
                break;
            }
            done += given;
        }
        done
    }
}
