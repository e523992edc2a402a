ghost use Rattle.std.specs.Prelude.{◌≡◌, is_some};
ghost use Rattle.std.specs.List.{range_with_len, find};
ghost use Rattle.machine.specs.Flights.{flight_in, flights_in};

use crate::Machine;

/// A task's unfinished operation. A task has at most one at a time.
#[derive(Clone, Copy, Debug, PartialEq, Eq)]
pub enum Flight {
    Nothing,
    /// The page of page frame `p` goes out to a slot of the swap area.
    Out { slot: u32, p: u32 },
    /// The page in a slot is read into page frame `p`.
    In { slot: u32, p: u32 },
}

impl Machine {
    /// Returns whether task `t` has an unfinished operation.
    pub fn is_in_flight(&self, t: u32) -> bool
        ensures { result ≡ is_some (flights_in self.now.flights t) }
    {
        match self.flight(t) {
            Flight::Nothing => false,
            Flight::Out { .. } | Flight::In { .. } => true,
        }
    }

    /// Returns the lowest task with an unfinished operation.
    pub fn busy(&self) -> Option<u32>
        ensures { result ≡ find (λ t. is_some (flights_in self.now.flights t)) (range_with_len 1 64) }
    {
        (1..65).find(|&t| self.is_in_flight(t))
    }

    /// Returns the unfinished operation of task `t`.
    pub(crate) fn flight(&self, t: u32) -> Flight
        ensures { flight_in result ≡ flights_in self.now.flights t }
    {
        if t == 0 {
            return Flight::Nothing;
        }
        if t as usize > self.flights.len() {
            return Flight::Nothing;
        }
        self.flights[t as usize - 1]
    }
}
