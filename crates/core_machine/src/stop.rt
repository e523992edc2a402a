ghost use Rattle.std.specs.Prelude.{◌≡◌};

use crate::segments::{Fault, Stop as CoreStop};
use image_machine::{Limit, Stop as MachineStop};
use thiserror::Error;

/// Why there is no dump.
#[derive(Clone, Copy, Debug, Error)]
pub enum Stop {
    /// The input isn't a core file that can be read.
    #[error("{0}")]
    Core(Fault),
    /// No machine has the memory of the file.
    #[error("{0}")]
    Limit(Limit),
    #[error("the source failed")]
    Source,
    #[error("no memory")]
    Memory,
}

impl From<CoreStop> for Stop {
    ghost use Rattle.std.specs.Prelude.{◌≡◌};
    ghost use Rattle.core_machine.specs.Stops.{core_stop};

    ghost from_gives = { λ stop why. why ≡ core_stop stop };

    fn from(stop: CoreStop) -> Stop {
        match stop {
            CoreStop::Fault(fault) => Stop::Core(fault),
            CoreStop::Source => Stop::Source,
            CoreStop::Memory => Stop::Memory,
        }
    }
}

impl From<MachineStop> for Stop {
    ghost use Rattle.std.specs.Prelude.{◌≡◌};
    ghost use Rattle.core_machine.specs.Stops.{machine_stop};

    ghost from_gives = { λ stop why. why ≡ machine_stop stop };

    fn from(stop: MachineStop) -> Stop {
        match stop {
            MachineStop::Limit(limit) => Stop::Limit(limit),
            MachineStop::Memory => Stop::Memory,
        }
    }
}

impl From<Limit> for Stop {
    ghost use Rattle.std.specs.Prelude.{◌≡◌};
    ghost use Rattle.core_machine.specs.declared.stop.Stop.TheVariants as stop;

    ghost from_gives = { λ limit why. why ≡ stop.Limit limit };

    fn from(limit: Limit) -> Stop {
        Stop::Limit(limit)
    }
}
