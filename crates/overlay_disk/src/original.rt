ghost use Rattle.std.specs.Prelude.{None, []};
ghost use Rattle.overlay_disk.specs.DiskState.{DiskState};

use std::marker::Brand;

/// The state of a disk when an overlay was put over it. It is chosen where `Brand` is passed.
pub trait Original {
    ghost state: { DiskState };
}

impl Original for Brand {
    ghost state = { record { which = 0; blocks = 0; content = None; faults = 0; calls = 0; orders = [] } };
}
