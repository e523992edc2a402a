//! What a disk was asked for besides its reads, writes and syncs. Only proofs read this list: it takes no memory, and
//! its functions do nothing at run time.
ghost use Rattle.std.specs.Prelude.{◌≡◌, List, [], ◌∷◌, ◌++◌};
ghost use base.Fml.{ftrue};
ghost use Rattle.sector_disk.specs.declared.orders.Order.{Order};

use std::marker::Model;

/// What a disk is asked for between its calls.
#[derive(Clone, Copy)]
pub enum Order {
    /// A power cut, after which the image that `pick` chooses is the only one.
    Restart { pick: u64 },
    /// The calls number `first` to `first + count - 1` from then on fail. `pick` chooses what a write that fails in
    /// this way leaves.
    Arm { first: u32, count: u32, pick: u64 },
}

/// The orders given to a disk, first to last.
#[derive(Drop)]
pub struct Orders {
    pub ghost list: { List Order },
}

impl Model for Orders {
    ghost also_owns = { λ _. ftrue };
}

impl Orders {
    /// Returns the empty list of orders.
    pub fn new() -> Orders
        ensures { result.list ≡ [] }
    {
        Orders {}
    }

    /// Returns these orders and one more.
    pub fn and(&self, _order: &Order) -> Orders
        ensures { result.list ≡ self.now.list ++ _order.now ∷ [] }
    {
        Orders {}
    }
}
