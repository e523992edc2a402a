//! Decides whether a named block may be read, and remembers which blocks were named.
ghost use Rattle.std.specs.Prelude.{◌≡◌, ◌*◌, ◌<◌, ◌≤◌, ◌∷◌, [], List, None, Some, length};
ghost use Rattle.image_walk.specs.Names.{Name, block_of, fault_of};
ghost use Rattle.image_walk.specs.Taken.{HasBlocks, IsTaken};
ghost use Rattle.image_walk.specs.declared.visit.BlockFault.TheVariants.{Unread};

use crate::block_set::{add_block, clear, has_block};
use crate::{BlockFault, Limits};

/// Returns why a block may not be read, if it may not.
pub(crate) fn fault(limits: &Limits, named: &[u64], block: u64) -> Option<BlockFault>
    requires { limits.now.blocks ≤ 64 * length named.now }
    ensures fault { (h : List Name) → IsTaken limits.now named.now h → result ≡ fault_of limits.now h block }
    ensures inside { result ≡ None → block < limits.now.blocks }
    ensures other { (b : _) → result ≡ Some (Unread b) → ⊥ }
{
    if block == 0 {
        return Some(BlockFault::Zero);
    }
    if block >= u64::from(limits.blocks) {
        return Some(BlockFault::BeyondFile(block));
    }
    let b = block as u32;
    if b > limits.last {
        return Some(BlockFault::BeyondLast(block));
    }
    if !has_block(named, b) {
        return None;
    }
    Some(if limits.bad.contains(&b) {
        BlockFault::Bad(block)
    } else {
        BlockFault::Again(block)
    })
}

/// Records that a block was named.
pub(crate) fn remember(limits: &Limits, named: &mut [u64], block: u64)
    requires { limits.now.blocks ≤ 64 * length named.old }
    ensures taken { (h : List Name) (x : Name) → block_of x ≡ block → IsTaken limits.now named.old h →
        IsTaken limits.now named.new (x ∷ h) }
    ensures room { length named.new ≡ length named.old }
{
    if block < u64::from(limits.blocks) {
        add_block(named, block as u32);
    }
}

/// Fills the set with the blocks that no image may name: the bad pages, and the header's block.
pub(crate) fn reserve(limits: &Limits, named: &mut [u64])
    requires { limits.now.blocks ≤ 64 * length named.old }
    ensures taken { IsTaken limits.now named.new [] }
    ensures room { length named.new ≡ length named.old }
{
    clear(named);
    add_below(named, limits.blocks, &limits.bad);
    if limits.header < limits.blocks {
        add_block(named, limits.header);
    }
}

/// Adds each of `members` that is below `blocks` to the empty set.
fn add_below(named: &mut [u64], blocks: u32, members: &[u32])
    requires { HasBlocks blocks [] named.old }
    ensures has { HasBlocks blocks members.now named.new }
    ensures room { length named.new ≡ length named.old }
{
    for &block in members {
        if block < blocks {
            add_block(named, block);
        }
    }
}
