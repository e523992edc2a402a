ghost use Rattle.std.specs.Prelude.{◌≡◌, ◌↔◌, IsTrue};

use machine::Hardware;

/// Returns whether two machines have the same hardware.
pub(crate) fn is_same(first: &Hardware, second: &Hardware) -> bool
    ensures { IsTrue result ↔ (second.now ≡ first.now) }
{
    if first.zones().as_slice() != second.zones().as_slice() {
        return false;
    }
    if first.slots() != second.slots() {
        return false;
    }
    if first.frame_table() != second.frame_table() {
        return false;
    }
    if first.slot_table() != second.slot_table() {
        return false;
    }
    if first.regions() != second.regions() {
        return false;
    }
    if first.extents().extents() != second.extents().extents() {
        return false;
    }
    if first.hw_sig() != second.hw_sig() {
        return false;
    }
    first.ident() == second.ident()
}
