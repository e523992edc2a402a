ghost use Rattle.std.specs.Prelude.{◌≡◌, ◌+◌, ◌≤◌, ◌++◌, length, map};
ghost use Rattle.dump_tools.specs.Facts.{extent_fact, identity_facts, layout_facts, region_fact, zone_fact};

use crate::facts::Facts;
use crate::facts::fact::Fact;
use byte_streams::Name;
use frame_sets::Zones;
use machine::Hardware;

/// Adds what a machine has: slots, tables, zones, regions and extents.
pub(crate) fn add_layout(facts: &mut Facts, hw: &Hardware)
    requires { length facts.old ≡ 0 }
    ensures added { facts.new ≡ facts.old ++ layout_facts hw.now }
    ensures len { length facts.new ≤ 147 }
{
    facts.add_all(&[
        Fact::Slots(hw.slots()),
        Fact::FrameTable(hw.frame_table()),
        Fact::SlotTable(hw.slot_table()),
    ]);
    add_zones(facts, hw.zones());
    add_regions(facts, hw.regions());
    add_extents(facts, hw.extents().extents());
}

fn add_zones(facts: &mut Facts, zones: &Zones)
    requires { length facts.old ≤ 3 }
    ensures added { facts.new ≡ facts.old ++ map zone_fact zones.now }
    ensures len { length facts.new ≤ length facts.old + 16 }
{
    for &(start, count) in zones.as_slice() {
        facts.add(Fact::Zone(start, count));
    }
}

fn add_regions(facts: &mut Facts, regions: &[(u32, u32, u32)])
    requires room { length facts.old ≤ 19 }
    requires few { length regions.now ≤ 64 }
    ensures added { facts.new ≡ facts.old ++ map region_fact regions.now }
    ensures len { length facts.new ≡ length facts.old + length regions.now }
{
    for &(start, count, flags) in regions {
        facts.add(Fact::Region(start, count, flags));
    }
}

fn add_extents(facts: &mut Facts, extents: &[(u32, u32, u32)])
    requires room { length facts.old ≤ 83 }
    requires few { length extents.now ≤ 64 }
    ensures added { facts.new ≡ facts.old ++ map extent_fact extents.now }
    ensures len { length facts.new ≡ length facts.old + length extents.now }
{
    for &(start, length, block) in extents {
        facts.add(Fact::Extent(start, length, block));
    }
}

/// Adds what a machine's images are tied to: the hardware signature, the version code and the six names.
pub(crate) fn add_identity(facts: &mut Facts, hw: &Hardware)
    requires { length facts.old ≤ 147 }
    ensures added { facts.new ≡ facts.old ++ identity_facts hw.now }
    ensures len { length facts.new ≡ length facts.old + 8 }
{
    let ident = hw.ident();
    facts.add_all(&[
        Fact::Signature(hw.hw_sig()),
        Fact::VersionCode(ident.version_code),
        Fact::Name(Name::Sysname, ident.names[0]),
        Fact::Name(Name::Nodename, ident.names[1]),
        Fact::Name(Name::Release, ident.names[2]),
        Fact::Name(Name::Version, ident.names[3]),
        Fact::Name(Name::Machine, ident.names[4]),
        Fact::Name(Name::Domainname, ident.names[5]),
    ]);
}
