ghost use Rattle.std.specs.Prelude.{◌≡◌, ◌<◌};
ghost use Rattle.image_differ.specs.Headings.{flags_difference, heading_difference, memory_difference};
ghost use Rattle.image_differ.specs.Headings.{name_difference, part_of_name, signature_difference};
ghost use Rattle.image_differ.specs.Headings.{version_code_difference};

use crate::{Difference, Part};
use image_format::info::{Ident, Info};

/// The number of parts of two headings that are compared.
pub(crate) const PARTS: u32 = 10;

/// SF_HW_SIG: the mark has a hardware signature.
const SF_HW_SIG: u32 = 8;

/// What an image says apart from its page frames, in its mark and in its info page.
#[derive(Clone, Copy)]
pub struct Heading {
    pub flags: u32,
    pub hw_sig: u32,
    pub info: Info,
}

/// Returns how two headings differ in a part.
pub(crate) fn heading_difference(first: &Heading, second: &Heading, part: u32) -> Option<Difference>
    requires { part < 10 }
    ensures { result ≡ heading_difference part first.now second.now }
{
    if part == 0 {
        return flags_difference(first, second);
    }
    if part == 1 {
        return signature_difference(first, second);
    }
    if part == 2 {
        return version_code_difference(&first.info.ident, &second.info.ident);
    }
    if part == 9 {
        return memory_difference(&first.info, &second.info);
    }
    name_difference(&first.info.ident, &second.info.ident, part as usize - 3)
}

fn flags_difference(first: &Heading, second: &Heading) -> Option<Difference>
    ensures { result ≡ flags_difference first.now second.now }
{
    if first.flags == second.flags {
        None
    } else {
        Some(Difference::Flags {
            first: first.flags,
            second: second.flags,
        })
    }
}

/// Returns the difference of the hardware signatures. A signature counts if its flag is set.
fn signature_difference(first: &Heading, second: &Heading) -> Option<Difference>
    ensures { result ≡ signature_difference first.now second.now }
{
    if first.flags / SF_HW_SIG % 2 == 0 && second.flags / SF_HW_SIG % 2 == 0 {
        None
    } else if first.hw_sig == second.hw_sig {
        None
    } else {
        Some(Difference::HardwareSignature {
            first: first.hw_sig,
            second: second.hw_sig,
        })
    }
}

fn version_code_difference(first: &Ident, second: &Ident) -> Option<Difference>
    ensures { result ≡ version_code_difference first.now second.now }
{
    if first.version_code == second.version_code {
        None
    } else {
        Some(Difference::Identity(Part::VersionCode))
    }
}

/// Returns the difference of a name. All bytes of the names are compared, including those after a zero byte.
fn name_difference(first: &Ident, second: &Ident, name: usize) -> Option<Difference>
    requires { name < 6 }
    ensures { result ≡ name_difference name first.now second.now }
{
    if first.names[name] == second.names[name] {
        None
    } else {
        Some(Difference::Identity(part_of_name(name)))
    }
}

fn part_of_name(name: usize) -> Part
    requires { name < 6 }
    ensures { result ≡ part_of_name name }
{
    match name {
        0 => Part::Sysname,
        1 => Part::Nodename,
        2 => Part::Release,
        3 => Part::Version,
        4 => Part::Machine,
        _ => Part::Domainname,
    }
}

fn memory_difference(first: &Info, second: &Info) -> Option<Difference>
    ensures { result ≡ memory_difference first.now second.now }
{
    if first.physpages == second.physpages {
        None
    } else {
        Some(Difference::MemorySize {
            first: first.physpages,
            second: second.physpages,
        })
    }
}
