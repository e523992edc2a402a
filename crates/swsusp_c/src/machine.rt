//! The machine that a caller in C describes.
ghost use Rattle.std.specs.Prelude.{◌≡◌, ◌≢◌, ◌↔◌, ◌≤◌, IfErr, IfOk, IsOk};
ghost use Rattle.boot_resume.specs.Facts.{compared_by};
ghost use Rattle.swsusp_c.specs.Codes.{fault_code, identity_code, machine_code};
ghost use Rattle.swsusp_c.specs.Told.{IsTaken, compared_in, machine_in};

use crate::codes::{BAD_HEADER, BAD_IDENTITY, BAD_MEMORY, BAD_PRESENT};
use boot_resume::{FrameRange, Identity, Machine, MachineFault};
use definitions::Ident;

/// The machine and the place of its swap area (`struct swsusp_machine`).
#[repr(C)]
#[derive(Drop)]
pub struct SwsuspMachine {
    pub present: u64,
    pub blocks: u64,
    pub header: u64,
    pub hardware_signature: u32,
    /// What the image's identity is compared with: nothing, the version code and the names, or all 390 bytes.
    pub identity: u32,
    pub version_code: u32,
    pub names: [[u8; 65]; 6],
    pub architecture: [u8; 390],
}

/// The identities that an image's may be compared with.
const ANY_KERNEL: u32 = 0;

const SAME_KERNEL: u32 = 1;

const SAME_ARCHITECTURE: u32 = 2;

/// Returns the names and the version code, as an image has them.
pub(crate) fn kernel_of(told: &SwsuspMachine) -> Ident
    ensures version { result.version_code ≡ told.now.version_code }
    ensures names { result.names ≡ told.now.names }
{
    Ident {
        version_code: told.version_code,
        names: told.names,
    }
}

/// Returns the machine that the caller describes. `kernel` is what `kernel_of` returns.
pub(crate) fn machine_of<'a>(
    told: &'a SwsuspMachine,
    memory: &'a [FrameRange],
    kernel: &'a Ident,
) -> Result<Machine<'a>, u32>
    requires version { kernel.now.version_code ≡ told.now.version_code }
    requires names { kernel.now.names ≡ told.now.names }
    ensures machine { IfOk result (λ m. m ≡ machine_in told.now memory.now) }
    ensures taken { IsTaken told.now memory.now → IsOk result }
    ensures ok { IfOk result (λ _. machine_code told.now memory.now ≡ 0) }
    ensures code { IfErr result (λ code. code ≡ machine_code told.now memory.now) }
    ensures refused { IfErr result (λ code. code ≢ 0) }
{
    let identity = identity_of(told, kernel)?;
    match Machine::new(
        memory,
        told.present,
        identity,
        told.hardware_signature,
        told.blocks,
        told.header,
    ) {
        Ok(machine) => Ok(machine),
        Err(fault) => Err(fault_code(fault)),
    }
}

/// Returns what the image's identity is compared with.
fn identity_of<'a>(told: &'a SwsuspMachine, kernel: &'a Ident) -> Result<Option<Identity<'a>>, u32>
    requires version { kernel.now.version_code ≡ told.now.version_code }
    requires names { kernel.now.names ≡ told.now.names }
    ensures identity { IfOk result (λ identity. compared_by identity ≡ compared_in told.now) }
    ensures ok { IsOk result ↔ (told.now.identity ≤ 2) }
    ensures code { IfErr result (λ code. code ≡ identity_code told.now.identity) }
    ensures refused { IfErr result (λ code. code ≡ 6) }
{
    match told.identity {
        ANY_KERNEL => Ok(None),
        SAME_KERNEL => Ok(Some(Identity::Generic(kernel))),
        SAME_ARCHITECTURE => Ok(Some(Identity::Architecture(&told.architecture))),
        _ => Err(BAD_IDENTITY),
    }
}

fn fault_code(fault: MachineFault) -> u32
    ensures { result ≡ fault_code fault }
{
    match fault {
        MachineFault::Memory { .. } => BAD_MEMORY,
        MachineFault::Present { .. } => BAD_PRESENT,
        MachineFault::Header { .. } => BAD_HEADER,
    }
}
