ghost use Rattle.std.specs.Prelude.{◌≡◌, All, length};
ghost use Rattle.definitions.specs.InfoPage.{text_of_name};
ghost use Rattle.dump_core.specs.Cores.{identity_bytes, machine_of};

use arrayvec::ArrayVec;
use definitions::Ident;
use elf_core::machines::machine_of_name;

/// The index of the machine's name (`struct new_utsname`).
const MACHINE: usize = 4;

/// Returns an identity as at the beginning of an info page: 396 bytes.
#[tactic(auto, unfolding(crate::specs::Cores::identity_bytes, elf_core::specs::Numbers::word))]
pub(crate) fn identity_bytes(ident: &Ident) -> ArrayVec<u8, 396>
    requires names { length ident.now.names ≡ 6 }
    requires each { All (λ name. length name ≡ 65) ident.now.names }
    ensures bytes { result.items ≡ identity_bytes ident.now }
    ensures len { length result.items ≡ 396 }
{
    let mut bytes = ArrayVec::new();
    bytes
        .try_extend_from_slice(ident.names.as_flattened())
        .unwrap();
    bytes.try_extend_from_slice(&[0; 2]).unwrap();
    bytes
        .try_extend_from_slice(&ident.version_code.to_le_bytes())
        .unwrap();
    bytes
}

/// Returns the ELF number of the machine of an identity.
pub(crate) fn machine_of(ident: &Ident) -> u16
    requires { length ident.now.names ≡ 6 }
    ensures { result ≡ machine_of ident.now }
{
    let name = ident.names[MACHINE].as_slice();
    machine_of_name(&name[..text_len(name)])
}

/// Returns how many bytes a name has before its first zero byte.
fn text_len(name: &[u8]) -> usize
    ensures { result ≡ length (text_of_name name.now) }
{
    name.iter().take_while(|b| **b != 0).count()
}
