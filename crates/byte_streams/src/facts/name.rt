/// The names of an identity, in the order of `struct new_utsname` (include/uapi/linux/utsname.h).
#[derive(Clone, Copy, Debug, PartialEq, Eq)]
pub enum Name {
    Sysname,
    Nodename,
    Release,
    Version,
    Machine,
    Domainname,
}

impl Name {
    ghost use Rattle.std.specs.Prelude.{◌≡◌, ◌≤◌, length};
    ghost use Rattle.byte_streams.specs.Texts.{name_key};

    /// Returns the key at the beginning of the name's line.
    pub fn key(self) -> &'static [u8]
        ensures text { result.now ≡ name_key self }
        ensures short { length result.now ≤ 10 }
    {
        match self {
            Name::Sysname => b"sysname",
            Name::Nodename => b"nodename",
            Name::Release => b"release",
            Name::Version => b"version",
            Name::Machine => b"machine",
            Name::Domainname => b"domainname",
        }
    }
}
