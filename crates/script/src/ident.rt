ghost use Rattle.std.specs.Prelude.{◌≡◌, ◌≤◌, length};
ghost use Rattle.script.specs.Settings.{scripted_ident, filled_name};

use definitions::Ident;

/// Returns the identity of scripted machines: Linux 6.1.0 on `plain`.
#[tactic(auto, unfolding(crate::specs::Settings::scripted_ident))]
pub fn scripted_ident() -> Ident
    ensures { result ≡ scripted_ident }
{
    Ident {
        version_code: 393472,
        names: [
            name(b"Linux"),
            name(b"machine"),
            name(b"6.1.0"),
            name(b"#1"),
            name(b"plain"),
            name(b"(none)"),
        ],
    }
}

/// Returns a name padded with zero bytes.
fn name(text: &[u8]) -> [u8; 65]
    requires { length text.now ≤ 65 }
    ensures { result ≡ filled_name text.now }
{
    let mut name = [0; 65];
    name[..text.len()].copy_from_slice(text);
    name
}
