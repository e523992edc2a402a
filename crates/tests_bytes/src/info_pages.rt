ghost use Rattle.std.specs.Prelude.{◌≡◌};

use image_format::info::{Field, Ident, Info, check, decode, encode};

/// The bytes of a name.
const NAME_SIZE: usize = 65;

// The scripted machine's names: sysname, nodename, release, version, machine, domainname.
const NAMES: [&str; 6] = ["Linux", "machine", "6.1.0", "#1", "plain", "(none)"];

/// Returns the info page of an image of eight pages.
fn first_image() -> Info
    ensures { result.pages ≡ 10 }
{
    let mut names = [[0; NAME_SIZE]; 6];
    for (name, text) in names.iter_mut().zip(NAMES) {
        for (byte, letter) in name.iter_mut().zip(text.bytes()) {
            *byte = letter;
        }
    }
    Info {
        ident: Ident {
            version_code: 393472,
            names,
        },
        physpages: 4096,
        image_pages: 8,
        pages: 10,
    }
}

// struct swsusp_info, kernel/power/power.h.
#[test]
fn the_first_image_is_written(rt: HostRuntime) {
    let page = encode(&first_image());
    let bytes = page.as_bytes();
    let numbers =
        b"\0\x01\x06\0\0\0\0\0\0\x10\0\0\0\0\0\0\0\0\0\0\0\0\0\0\x08\0\0\0\0\0\0\0\x0a\0\0\0\0\0\0\0\0\xa0\0\0\0\0\0\0";
    assert_eq!(rt;
        (&bytes[65..73], &bytes[325..333], &bytes[392..440]),
        (
            b"machine\0".as_slice(),
            b"(none)\0\0".as_slice(),
            numbers.as_slice()
        )
    );
    assert_eq!(rt; decode(&page), first_image());
}

// No resume compares the nodename. Of several fields that differ, the version code comes first, then the names in this
// order.
#[test]
fn the_first_field_that_differs(rt: HostRuntime) {
    let own = first_image().ident;
    let mut image = first_image();
    image.ident.names[1][0] = b'x';
    let nodename = check(&image, &own);
    image.ident.names[4][0] = 0;
    let machine = check(&image, &own);
    image.ident.names[0][0] = 0;
    let sysname = check(&image, &own);
    image.ident.version_code = 393473;
    assert_eq!(rt;
        [nodename, machine, sysname, check(&image, &own)],
        [
            Ok(()),
            Err(Field::Machine),
            Err(Field::Sysname),
            Err(Field::VersionCode)
        ]
    );
}
