//! Devices and the lines of /proc that name those in use.

use kernel_use::{Device, SwapArea, mounted, swap_area, unescaped};
use std::test::Fail;

// Numbers as `stat -c %r` shows them.
#[test]
fn numbers_of_devices(rt: HostRuntime) -> Result<(), Fail> {
    for (number, major, minor) in [
        (1792, 7, 0),
        (2049, 8, 1),
        (66305, 259, 1),
        (1050668, 8, 300),
        (17592186044416, 4096, 0),
    ] {
        assert_eq!(rt; Device::of(number), Device { major, minor });
    }
    assert_eq!(rt;
        Device::parse("259:1\n"),
        Some(Device {
            major: 259,
            minor: 1
        })
    );
    for text in ["", "259", "259:", ":1", "259:1:2", "a:1"] {
        assert_eq!(rt; Device::parse(text), None, "{text}");
    }
    Ok(())
}

// Lines as proc_pid_mountinfo(5) and proc_swaps(5) show them.
#[test]
fn lines_of_proc(rt: HostRuntime) -> Result<(), Fail> {
    let root = "36 35 98:0 /mnt1 /mnt2 rw,noatime master:1 - ext3 /dev/root rw,errors=continue";
    let plain = "22 27 0:21 / /proc rw,relatime - proc proc rw";
    let cut_off = "22 27 0:21 / /proc rw,relatime";
    let disk = Device {
        major: 98,
        minor: 0,
    };
    let no_disk = Device {
        major: 0,
        minor: 21,
    };
    assert_eq!(rt;
        [mounted(root), mounted(plain), mounted(cut_off)],
        [Some((disk, "/dev/root")), Some((no_disk, "proc")), None]
    );
    let head = "Filename\t\t\t\tType\t\tSize\t\tUsed\t\tPriority";
    let partition = "/dev/dm-0   partition\t67108860\t0\t-2";
    let file = "/my\\040file   file\t67108860\t0\t-2";
    assert_eq!(rt;
        [swap_area(head), swap_area(partition), swap_area(file)],
        [
            None,
            Some(SwapArea::Device("/dev/dm-0")),
            Some(SwapArea::File("/my\\040file"))
        ]
    );
    Ok(())
}

// A space, a tab, a line feed and a backslash as proc_pid_mountinfo(5) shows them.
#[test]
fn paths_of_proc(rt: HostRuntime) -> Result<(), Fail> {
    let table = [
        ("/plain", "/plain"),
        ("/my\\040file", "/my file"),
        ("\\011a\\012", "\ta\n"),
        ("/a\\134040", "/a\\040"),
        ("/a\\05\\", "/a\\05\\"),
        ("", ""),
    ];
    for (printed, path) in table {
        assert_eq!(rt; unescaped(rt.alloc(), printed)?.as_str(), path);
    }
    Ok(())
}
