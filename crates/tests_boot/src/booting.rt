use boot_resume::{Call, Cause, FailedCall, FrameRange, Left, Machine, Resume};
use definitions::{Ident, Info};
use image_format::info::encode;
use image_format::{area_page, mark};
use page_core::Page;

/// The state fits a caller's buffer of 16 KiB.
const _: () = prove!(size_of::<Resume>() <= 16384);

/// Makes the area of the image: its header in block 0, the map in block 1, the info page in block 2, the numbers of
/// page frames 3 and 9 in block 3 and their pages in blocks 4 and 5, whose bytes are all 7 and all 8.
fn image() -> [Page; 6] {
    let mut map = Page::zero();
    map.set_word(0, 2);
    map.set_word(1, 3);
    map.set_word(2, 4);
    map.set_word(3, 5);
    let info = encode(&Info {
        ident: Ident {
            version_code: 0x60100,
            names: [[0; 65]; 6],
        },
        physpages: 16,
        image_pages: 2,
        pages: 4,
    });
    let mut numbers = Page::zero();
    numbers.set_word(0, 3);
    numbers.set_word(1, 9);
    numbers.set_word(2, u64::MAX);
    [
        mark(&area_page(5, &[]), 1, 2, 0),
        map,
        info,
        numbers,
        Page::filled(7),
        Page::filled(8),
    ]
}

/// The outcome of a boot: its last call, and the page frames that got a page, with its first byte.
#[derive(Clone, Copy, Debug, PartialEq, Eq)]
struct Outcome {
    end: Call,
    first: (u64, u8),
    second: (u64, u8),
}

const NOTHING: (u64, u8) = (0, 0);

/// Makes a call of a disk or of memory.
fn serve(call: Call, disk: &mut [Page; 6], buffer: &mut Page, told: &mut Outcome) {
    match call {
        Call::Read { block } => {
            if block < 6 {
                buffer.copy_from_slice(disk[block as usize].as_bytes());
            }
        }
        Call::Write { block } => {
            if block < 6 {
                disk[block as usize].copy_from_slice(buffer.as_bytes());
            }
        }
        Call::Page { frame } => {
            told.first = told.second;
            told.second = (frame, buffer.as_bytes()[0]);
        }
        _ => {}
    }
}

/// Runs a boot that makes at most `most` calls, and whose call number `failing` fails.
fn boot(disk: &mut [Page; 6], most: u32, failing: u32) -> Outcome {
    let memory = [FrameRange { start: 1, end: 16 }];
    let mut told = Outcome {
        end: Call::Sync,
        first: NOTHING,
        second: NOTHING,
    };
    let Ok(machine) = Machine::new(&memory, 16, None, 0, 6, 0) else {
        return told;
    };
    let mut resume = Resume::new();
    let mut buffer = Page::zero();
    for number in 0..most {
        let call = resume.next();
        if call.is_end() {
            break;
        }
        if number == failing {
            resume.fail();
        } else {
            serve(call, disk, &mut buffer, &mut told);
            resume.answer(&machine, &mut buffer);
        }
    }
    told.end = resume.next();
    told
}

const NO_FAILURE: u32 = 1000;

#[test]
fn each_page_is_handed_out_once(rt: HostRuntime) {
    let mut disk = image();
    let told = boot(&mut disk, 100, NO_FAILURE);
    let again = boot(&mut disk, 100, NO_FAILURE);
    assert_eq!(rt;
        (told.end, told.first, told.second),
        (Call::Done { pages: 2 }, (3, 7), (9, 8))
    );
    assert_eq!(rt;
        (again.end, again.second),
        (Call::Refused(Cause::NoImage), NOTHING)
    );
}

/// Returns which of two boots got pages if the first is broken off after `most` calls.
fn pages_of_two(most: u32) -> (bool, bool) {
    let mut disk = image();
    let first = boot(&mut disk, most, NO_FAILURE);
    let second = boot(&mut disk, 100, NO_FAILURE);
    (first.second != NOTHING, second.second != NOTHING)
}

// The mark is taken back by the third call, and the first page is handed out by the tenth.
#[test]
fn one_of_two_boots_gets_pages(rt: HostRuntime) {
    for most in 0..16 {
        let (first, second) = pages_of_two(most);
        assert_eq!(rt; (first && second, second), (false, most < 3));
    }
}

/// Returns how a boot ends if call number `failing`, from 0 on, fails.
fn end_of(failing: u32) -> Call {
    boot(&mut image(), 100, failing).end
}

#[test]
fn a_failed_call_says_what_is_left(rt: HostRuntime) {
    let failed = |call: FailedCall, left: Left| Call::Failed { call, left };
    assert_eq!(rt;
        [0, 1, 2, 3, 4, 10].map(end_of),
        [
            failed(FailedCall::Sync, Left::Same),
            failed(FailedCall::Read, Left::Same),
            failed(FailedCall::Write, Left::Unsure),
            failed(FailedCall::Sync, Left::Unsure),
            failed(FailedCall::Read, Left::Gone),
            failed(FailedCall::Page, Left::Gone)
        ]
    );
}
