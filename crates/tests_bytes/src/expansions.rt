ghost use Rattle.std.specs.Prelude.{◌≤◌, length};

use compression::lzo::{Kind, LzoFault, expand};
use std::process::Abort;
use std::test::Fail;

// liblzo2 2.10 and the kernel's lzo1x_decompress_safe expand each stream here to the same bytes.

/// Asserts that a stream expands to these bytes, and that the output after them stays.
fn assert_expands(rt: &impl Abort, input: &[u8], wanted: &[u8])
    requires { length wanted.now ≤ 64 }
{
    let mut output = [0xaa; 64];
    let told = expand(input, &mut output);
    assert_eq!(rt; (told, &output[..wanted.len()]), (Ok(wanted.len()), wanted));
    assert!(rt; output[wanted.len()..].iter().all(|byte| *byte == 0xaa));
}

// Literals; a text as lzo1x_1_compress makes it; after one literal 0 0 0 0 D D S S: two bytes; 0 1 L D D D S S and 1 L
// L D D D S S, with literals after them; 0 0 1 L L L L L: seven bytes of the last three.
#[test]
fn each_short_instruction(rt: HostRuntime) {
    assert_expands(&rt, b"\x11\0\0", b"");
    assert_expands(&rt, b"\x01abcd\x11\0\0", b"abcd");
    let text = b"\x03hello \x2a\x14\0\x0ehello world world\x11\0\0";
    assert_expands(&rt, text, b"hello hello hello hello world world");
    assert_expands(&rt, b"\x12a\0\0\x11\0\0", b"aaa");
    assert_expands(&rt, b"\x15abcd\x4e\0xy\x11\0\0", b"abcdabcxy");
    assert_expands(&rt, b"\x15abcd\xe1\0z\x11\0\0", b"abcdddddddddz");
    assert_expands(&rt, b"\x15abcd\x25\x0b\0xyz\x11\0\0", b"abcdbcdbcdbxyz");
}

/// Expands a stream. Returns the length of what it expands to, and the last 14 bytes of that.
fn end_of(input: &[u8], output: &mut [u8]) -> (Result<usize, LzoFault>, [u8; 14]) {
    let told = expand(input, output);
    let mut end = [0; 14];
    if let Ok(length) = told {
        if 14 <= length && length <= output.len() {
            end.copy_from_slice(&output[length - 14..length]);
        }
    }
    (told, end)
}

/// Makes a stream: four literals, a match of the last one with `zeros` zero bytes in its length, and then `rest`.
fn far(alloc: std::alloc::Global, zeros: usize, rest: &[u8]) -> Result<Vec<u8>, Fail> {
    let mut input = Vec::from_slice(alloc, b"\x15abcd\x20")?;
    for _ in 0..zeros {
        input.push(0)?;
    }
    input.extend_from_slice(rest)?;
    Ok(input)
}

// A zero byte adds 255. 0 0 0 0 D D S S after four literals: three bytes from 2051 before the end. 0 0 1 L L L L L with
// all bits D set: 16384 before the end, which isn't an end marker. 0 0 0 1 H L L L: lengths of 5 in the bits and of 266
// after them, from 16,391 and 32,837 before the end.
#[test]
fn each_instruction_from_afar(rt: HostRuntime) -> Result<(), Fail> {
    let alloc = rt.alloc();
    let mut output = Vec::from_elem(alloc, 0, 33252)?;
    let table: [(usize, &[u8], usize, &[u8; 14]); 6] = [
        (1, b"\x01\0\0\x11\0\0", 293, b"dddddddddddddd"),
        (
            8,
            b"\x3c\x0c\0\x01wxyz\x09\x01!\x11\0\0",
            2145,
            b"dabcdawxyzcda!",
        ),
        (
            64,
            b"\x3c\x0c\0\x21\xfc\xff\x11\0\0",
            16420,
            b"cdabcdabcdabcd",
        ),
        (
            64,
            b"\x3c\x0c\0\x13\x1e\0<>\x11\0\0",
            16424,
            b"cdabcdacdabc<>",
        ),
        (
            64,
            b"\x3c\x0c\0\x10\0\x02\x1e\0<>\x11\0\0",
            16685,
            b"abcdabcdabcd<>",
        ),
        (
            130,
            b"\x3c\x0c\0\x1b\x14\x01\x11\0\0",
            33252,
            b"cdabcdabccdabc",
        ),
    ];
    for (zeros, rest, length, end) in table {
        let input = far(alloc, zeros, rest)?;
        let told = end_of(input.as_slice(), output.as_mut_slice());
        assert_eq!(rt; told, (Ok(length), *end));
    }
    Ok(())
}

// A zero byte adds 255: 3 + 15 + 255 + 5 literals.
#[test]
fn a_long_run_of_literals(rt: HostRuntime) {
    let mut input = [b'q'; 284];
    input[..3].copy_from_slice(b"\0\0\x05");
    input[281..].copy_from_slice(b"\x11\0\0");
    let mut output = [0; 300];
    assert_eq!(rt; end_of(&input, &mut output), (Ok(278), [b'q'; 14]));
}

/// Asserts that a stream has this fault with an output of 8 bytes, which then holds `wanted`.
fn assert_fails(rt: &impl Abort, input: &[u8], kind: Kind, at: usize, wanted: &[u8; 8]) {
    let mut output = [0xaa; 8];
    let told = expand(input, &mut output);
    assert_eq!(rt; (told, output), (Err(LzoFault { kind, at }), *wanted));
}

const NOTHING: &[u8; 8] = b"\xaa\xaa\xaa\xaa\xaa\xaa\xaa\xaa";

const LITERALS: &[u8; 8] = b"abc\xaa\xaa\xaa\xaa\xaa";

// An input that ends in literals, in an instruction and in a length of zero bytes; an output without room; a match from
// before the start. 0x12 gives a length of 4 at the distance that ends the stream. lzorle1x_1_compress writes 17 and 1
// first.
#[test]
fn each_fault(rt: HostRuntime) {
    assert_fails(&rt, b"\x14ab", Kind::InputTooShort, 0, NOTHING);
    assert_fails(&rt, b"\x14abc\x11\0", Kind::InputTooShort, 4, LITERALS);
    assert_fails(&rt, b"\0\0\0", Kind::InputTooShort, 0, NOTHING);
    let full = b"\x15abcd\x48\0\x88\0\x11\0\0";
    assert_fails(&rt, full, Kind::OutputTooLong, 7, b"abcdbcd\xaa");
    assert_fails(
        &rt,
        b"\x14abc\x4c\0\x11\0\0",
        Kind::BeforeBegin,
        4,
        LITERALS,
    );
    assert_fails(&rt, b"\x14abc\x12\0\0", Kind::BadEnd, 4, LITERALS);
    assert_fails(&rt, b"\x14abc\x11\0\0\0", Kind::BehindEnd, 7, LITERALS);
    let versioned = b"\x11\x01\x14abc\x11\0\0";
    assert_fails(&rt, versioned, Kind::Versioned, 0, NOTHING);
}
