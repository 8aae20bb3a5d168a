use std::alloc::{AllocError, Global};
use std::test::*;
use wasm_form::limits::{ModuleLimit, Outside};
use wasm_read::{ReadError, read_module};

/// A `main` of no parameters and no results that does nothing.
const Q: [u8; 34] = [
    0x00, 0x61, 0x73, 0x6d, 0x01, 0x00, 0x00, 0x00, 0x01, 0x04, 0x01, 0x60, 0x00, 0x00, 0x03, 0x02,
    0x01, 0x00, 0x07, 0x08, 0x01, 0x04, 0x6d, 0x61, 0x69, 0x6e, 0x00, 0x00, 0x0a, 0x04, 0x01, 0x02,
    0x00, 0x0b,
];

/// The fault of the bytes, if they spell no module that is taken.
fn fault(alloc: Global, bytes: &[u8]) -> Option<ReadError> {
    if bytes.len() >= 1 << 32 {
        return Some(ReadError::Memory);
    }
    read_module(alloc, bytes).err()
}

#[test]
fn prefixes(rt: HostRuntime) {
    assert_eq!(rt; fault(rt.alloc(), &Q), None);
    for end in 0..34u32 {
        let expected = if end == 8 || end == 14 {
            ReadError::NoMain
        } else {
            ReadError::NotModule { at: end }
        };
        assert_eq!(rt; fault(rt.alloc(), &Q[..end as usize]), Some(expected));
    }
}

/// Bytes in place of those from `from` to before `to` of `Q`.
fn changed(alloc: Global, from: usize, to: usize, bytes: &[u8]) -> Result<Vec<u8>, AllocError> {
    let mut out = Vec::new(alloc);
    for byte in Q.iter().take(from) {
        out.push(*byte)?;
    }
    out.extend_from_slice(bytes)?;
    for byte in Q.iter().skip(to) {
        out.push(*byte)?;
    }
    Ok(out)
}

#[test]
fn changes(rt: HostRuntime) -> Result<(), Fail> {
    let rows: [(usize, usize, &[u8], Option<ReadError>); 24] = [
        // A number in more bytes than it needs, and in too many.
        (9, 10, &[0x84, 0x00], None),
        (
            9,
            10,
            &[0x84, 0x80, 0x80, 0x80, 0x80, 0x00],
            Some(ReadError::NotModule { at: 9 }),
        ),
        // Bits of the last byte that a u32 does not have.
        (
            9,
            10,
            &[0x84, 0x80, 0x80, 0x80, 0x10],
            Some(ReadError::NotModule { at: 9 }),
        ),
        // A float constant.
        (
            28,
            34,
            &[
                0x0a, 0x0e, 0x01, 0x0c, 0x00, 0x44, 0x00, 0x00, 0x00, 0x00, 0x00, 0x00, 0x00, 0x00,
                0x1a, 0x0b,
            ],
            Some(ReadError::OutsideProfile {
                at: 33,
                what: Outside::Float,
            }),
        ),
        // A byte left over, in a section and in a code entry.
        (
            9,
            14,
            &[0x05, 0x01, 0x60, 0x00, 0x00, 0x00],
            Some(ReadError::NotModule { at: 14 }),
        ),
        (
            28,
            34,
            &[0x0a, 0x05, 0x01, 0x03, 0x00, 0x0b, 0x0b],
            Some(ReadError::NotModule { at: 34 }),
        ),
        // The type section twice, a section of no such number, and a start section.
        (
            14,
            14,
            &[0x01, 0x01, 0x00],
            Some(ReadError::NotModule { at: 14 }),
        ),
        (34, 34, &[0x0c, 0x00], Some(ReadError::NotModule { at: 34 })),
        (
            28,
            28,
            &[0x08, 0x01, 0x00],
            Some(ReadError::OutsideProfile {
                at: 28,
                what: Outside::Start,
            }),
        ),
        // The import section behind the function section.
        (
            18,
            18,
            &[0x02, 0x01, 0x00],
            Some(ReadError::NotModule { at: 18 }),
        ),
        // A section of an empty list, and one of no bytes.
        (18, 18, &[0x04, 0x01, 0x00], None),
        (18, 18, &[0x04, 0x00], Some(ReadError::NotModule { at: 20 })),
        // A custom section of the name `a` before, between and behind the others.
        (8, 8, &[0x00, 0x02, 0x01, 0x61], None),
        (18, 18, &[0x00, 0x02, 0x01, 0x61], None),
        (28, 28, &[0x00, 0x02, 0x01, 0x61], None),
        (34, 34, &[0x00, 0x02, 0x01, 0x61], None),
        // Two custom sections, and one of a name that is not UTF-8.
        (
            14,
            14,
            &[0x00, 0x03, 0x01, 0x61, 0xff, 0x00, 0x02, 0x01, 0x62],
            None,
        ),
        (
            14,
            14,
            &[0x00, 0x02, 0x01, 0xff],
            Some(ReadError::NotModule { at: 17 }),
        ),
        // An export of a name that is not UTF-8.
        (25, 26, &[0xff], Some(ReadError::NotModule { at: 25 })),
        // No code section, and one of two entries.
        (28, 34, &[], Some(ReadError::NotModule { at: 28 })),
        (30, 31, &[0x02], Some(ReadError::NotModule { at: 30 })),
        // `main` of another kind, of another name, and exported twice.
        (24, 25, &[0x79], Some(ReadError::NoMain)),
        (
            18,
            28,
            &[
                0x07, 0x0f, 0x02, 0x04, 0x6d, 0x61, 0x69, 0x6e, 0x00, 0x00, 0x04, 0x6d, 0x61, 0x69,
                0x6e, 0x00, 0x00,
            ],
            Some(ReadError::NotModule { at: 28 }),
        ),
        // A function of no type.
        (17, 18, &[0x01], Some(ReadError::NotModule { at: 17 })),
    ];
    for (from, to, bytes, expected) in rows {
        let bytes = changed(rt.alloc(), from, to, bytes).ok().ok_or("memory")?;
        assert_eq!(rt; fault(rt.alloc(), bytes.as_slice()), expected);
    }
    Ok(())
}

/// A number of 32 bits in five bytes.
fn push_padded(out: &mut Vec<u8>, n: usize) -> Result<(), AllocError> {
    let mut rest = n;
    for _ in 0..4 {
        out.push((rest % 128 + 128) as u8)?;
        rest /= 128;
    }
    out.push((rest % 16) as u8)?;
    Ok(())
}

/// The first so many bytes of `Q`, and then a section of `front`, `unit` so many times and `back`.
fn section(
    alloc: Global,
    first: usize,
    id: u8,
    front: &[u8],
    unit: &[u8],
    times: u32,
    back: &[u8],
) -> Result<Vec<u8>, AllocError> {
    let mut content = Vec::new(alloc);
    content.extend_from_slice(front)?;
    for _ in 0..times {
        content.extend_from_slice(unit)?;
    }
    content.extend_from_slice(back)?;
    let mut out = Vec::new(alloc);
    for byte in Q.iter().take(first) {
        out.push(*byte)?;
    }
    out.push(id)?;
    push_padded(&mut out, content.len())?;
    out.extend_from_slice(content.as_slice())?;
    Ok(out)
}

#[test]
fn limits(rt: HostRuntime) -> Result<(), Fail> {
    let rows: [(u8, &[u8], &[u8], u32, &[u8], ReadError); 15] = [
        // The largest count that is taken, and then no entry.
        (
            3,
            &[0x90, 0x4e],
            &[],
            0,
            &[],
            ReadError::NotModule { at: 16 },
        ),
        (
            7,
            &[0x90, 0x4e],
            &[],
            0,
            &[],
            ReadError::NotModule { at: 16 },
        ),
        // Each limit at its number, and one past it.
        (
            1,
            &[0x90, 0x4e],
            &[0x60, 0x00, 0x00],
            10_000,
            &[],
            ReadError::NoMain,
        ),
        (
            1,
            &[0x91, 0x4e],
            &[],
            0,
            &[],
            ReadError::Limit {
                which: ModuleLimit::Types,
            },
        ),
        (
            1,
            &[0x01, 0x60, 0x40],
            &[0x7f],
            64,
            &[0x00],
            ReadError::NoMain,
        ),
        (
            1,
            &[0x01, 0x60, 0x41],
            &[0x7f],
            65,
            &[0x00],
            ReadError::Limit {
                which: ModuleLimit::Parameters,
            },
        ),
        (
            3,
            &[0x91, 0x4e],
            &[],
            0,
            &[],
            ReadError::Limit {
                which: ModuleLimit::Functions,
            },
        ),
        (
            4,
            &[0x01, 0x70, 0x00, 0x80, 0x80, 0x01],
            &[],
            0,
            &[],
            ReadError::NoMain,
        ),
        (
            4,
            &[0x01, 0x70, 0x00, 0x81, 0x80, 0x01],
            &[],
            0,
            &[],
            ReadError::Limit {
                which: ModuleLimit::Table,
            },
        ),
        (5, &[0x01, 0x00, 0x90, 0x02], &[], 0, &[], ReadError::NoMain),
        (
            5,
            &[0x01, 0x00, 0x91, 0x02],
            &[],
            0,
            &[],
            ReadError::Limit {
                which: ModuleLimit::Pages,
            },
        ),
        (
            6,
            &[0x64],
            &[0x7f, 0x00, 0x41, 0x00, 0x0b],
            100,
            &[],
            ReadError::NoMain,
        ),
        (
            6,
            &[0x65],
            &[0x7f, 0x00, 0x41, 0x00, 0x0b],
            101,
            &[],
            ReadError::Limit {
                which: ModuleLimit::Globals,
            },
        ),
        (
            6,
            &[0x01, 0x7f, 0x00, 0x23, 0x00, 0x0b],
            &[],
            0,
            &[],
            ReadError::OutsideProfile {
                at: 17,
                what: Outside::Global,
            },
        ),
        (
            7,
            &[0x91, 0x4e],
            &[],
            0,
            &[],
            ReadError::Limit {
                which: ModuleLimit::Exports,
            },
        ),
    ];
    for (id, front, unit, times, back, expected) in rows {
        let bytes = section(rt.alloc(), 8, id, front, unit, times, back)
            .ok()
            .ok_or("memory")?;
        assert_eq!(rt; fault(rt.alloc(), bytes.as_slice()), Some(expected));
    }
    Ok(())
}

#[test]
fn code_limits(rt: HostRuntime) -> Result<(), Fail> {
    let rows: [(&[u8], &[u8], u32, &[u8], Option<ReadError>); 5] = [
        // 4,400 locals and one more.
        (
            &[0x01, 0x05, 0x01, 0xb0, 0x22, 0x7f, 0x0b],
            &[],
            0,
            &[],
            None,
        ),
        (
            &[0x01, 0x05, 0x01, 0xb1, 0x22, 0x7f, 0x0b],
            &[],
            0,
            &[],
            Some(ReadError::Limit {
                which: ModuleLimit::Locals,
            }),
        ),
        // 4,096 labels of a br_table and one more.
        (
            &[0x01, 0x86, 0x20, 0x00, 0x0e, 0x80, 0x20],
            &[0x00],
            4_096,
            &[0x00, 0x0b],
            None,
        ),
        (
            &[0x01, 0x86, 0x20, 0x00, 0x0e, 0x81, 0x20],
            &[0x00],
            4_096,
            &[0x00, 0x0b],
            Some(ReadError::Limit {
                which: ModuleLimit::Targets,
            }),
        ),
        // Blocks without an end, one more than 1,024 in one another.
        (
            &[0x01, 0x83, 0x10, 0x00],
            &[0x02, 0x40],
            1_025,
            &[],
            Some(ReadError::Limit {
                which: ModuleLimit::Labels,
            }),
        ),
    ];
    for (front, unit, times, back, expected) in rows {
        let bytes = section(rt.alloc(), 28, 10, front, unit, times, back)
            .ok()
            .ok_or("memory")?;
        assert_eq!(rt; fault(rt.alloc(), bytes.as_slice()), expected);
    }
    Ok(())
}

#[test]
fn labels(rt: HostRuntime) -> Result<(), Fail> {
    // 1,024 blocks in one another, and their ends.
    let mut code = Vec::new(rt.alloc());
    code.extend_from_slice(&[0x01, 0x82, 0x18, 0x00])
        .ok()
        .ok_or("memory")?;
    for _ in 0..1_024u32 {
        code.extend_from_slice(&[0x02, 0x40]).ok().ok_or("memory")?;
    }
    let bytes = section(rt.alloc(), 28, 10, code.as_slice(), &[0x0b], 1_025, &[])
        .ok()
        .ok_or("memory")?;
    assert_eq!(rt; fault(rt.alloc(), bytes.as_slice()), None);
    Ok(())
}

#[test]
fn imports(rt: HostRuntime) -> Result<(), Fail> {
    // A type to i64, and then imports from the offset 15 on.
    let start: [u8; 9] = [0x01, 0x05, 0x01, 0x60, 0x00, 0x01, 0x7e, 0x02, 0x15];
    let entry = b"\x08swiftown\x08read_int\x00\x00";
    let other = b"\x08swiftown\x08read_Int\x00\x00";
    let rows: [(u8, u8, &[u8], &[u8], ReadError); 3] = [
        (0x15, 1, entry, &[], ReadError::NoMain),
        (
            0x15,
            1,
            other,
            &[],
            ReadError::OutsideProfile {
                at: 18,
                what: Outside::Import,
            },
        ),
        (
            0x29,
            2,
            entry,
            entry,
            ReadError::OutsideProfile {
                at: 38,
                what: Outside::Import,
            },
        ),
    ];
    for (size, count, first, second, expected) in rows {
        let mut bytes = Vec::new(rt.alloc());
        for byte in Q.iter().take(8) {
            bytes.push(*byte).ok().ok_or("memory")?;
        }
        bytes.extend_from_slice(&start[..8]).ok().ok_or("memory")?;
        bytes.push(size).ok().ok_or("memory")?;
        bytes.push(count).ok().ok_or("memory")?;
        bytes.extend_from_slice(first).ok().ok_or("memory")?;
        bytes.extend_from_slice(second).ok().ok_or("memory")?;
        assert_eq!(rt; fault(rt.alloc(), bytes.as_slice()), Some(expected));
    }
    Ok(())
}

#[test]
fn segments(rt: HostRuntime) {
    // A memory of no pages, and a byte for it.
    let bytes: [u8; 22] = [
        0x00, 0x61, 0x73, 0x6d, 0x01, 0x00, 0x00, 0x00, 0x05, 0x03, 0x01, 0x00, 0x00, 0x0b, 0x07,
        0x01, 0x00, 0x41, 0x00, 0x0b, 0x01, 0x61,
    ];
    assert_eq!(rt;
        fault(rt.alloc(), &bytes),
        Some(ReadError::NotModule { at: 20 })
    );
}
