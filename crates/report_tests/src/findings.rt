//! The lines of findings.

use own_report::{finding_lines, finding_text};
use own_shapes::{FieldInfo, TypeInfo};
use own_table::TypeTable;
use own_tree::{Binding, Bytes, Finding, Mode, Place, Row, Rule, Span, Ty, Typed};
use std::alloc::{AllocError, Global};
use std::test::*;

/// `struct Socket { var number: Int }`
const SOCKET: Ty = Ty::Named(0);

/// `struct Link { let name: Int; var socket: Socket }`
const LINK: Ty = Ty::Named(1);

fn at(start: u32) -> Span {
    Span { start, end: start }
}

fn push_type(
    alloc: Global,
    types: &mut Row<TypeInfo>,
    name: &[u8],
    fields: &[(&[u8], Ty)],
) -> Result<(), AllocError> {
    let mut infos = Row::new(alloc);
    for (name, ty) in fields {
        infos.push(FieldInfo {
            name: Bytes::from_slice(alloc, name)?,
            ty: *ty,
            changes: true,
        })?;
    }
    types.push(TypeInfo {
        name: Bytes::from_slice(alloc, name)?,
        is_enum: false,
        noncopyable: true,
        has_deinit: false,
        fields: infos,
        cases: Row::new(alloc),
    })
}

fn table(alloc: Global) -> Result<TypeTable, Fail> {
    let mut types = Row::new(alloc);
    push_type(alloc, &mut types, b"Socket", &[(b"number", Ty::Int)])?;
    push_type(
        alloc,
        &mut types,
        b"Link",
        &[(b"name", Ty::Int), (b"socket", SOCKET)],
    )?;
    Ok(TypeTable::from_types(alloc, types).ok().ok_or("no table")?)
}

fn binding(alloc: Global, name: &[u8], ty: Ty) -> Result<Binding, AllocError> {
    Ok(Binding {
        name: Bytes::from_slice(alloc, name)?,
        ty,
        mode: Mode::Let,
        span: at(0),
        body: 0,
    })
}

/// A program with the bindings `self` and `link`, both a `Link`.
fn program(alloc: Global) -> Result<Typed, AllocError> {
    let mut bindings = Row::new(alloc);
    bindings.push(binding(alloc, b"self", LINK)?)?;
    bindings.push(binding(alloc, b"link", LINK)?)?;
    Ok(Typed {
        bodies: Row::new(alloc),
        bindings,
        signatures: Row::new(alloc),
        main: 0,
        tokens: 0,
    })
}

fn finding(
    alloc: Global,
    rule: Rule,
    binding: u32,
    fields: &[u32],
    starts: (u32, u32),
) -> Result<Finding, AllocError> {
    Ok(Finding {
        rule,
        span: at(starts.0),
        place: Place {
            binding,
            fields: Row::from_slice(alloc, fields)?,
        },
        cause: at(starts.1),
    })
}

/// Lines of ten bytes.
const TEXT: &[u8] = b"123456789\n123456789\n123456789\n";

const RULES: [(Rule, &str); 12] = [
    (
        Rule::O1,
        "f:3:4: error[O1]: 'link.socket.number' is used after it was consumed at 2:3\n",
    ),
    (
        Rule::O2,
        "f:3:4: error[O2]: 'link.socket.number' is used before it has a value; it was declared at 2:3\n",
    ),
    (
        Rule::O3,
        "f:3:4: error[O3]: 'link' has no value at this return; it was consumed at 2:3\n",
    ),
    (
        Rule::O4,
        "f:3:4: error[O4]: 'self' is neither discarded nor consumed on a path to this return\n",
    ),
    (
        Rule::O5,
        "f:3:4: error[O5]: 'link.socket.number' has no value at this return of init\n",
    ),
    (
        Rule::O6,
        "f:3:4: error[O6]: 'link.socket.number' is assigned again; it was assigned at 2:3\n",
    ),
    (
        Rule::O7,
        "f:3:4: error[O7]: 'link.socket.number' is borrowed here and cannot be consumed\n",
    ),
    (
        Rule::O8,
        "f:3:4: error[O8]: 'link.socket.number' cannot be consumed out of a value whose type has a deinit\n",
    ),
    (
        Rule::O9,
        "f:3:4: error[O9]: 'link.socket.number' cannot be changed here\n",
    ),
    (
        Rule::O10,
        "f:3:4: error[O10]: 'link.socket.number' conflicts with what the same call holds at 2:3\n",
    ),
    (
        Rule::O11,
        "f:3:4: error[O11]: 'link.socket.number' is changed while the switch at 2:3 borrows it\n",
    ),
    (
        Rule::F1,
        "f:3:4: error[F1]: the end of the body is reached without a return\n",
    ),
];

#[test]
fn rules(rt: HostRuntime) -> Result<(), Fail> {
    let table = table(rt.alloc())?;
    let program = program(rt.alloc())?;
    for (rule, want) in &RULES {
        let finding = finding(rt.alloc(), *rule, 1, &[1, 0], (23, 12))?;
        let line = finding_text(rt.alloc(), "f", TEXT, &program, &table, &finding)?;
        assert_eq!(rt; line.as_slice(), want.as_bytes());
    }
    Ok(())
}

/// An implicit `self` is written out, and a finding of a file without bindings names none.
#[test]
fn lists(rt: HostRuntime) -> Result<(), Fail> {
    let table = table(rt.alloc())?;
    let program = program(rt.alloc())?;
    let mut found = Row::new(rt.alloc());
    found.push(finding(rt.alloc(), Rule::O9, 0, &[0], (0, 29))?)?;
    found.push(finding(rt.alloc(), Rule::O1, 1, &[], (29, 10))?)?;
    found.push(finding(rt.alloc(), Rule::F1, 0, &[], (30, 30))?)?;
    let lines = finding_lines(rt.alloc(), "f", TEXT, &program, &table, found.as_slice())?;
    let want =
        "f:1:1: error[O9]: 'self.name' cannot be changed here\nf:3:10: error[O1]: 'link' is used after it was consumed at 2:1\nf:4:1: error[F1]: the end of the body is reached without a return\n";
    assert_eq!(rt; lines.as_slice(), want.as_bytes());
    Ok(())
}

/// A text of so many lines of a letter, which is longer than the distances of the known places.
fn long_text(alloc: Global, lines: usize) -> Result<Vec<u8>, AllocError> {
    let mut text = Vec::new(alloc);
    for _ in 0..lines {
        text.extend_from_slice(b"x\n")?;
    }
    Ok(text)
}

#[test]
fn long_texts(rt: HostRuntime) -> Result<(), Fail> {
    let text = long_text(rt.alloc(), 300)?;
    let table = table(rt.alloc())?;
    let program = program(rt.alloc())?;
    for (start, want) in [
        (
            255,
            "f:128:2: error[O1]: 'self' is used after it was consumed at 1:1\n",
        ),
        (
            256,
            "f:129:1: error[O1]: 'self' is used after it was consumed at 1:1\n",
        ),
        (
            512,
            "f:257:1: error[O1]: 'self' is used after it was consumed at 1:1\n",
        ),
        (
            599,
            "f:300:2: error[O1]: 'self' is used after it was consumed at 1:1\n",
        ),
        (
            600,
            "f:301:1: error[O1]: 'self' is used after it was consumed at 1:1\n",
        ),
    ] {
        let finding = finding(rt.alloc(), Rule::O1, 0, &[], (start, 0))?;
        let line = finding_text(rt.alloc(), "f", text.as_slice(), &program, &table, &finding)?;
        assert_eq!(rt; line.as_slice(), want.as_bytes());
    }
    Ok(())
}
