//! Texts at a limit, and one past it.

use crate::saying::{repeated, said_of};
use own_tree::limits::{MOST_TEXT_BYTES, MOST_TYPES};
use std::alloc::{AllocError, Global};
use std::fmt::Write;
use std::test::*;

/// A short program.
const SHORT: &str = "func main() { print(40 + 2) }\nmain()\n";

#[test]
fn bytes(rt: HostRuntime) -> Result<(), Fail> {
    let spaces = MOST_TEXT_BYTES - SHORT.len();
    let text = repeated(rt.alloc(), SHORT, " ", spaces, "")?;
    assert_eq!(rt; text.len(), 1_048_576);
    assert!(rt; said_of(rt.alloc(), text.as_bytes())?.is_empty());
    let text = repeated(rt.alloc(), SHORT, " ", spaces, " ")?;
    let said = said_of(rt.alloc(), text.as_bytes())?;
    assert_eq!(rt;
        said.as_slice(),
        b"a: error[M1]: text bytes: 1048577\n".as_slice()
    );
    Ok(())
}

/// 3,030 lines of 66 tokens with 20 round them.
fn many_tokens(alloc: Global, end: &str) -> Result<String, AllocError> {
    repeated(
        alloc,
        "func main() {\nprint()\nprint(1, 1, 1)\n",
        "print(1, 1, 1, 1, 1, 1, 1, 1, 1, 1, 1, 1, 1, 1, 1, 1, 1, 1, 1, 1, 1, 1, 1, 1, 1, 1, 1, 1, 1, 1, 1, 1)\n",
        3_030,
        end,
    )
}

#[test]
fn tokens(rt: HostRuntime) -> Result<(), Fail> {
    let text = many_tokens(rt.alloc(), "}\nmain()\n")?;
    assert!(rt; said_of(rt.alloc(), text.as_bytes())?.is_empty());
    let text = many_tokens(rt.alloc(), "}\nmain() ;\n")?;
    let said = said_of(rt.alloc(), text.as_bytes())?;
    assert_eq!(rt;
        said.as_slice(),
        b"a:3035:8: error[M2]: tokens\n".as_slice()
    );
    Ok(())
}

/// So many structs, and a program without statements.
fn many_types(alloc: Global, count: usize) -> Result<String, AllocError> {
    let mut text = String::new(alloc);
    for number in 0..count {
        write!(text, "struct S{number} {{ }}\n")?;
    }
    text.push_str("func main() { }\nmain()\n")?;
    Ok(text)
}

#[test]
fn types(rt: HostRuntime) -> Result<(), Fail> {
    let text = many_types(rt.alloc(), MOST_TYPES)?;
    assert!(rt; said_of(rt.alloc(), text.as_bytes())?.is_empty());
    let text = many_types(rt.alloc(), 1_001)?;
    let said = said_of(rt.alloc(), text.as_bytes())?;
    assert_eq!(rt;
        said.as_slice(),
        b"a:1001:8: error[M4]: types: 1001\n".as_slice()
    );
    Ok(())
}

/// A function of 31 parameters of 64 leaves each, and one with so many more.
fn many_leaves(alloc: Global, more: usize) -> Result<String, AllocError> {
    let mut text = String::from_str(alloc, "struct V: ~Copyable { }\nstruct L: ~Copyable {\n")?;
    for number in 0..64 {
        write!(text, "let v{number}: V\n")?;
    }
    text.push_str("}\nstruct M: ~Copyable {\n")?;
    for number in 0..more {
        write!(text, "let v{number}: V\n")?;
    }
    text.push_str("}\nfunc f(_ m: borrowing M")?;
    for number in 0..31 {
        write!(text, ", _ l{number}: borrowing L")?;
    }
    text.push_str(") { }\nfunc main() { }\nmain()\n")?;
    Ok(text)
}

#[test]
fn leaves(rt: HostRuntime) -> Result<(), Fail> {
    let text = many_leaves(rt.alloc(), 16)?;
    assert!(rt; said_of(rt.alloc(), text.as_bytes())?.is_empty());
    let text = many_leaves(rt.alloc(), 17)?;
    let said = said_of(rt.alloc(), text.as_bytes())?;
    assert_eq!(rt;
        said.as_slice(),
        b"a:87:6: error[M11]: leaves of a body: 2001\n".as_slice()
    );
    Ok(())
}
