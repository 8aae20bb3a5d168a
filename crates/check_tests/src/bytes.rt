//! Texts by their bytes.

use crate::saying::said_of;
use own_build::check_text;
use std::test::*;

/// Texts with what is said of them. A column is a scalar, and a text that is no UTF-8 has columns up to the
/// byte that makes it none.
const TEXTS: [(&[u8], &str); 8] = [
    (b"", "a:1:1: error[S1]: syntax\n"),
    (b"\xff", "a:1:1: error[X1]: not UTF-8\n"),
    (
        b"func main() { }\n// \xc3\xa9\xf0\x9f\x98\x80\xff\nmain()\n",
        "a:2:6: error[X1]: not UTF-8\n",
    ),
    (
        b"func main() { }\nmain()\n// \xf0\x9f\x98",
        "a:3:4: error[X1]: not UTF-8\n",
    ),
    (
        b"func main() {\r\n\tlet k = 1\r\n\tk = 2\r\n}\r\nmain()\r\n",
        "a:3:2: error[O9]: 'k' cannot be changed here\n",
    ),
    (
        b"func main() {\r\tlet k = 1\r\tk = 2\r}\rmain()\r",
        "a:3:2: error[O9]: 'k' cannot be changed here\n",
    ),
    (
        b"\xef\xbb\xbf/* \r\n\r */ func main() { let k = 1; k = 2 }\nmain()",
        "a:3:30: error[O9]: 'k' cannot be changed here\n",
    ),
    (
        b"func main() { }\nmain() \xe2\x88\x9a",
        "a:2:8: error[X2]: unexpected character\n",
    ),
];

#[test]
fn texts(rt: HostRuntime) -> Result<(), Fail> {
    for (text, want) in &TEXTS {
        let said = said_of(rt.alloc(), text)?;
        assert_eq!(rt; said.as_slice(), want.as_bytes());
    }
    Ok(())
}

#[test]
fn an_accepted_text(rt: HostRuntime) -> Result<(), Fail> {
    let text = b"struct A { let n: Int }\nfunc main() { print(A(n: 1).n) }\nmain()\n";
    let checked = check_text(rt.alloc(), text).ok().ok_or("refused")?;
    assert_eq!(rt; checked.typed().bodies.len(), 1);
    assert_eq!(rt; checked.table().count(), 1);
    Ok(())
}
