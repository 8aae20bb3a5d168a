use own_decl::parse;
use own_lex::lex;
use own_tree::ParseError;
use shown::put_tree;
use std::alloc::{AllocError, Global};
use std::fmt::Write;
use std::test::Fail;

mod shown;

/// The tree of a text in a short form, or why there is none.
fn shown_of(alloc: Global, text: &str) -> Result<String, AllocError> {
    let mut out = String::new(alloc);
    let Ok(tokens) = lex(alloc, text.as_bytes()) else {
        out.push_str("no tokens")?;
        return Ok(out);
    };
    if tokens.len() > 200_000 {
        return Ok(out);
    }
    match parse(alloc, tokens.as_slice()) {
        Ok(tree) => put_tree(&mut out, &tree)?,
        Err(ParseError::Syntax { token }) => write!(out, "syntax {token}")?,
        Err(ParseError::Depth { token }) => write!(out, "depth {token}")?,
        Err(ParseError::Memory) => write!(out, "memory")?,
    }
    Ok(out)
}

const ROWS: [(&str, &str); 53] = [
    // The last statement.
    ("", "syntax 0"),
    ("main()", "main 0 of 3"),
    ("main()\n", "main 0 of 3"),
    ("main( /* none */ );", "main 0 of 4"),
    ("main\n()", "syntax 1"),
    ("(main())", "syntax 0"),
    ("main(1)", "syntax 2"),
    ("main", "syntax 1"),
    ("main() main()", "syntax 3"),
    ("main();;", "syntax 4"),
    ("Main()", "syntax 0"),
    ("func f() { }", "syntax 6"),
    ("func f() { }\nmain()", "func f() {0}; main 13 of 9"),
    ("func f() { };main()", "func f() {0}; main 13 of 10"),
    ("func f() { } main()", "syntax 6"),
    // Structs and their members.
    ("struct P { }\nmain()", "struct P { }; main 13 of 7"),
    (
        "struct P { let x: Int; var y: P }\nmain()",
        "struct P { let x: Int; var y: P; }; main 34 of 16",
    ),
    (
        "struct F: ~Copyable {\n let fd\n : Int\n init(_ n: Int, to m: inout Int) { fd = n; m = n }\n}\nmain()",
        "struct F: ~Copyable { let fd: Int; init(_ n: Int, to m: inout Int) {2}; }; main 90 of 36",
    ),
    (
        "struct F { deinit { f() }\n consuming func c() -> F { return self }; borrowing func b() { }\n func a() { }\n}\nmain()",
        "struct F { deinit {1}; consuming func c() -> F {1}; borrowing func b() {0}; func a() {0}; }; main 107 of 38",
    ),
    ("struct P { let x: Int let y: Int }\nmain()", "syntax 7"),
    ("struct P { let x Int }\nmain()", "syntax 5"),
    ("struct P { let _: Int }\nmain()", "syntax 4"),
    ("struct P { case a }\nmain()", "syntax 3"),
    ("struct P { inout func f() { } }\nmain()", "syntax 3"),
    ("struct P { let x: Int", "syntax 7"),
    ("struct P: Copyable { }\nmain()", "syntax 3"),
    ("struct P: ~Other { }\nmain()", "syntax 4"),
    // Enums and their members.
    (
        "enum E: ~Copyable { case a\n, b(Int, File); case c\n deinit { }\n mutating func m() { } }\nmain()",
        "enum E: ~Copyable { case a, b(Int, File); case c; deinit {0}; mutating func m() {0}; }; main 87 of 32",
    ),
    ("enum E { case a() }\nmain()", "syntax 6"),
    ("enum E { case a, }\nmain()", "syntax 6"),
    ("enum E { case a(Int, ) }\nmain()", "syntax 8"),
    ("enum E { case a(Int }\nmain()", "syntax 7"),
    ("enum E { case a case b }\nmain()", "syntax 5"),
    ("enum E { let x: Int }\nmain()", "syntax 3"),
    ("enum E { init() { } }\nmain()", "syntax 3"),
    // Functions, their parameters and results.
    (
        "func f()\n-> Int { let x = 1; return x }\nmain()",
        "func f() -> Int {2}; main 40 of 18",
    ),
    (
        "func f() -> ( ) { }\nmain()",
        "func f() -> () {0}; main 20 of 12",
    ),
    ("func f() -> (Int) { }\nmain()", "syntax 6"),
    (
        "func f(_ x: consuming File, y: borrowing File, at z: Int) { }\nmain()",
        "func f(_ x: consuming File, y: borrowing File, at z: Int) {0}; main 62 of 24",
    ),
    (
        "func f(g: (Int, inout File) -> Int, _ h: () -> ()) { }\nmain()",
        "func f(g: (Int, inout File) -> Int, _ h: () -> ()) {0}; main 55 of 28",
    ),
    ("func f(g: ((Int) -> Int) -> Int) { }\nmain()", "syntax 6"),
    ("func f(g: (x: Int) -> Int) { }\nmain()", "syntax 7"),
    ("func f(g: (Int)) { }\nmain()", "syntax 8"),
    ("func f(x) { }\nmain()", "syntax 4"),
    ("func f(x: Int,) { }\nmain()", "syntax 7"),
    ("func f(_: Int) { }\nmain()", "syntax 4"),
    ("func f(a b c: Int) { }\nmain()", "syntax 5"),
    ("func f() { x = }\nmain()", "syntax 7"),
    // Words are no names.
    ("func let() { }\nmain()", "syntax 1"),
    ("func f(init: Int) { }\nmain()", "syntax 3"),
    ("func f(x copy: Int) { }\nmain()", "syntax 4"),
    ("enum E { case self }\nmain()", "syntax 4"),
    ("struct P { let x: Self }\nmain()", "syntax 6"),
];

#[test]
fn trees_of_small_texts(rt: HostRuntime) -> Result<(), Fail> {
    let mut wrong = String::new(rt.alloc());
    for (text, want) in &ROWS {
        let shown = shown_of(rt.alloc(), text)?;
        if shown.as_str() != *want {
            write!(wrong, "{text} => {shown}\n")?;
        }
    }
    assert_eq!(rt; wrong.as_str(), "");
    Ok(())
}

fn put_often(out: &mut String, piece: &str, times: u32) -> Result<(), AllocError> {
    for _ in 0..times {
        out.push_str(piece)?;
    }
    Ok(())
}

/// A method whose body nests so many conditions, and a statement inside.
#[test]
fn nesting_is_that_of_bodies(rt: HostRuntime) -> Result<(), Fail> {
    for (times, inner, want) in [
        (49, "return", "struct P { func f() {1}; }; main 474 of 210"),
        (49, "x", "depth 155"),
    ] {
        let mut text = String::new(rt.alloc());
        text.push_str("struct P { func f() { ")?;
        put_often(&mut text, "if a { ", times)?;
        text.push_str(inner)?;
        put_often(&mut text, " }", times)?;
        text.push_str(" } }\nmain()")?;
        let shown = shown_of(rt.alloc(), text.as_str())?;
        assert_eq!(rt; shown.as_str(), want);
    }
    Ok(())
}
