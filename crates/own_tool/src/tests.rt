//! The top call over memory: what is answered, and every byte that the two sinks get.

use crate::swiftown;
use own_io::{MemoryFolder, MemorySink};
use own_tree::limits::MOST_TEXT_BYTES;
use own_tree::{Row, Status};
use std::alloc::AllocError;
use std::process::Abort;
use std::test::Fail;

/// A call: what the folder holds under the second word, if anything, the words, and what is wanted.
#[derive(Clone, Copy)]
struct Case {
    text: Option<&'static [u8]>,
    words: &'static [&'static str],
    status: Status,
    out: &'static str,
    err: &'static str,
}

/// The calls of the folder and of the two sinks that fail, counted from 1.
#[derive(Clone, Copy)]
struct Faults {
    folder: u64,
    out: u64,
    err: u64,
}

const NONE: Faults = Faults {
    folder: 0,
    out: 0,
    err: 0,
};

const RUN: &[&str] = &["run", "a.swift"];

fn answers<R: Abort + Alloc<A = std::alloc::Global>>(
    rt: &R,
    case: &Case,
    faults: Faults,
) -> Result<(), Fail> {
    let alloc = rt.alloc();
    let mut folder = MemoryFolder::new(alloc, Row::from_slice(alloc, &[faults.folder])?);
    if let (Some(text), [_, file, ..]) = (case.text, case.words) {
        folder.put(file, text)?;
    }
    answers_in(rt, case, &mut folder, faults)
}

/// The same with what a folder holds.
fn answers_in<R: Abort + Alloc<A = std::alloc::Global>>(
    rt: &R,
    case: &Case,
    folder: &mut MemoryFolder,
    faults: Faults,
) -> Result<(), Fail> {
    let alloc = rt.alloc();
    let mut words = Vec::new(alloc);
    for word in case.words {
        words.push(String::from_str(alloc, word)?)?;
    }
    let mut out = MemorySink::new(alloc, 4096, Row::from_slice(alloc, &[faults.out])?)?;
    let mut err = MemorySink::new(alloc, 4096, Row::from_slice(alloc, &[faults.err])?)?;
    let status = swiftown(alloc, words.as_slice(), folder, &mut out, &mut err);
    assert_eq!(rt; status, case.status);
    assert_eq!(rt; out.written(), case.out.as_bytes());
    assert_eq!(rt; err.written(), case.err.as_bytes());
    Ok(())
}

#[test]
fn each_status_has_its_texts(rt: HostRuntime) -> Result<(), Fail> {
    let cases = [
        Case {
            text: Some(b"func main() { print(40 + 2) }\nmain()\n"),
            words: RUN,
            status: Status::Done,
            out: "42\n",
            err: "",
        },
        Case {
            text: Some(
                b"func main() {\n  let a = 1 + 2\n  print(a)\n  let b = a + a\n  print(b + 9223372036854775807)\n}\nmain()",
            ),
            words: RUN,
            status: Status::Trapped,
            out: "3\n",
            err: "a.swift:5:11: trap 1: arithmetic overflow\n",
        },
        Case {
            text: Some(b"func main() { print(9223372036854775807 + 1) }\nmain()\n"),
            words: RUN,
            status: Status::Trapped,
            out: "",
            err: "a.swift:1:41: trap 1: arithmetic overflow\n",
        },
        Case {
            text: Some(b""),
            words: RUN,
            status: Status::Refused,
            out: "",
            err: "a.swift:1:1: error[S1]: syntax\n",
        },
        Case {
            text: None,
            words: RUN,
            status: Status::ReadFault,
            out: "",
            err: "cannot read a.swift\n",
        },
        Case {
            text: None,
            words: &[],
            status: Status::Usage,
            out: "",
            err: "usage: swiftown COMMAND ARGUMENTS\n",
        },
        Case {
            text: None,
            words: &["run", "-a.swift"],
            status: Status::Usage,
            out: "",
            err: "usage: swiftown COMMAND ARGUMENTS\n",
        },
        Case {
            text: None,
            words: &["run", "-"],
            status: Status::ReadFault,
            out: "",
            err: "cannot read -\n",
        },
    ];
    for case in &cases {
        answers(&rt, case, NONE)?;
    }
    Ok(())
}

const CHECK: &[&str] = &["check", "a.swift"];

#[test]
fn check_accepts_a_text_or_says_why_not(rt: HostRuntime) -> Result<(), Fail> {
    let cases = [
        Case {
            text: Some(
                b"struct A: ~Copyable {\n  var n: Int\n  deinit { print(\"end\", n) }\n}\nfunc take(_ a: consuming A) {}\nfunc main() {\n  let x = A(n: readInt())\n  take(x)\n}\nmain()\n",
            ),
            words: CHECK,
            status: Status::Done,
            out: "accepted\n",
            err: "",
        },
        Case {
            text: Some(
                b"struct A: ~Copyable {\n  var n: Int\n  deinit { print(\"end\", n) }\n}\nfunc take(_ a: consuming A) {}\nfunc main() {\n  let x = A(n: 1)\n  take(x)\n  take(x)\n  print(x.n)\n}\nmain()\n",
            ),
            words: CHECK,
            status: Status::Refused,
            out: "",
            err: "a.swift:9:8: error[O1]: 'x' is used after it was consumed at 8:8\na.swift:10:9: error[O1]: 'x.n' is used after it was consumed at 9:8\n",
        },
        Case {
            text: Some(b"func main() {\n  print(y)\n}\nmain()\n"),
            words: CHECK,
            status: Status::Refused,
            out: "",
            err: "a.swift:2:9: error[T10]: unknown name\n",
        },
        Case {
            text: Some(b""),
            words: CHECK,
            status: Status::Refused,
            out: "",
            err: "a.swift:1:1: error[S1]: syntax\n",
        },
        Case {
            text: None,
            words: CHECK,
            status: Status::ReadFault,
            out: "",
            err: "cannot read a.swift\n",
        },
    ];
    for case in &cases {
        answers(&rt, case, NONE)?;
    }
    Ok(())
}

/// Each call of the folder and of the two sinks that `check` makes, failing in turn.
#[test]
fn faults_of_check_are_told(rt: HostRuntime) -> Result<(), Fail> {
    let accepted = Case {
        text: Some(b"func main() {}\nmain()\n"),
        words: CHECK,
        status: Status::Done,
        out: "accepted\n",
        err: "",
    };
    let refused = Case {
        text: Some(b"func main() {"),
        words: CHECK,
        status: Status::Refused,
        out: "",
        err: "a.swift:1:14: error[S1]: syntax\n",
    };
    let unread = Case {
        status: Status::ReadFault,
        out: "",
        err: "cannot read a.swift\n",
        ..accepted
    };
    let unwritten = Case {
        status: Status::WriteFault,
        out: "",
        err: "",
        ..accepted
    };
    let unsaid = Case {
        text: refused.text,
        ..unwritten
    };
    answers(&rt, &unread, Faults { folder: 1, ..NONE })?;
    answers(&rt, &unwritten, Faults { out: 1, ..NONE })?;
    answers(
        &rt,
        &accepted,
        Faults {
            folder: 2,
            out: 2,
            err: 1,
        },
    )?;
    answers(&rt, &unsaid, Faults { err: 1, ..NONE })?;
    answers(
        &rt,
        &refused,
        Faults {
            folder: 2,
            out: 1,
            err: 2,
        },
    )
}

/// What `run` answers to a text with these words behind its file.
fn runs(
    text: &'static [u8],
    words: &'static [&'static str],
    status: Status,
    out: &'static str,
    err: &'static str,
) -> Case {
    Case {
        text: Some(text),
        words,
        status,
        out,
        err,
    }
}

const DIVIDING: &[u8] = b"func main() {\n  let n = readInt()\n  print(6 / n)\n}\nmain()\n";

const CALLING: &[u8] = b"func f() { f() }\nfunc main() { f() }\nmain()\n";

const COUNTING: &[u8] =
    b"func main() {\n  let n = readInt()\n  for i in 1...n { print(i) }\n}\nmain()\n";

/// A value is passed on where its first number is above 0, and each has ended once at the end.
const PASSING: &[u8] =
    b"struct A: ~Copyable {\n  let n: Int\n  deinit { print(\"end\", n) }\n}\nfunc take(_ a: consuming A) { print(\"take\", a.n) }\nfunc main() {\n  let x = A(n: readInt())\n  if readInt() > 0 { take(x) }\n  print(\"done\")\n}\nmain()\n";

#[test]
fn run_takes_input_and_steps(rt: HostRuntime) -> Result<(), Fail> {
    let cases = [
        runs(
            DIVIDING,
            &["run", "a.swift", "--", "-3"],
            Status::Done,
            "-2\n",
            "",
        ),
        runs(
            DIVIDING,
            RUN,
            Status::Trapped,
            "",
            "a.swift:3:11: trap 2: division by zero\n",
        ),
        runs(
            COUNTING,
            &["run", "a.swift", "2"],
            Status::Done,
            "1\n2\n",
            "",
        ),
        runs(
            COUNTING,
            &["run", "a.swift", "--", "-1"],
            Status::Trapped,
            "",
            "a.swift:3:13: trap 4: range ends before it begins\n",
        ),
        runs(
            COUNTING,
            &["run", "a.swift", "2", "--steps=0"],
            Status::OutOfSteps,
            "",
            "out of steps\n",
        ),
    ];
    for case in &cases {
        answers(&rt, case, NONE)?;
    }
    Ok(())
}

#[test]
fn a_call_too_deep_is_a_trap_without_a_place(rt: HostRuntime) -> Result<(), Fail> {
    let case = runs(
        CALLING,
        RUN,
        Status::Trapped,
        "",
        "a.swift: trap 3: too many levels\n",
    );
    answers(&rt, &case, NONE)
}

#[test]
fn a_value_that_is_passed_on_ends_once(rt: HostRuntime) -> Result<(), Fail> {
    let cases = [
        runs(
            PASSING,
            &["run", "a.swift", "7", "1"],
            Status::Done,
            "take 7\nend 7\ndone\n",
            "",
        ),
        runs(
            PASSING,
            &["run", "a.swift", "7", "0"],
            Status::Done,
            "done\nend 7\n",
            "",
        ),
        runs(
            PASSING,
            &["run", "a.swift", "--trace", "7", "0"],
            Status::Done,
            "made A #1\ndone\nend 7\nended A #1 by deinit\n",
            "",
        ),
    ];
    for case in &cases {
        answers(&rt, case, NONE)?;
    }
    Ok(())
}

const BUILD: &[&str] = &["build", "a.swift", "-o", "m.wasm"];

const SAVE: &[&str] = &["run", "a.swift", "-o", "m.wasm", "2"];

/// What is saved under a name runs as the text does, and stays where a text is refused.
#[test]
fn modules_are_saved_and_run(rt: HostRuntime) -> Result<(), Fail> {
    let alloc = rt.alloc();
    let mut folder = MemoryFolder::new(alloc, Row::new(alloc));
    folder.put("a.swift", COUNTING)?;
    folder.put("b.swift", b"func main() {")?;
    let executed = Case {
        text: None,
        words: &["exec", "m.wasm", "3"],
        status: Status::Done,
        out: "1\n2\n3\n",
        err: "",
    };
    let cases = [
        runs(COUNTING, BUILD, Status::Done, "flags 0\n", ""),
        executed,
        runs(COUNTING, SAVE, Status::Done, "1\n2\n", ""),
        executed,
        runs(
            b"",
            &["build", "b.swift", "-o", "m.wasm"],
            Status::Refused,
            "",
            "b.swift:1:14: error[S1]: syntax\n",
        ),
        executed,
    ];
    for case in &cases {
        answers_in(&rt, case, &mut folder, NONE)?;
    }
    Ok(())
}

/// Each call of the folder and of the two sinks that `build` and `run` make, failing in turn.
#[test]
fn faults_of_build_and_run_are_told(rt: HostRuntime) -> Result<(), Fail> {
    let cases = [
        (
            runs(
                COUNTING,
                BUILD,
                Status::ReadFault,
                "",
                "cannot read a.swift\n",
            ),
            Faults { folder: 1, ..NONE },
        ),
        (
            runs(COUNTING, BUILD, Status::WriteFault, "", ""),
            Faults { folder: 2, ..NONE },
        ),
        (
            runs(COUNTING, BUILD, Status::WriteFault, "", ""),
            Faults { out: 1, ..NONE },
        ),
        (
            runs(COUNTING, SAVE, Status::WriteFault, "", ""),
            Faults { folder: 2, ..NONE },
        ),
        (
            runs(COUNTING, SAVE, Status::WriteFault, "", ""),
            Faults { out: 1, ..NONE },
        ),
        (
            runs(DIVIDING, RUN, Status::WriteFault, "", ""),
            Faults { err: 1, ..NONE },
        ),
        (
            runs(b"", BUILD, Status::WriteFault, "", ""),
            Faults { err: 1, ..NONE },
        ),
    ];
    for (case, faults) in &cases {
        answers(&rt, case, *faults)?;
    }
    Ok(())
}

#[test]
fn each_use_of_a_consumed_name_is_named(rt: HostRuntime) -> Result<(), Fail> {
    let cases = [
        Case {
            text: Some(
                b"struct A: ~Copyable {\n  let n: Int\n  deinit { print(\"end\", n) }\n}\nfunc main() {\n  let x = A(n: 1)\n  let y = x\n  print(x.n)\n  let z = A(n: 2)\n}\nmain()\n",
            ),
            words: RUN,
            status: Status::Refused,
            out: "",
            err: "a.swift:8:9: error[O1]: 'x.n' is used after it was consumed at 7:11\n",
        },
        Case {
            text: Some(
                b"struct A: ~Copyable {\n  let n: Int\n  deinit { print(\"end\", n) }\n}\nfunc main() {\n  let x = A(n: 1)\n  _ = consume x\n  _ = consume x\n  print(x.n)\n}\nmain()\n",
            ),
            words: RUN,
            status: Status::Refused,
            out: "",
            err: "a.swift:8:15: error[O1]: 'x' is used after it was consumed at 7:15\na.swift:9:9: error[O1]: 'x.n' is used after it was consumed at 8:15\n",
        },
        Case {
            text: Some(
                b"struct A: ~Copyable {\n  let n: Int\n  deinit { print(\"end\", n) }\n}\nfunc main() {\n  let x = A(n: 1)\n  let y = x\n  let z = x\n}\nmain()\n",
            ),
            words: RUN,
            status: Status::Refused,
            out: "",
            err: "a.swift:8:11: error[O1]: 'x' is used after it was consumed at 7:11\n",
        },
    ];
    for case in &cases {
        answers(&rt, case, NONE)?;
    }
    Ok(())
}

#[test]
fn each_value_is_destroyed_once(rt: HostRuntime) -> Result<(), Fail> {
    let cases = [
        Case {
            text: Some(
                b"struct A: ~Copyable {\n  let n: Int\n  deinit { print(\"end\", n) }\n}\nfunc main() {\n  let x = A(n: 1)\n  let y = x\n  let z = A(n: 2)\n}\nmain()\n",
            ),
            words: RUN,
            status: Status::Done,
            out: "end 2\nend 1\n",
            err: "",
        },
        Case {
            text: Some(
                b"struct A: ~Copyable {\n  let n: Int\n  deinit { print(\"end\", n) }\n}\nstruct B: ~Copyable {\n  let n: Int\n  deinit { print(\"bye\", n) }\n}\nfunc main() {\n  let a = 3\n  let b = a\n  let x = A(n: a + b)\n  _ = consume x\n  print(b)\n}\nmain()\n",
            ),
            words: RUN,
            status: Status::Done,
            out: "end 6\n3\n",
            err: "",
        },
        Case {
            text: Some(
                b"struct A: ~Copyable {\n  let n: Int\n  deinit { print(\"end\", n) }\n}\nfunc main() {\n  let x = A(n: 1)\n  print(x.n)\n  print(9223372036854775807 + x.n)\n}\nmain()\n",
            ),
            words: RUN,
            status: Status::Trapped,
            out: "1\n",
            err: "a.swift:8:29: trap 1: arithmetic overflow\n",
        },
    ];
    for case in &cases {
        answers(&rt, case, NONE)?;
    }
    Ok(())
}

#[test]
fn faults_of_the_outside_are_told(rt: HostRuntime) -> Result<(), Fail> {
    let text: Option<&[u8]> = Some(b"func main() { print(1)\nprint(2) }\nmain()");
    let unread = Case {
        text,
        words: RUN,
        status: Status::ReadFault,
        out: "",
        err: "cannot read a.swift\n",
    };
    answers(&rt, &unread, Faults { folder: 1, ..NONE })?;
    let unwritten = Case {
        text,
        words: RUN,
        status: Status::WriteFault,
        out: "",
        err: "",
    };
    answers(&rt, &unwritten, Faults { out: 1, ..NONE })?;
    let cut = Case {
        text,
        words: RUN,
        status: Status::WriteFault,
        out: "1",
        err: "",
    };
    answers(&rt, &cut, Faults { out: 2, ..NONE })
}

/// A text of so many bytes: a `main` that does nothing, and blanks in it.
fn blank_text(alloc: std::alloc::Global, size: usize) -> Result<Vec<u8>, AllocError> {
    let mut text = Vec::new(alloc);
    text.extend_from_slice(b"func main() {")?;
    for _ in 22..=size {
        text.push(b' ')?;
    }
    text.extend_from_slice(b"}\nmain()")?;
    Ok(text)
}

#[test]
fn a_text_has_at_most_1048576_bytes(rt: HostRuntime) -> Result<(), Fail> {
    let alloc = rt.alloc();
    let too_long = "a.swift: error[M1]: text bytes: more than 1048576\n";
    let cases = [
        ("run", MOST_TEXT_BYTES + 1, Status::Refused, "", too_long),
        ("check", MOST_TEXT_BYTES, Status::Done, "accepted\n", ""),
        ("check", MOST_TEXT_BYTES + 1, Status::Refused, "", too_long),
    ];
    for (command, size, status, written, said) in cases {
        let text = blank_text(alloc, size)?;
        assert_eq!(rt; text.len(), size);
        let mut folder = MemoryFolder::new(alloc, Row::new(alloc));
        folder.put("a.swift", text.as_slice())?;
        let words = vec![in alloc;
            String::from_str(alloc, command)?,
            String::from_str(alloc, "a.swift")?,
        ]?;
        let mut out = MemorySink::new(alloc, 64, Row::new(alloc))?;
        let mut err = MemorySink::new(alloc, 64, Row::new(alloc))?;
        let answer = swiftown(alloc, words.as_slice(), &mut folder, &mut out, &mut err);
        assert_eq!(rt; answer, status);
        assert_eq!(rt; err.written(), said.as_bytes());
        assert_eq!(rt; out.written(), written.as_bytes());
    }
    Ok(())
}

/// `main` does nothing.
const EMPTY: Option<&[u8]> = Some(
    b"\x00asm\x01\x00\x00\x00\x01\x04\x01`\x00\x00\x03\x02\x01\x00\x07\x08\x01\x04main\x00\x00\x0a\x04\x01\x02\x00\x0b",
);

/// `main` reads a number and writes it.
const ECHO: Option<&[u8]> = Some(
    b"\x00asm\x01\x00\x00\x00\x01\x0c\x03`\x00\x01~`\x01~\x00`\x00\x00\x02*\x02\x08swiftown\x08read_int\x00\x00\x08swiftown\x09write_int\x00\x01\x03\x02\x01\x02\x07\x08\x01\x04main\x00\x02\x0a\x08\x01\x06\x00\x10\x00\x10\x01\x0b",
);

/// `main` traps with the code 7 and the offset 9.
const TRAP: Option<&[u8]> = Some(
    b"\x00asm\x01\x00\x00\x00\x01\x09\x02`\x02\x7f\x7f\x00`\x00\x00\x02\x11\x01\x08swiftown\x04trap\x00\x00\x03\x02\x01\x01\x07\x08\x01\x04main\x00\x01\x0a\x0a\x01\x08\x00A\x07A\x09\x10\x00\x0b",
);

const EXEC: &[&str] = &["exec", "m.wasm"];

fn executes(
    text: Option<&'static [u8]>,
    words: &'static [&'static str],
    status: Status,
    out: &'static str,
    err: &'static str,
) -> Case {
    Case {
        text,
        words,
        status,
        out,
        err,
    }
}

#[test]
fn a_module_runs_on_its_steps_and_its_input(rt: HostRuntime) -> Result<(), Fail> {
    let cases = [
        executes(EMPTY, EXEC, Status::Done, "", ""),
        executes(
            EMPTY,
            &["exec", "m.wasm", "--steps", "1"],
            Status::Done,
            "",
            "",
        ),
        executes(
            EMPTY,
            &["exec", "m.wasm", "--steps=0"],
            Status::OutOfSteps,
            "",
            "out of steps\n",
        ),
        executes(ECHO, EXEC, Status::Done, "0", ""),
        executes(
            ECHO,
            &["exec", "m.wasm", "--", "-9223372036854775808", "5"],
            Status::Done,
            "-9223372036854775808",
            "",
        ),
        executes(
            ECHO,
            &["exec", "m.wasm", "9223372036854775807"],
            Status::Done,
            "9223372036854775807",
            "",
        ),
        executes(
            ECHO,
            &["exec", "m.wasm", "1", "--steps", "1"],
            Status::OutOfSteps,
            "",
            "out of steps\n",
        ),
        executes(TRAP, EXEC, Status::Trapped, "", "m.wasm: trap 7 at 9\n"),
        executes(None, EXEC, Status::ReadFault, "", "cannot read m.wasm\n"),
        executes(
            Some(b"\0asm"),
            EXEC,
            Status::BadModule,
            "",
            "m.wasm: bad module: not a module at 4\n",
        ),
        executes(
            Some(b"\0asm\x01\0\0\0"),
            EXEC,
            Status::BadModule,
            "",
            "m.wasm: bad module: no function main\n",
        ),
        executes(
            Some(b"\0asm\x01\0\0\0\x08\x01\x00"),
            EXEC,
            Status::BadModule,
            "",
            "m.wasm: bad module: outside the profile at 8: start\n",
        ),
        executes(
            Some(b"\0asm\x01\0\0\0\x01\x04\x91\x4e\x60\0"),
            EXEC,
            Status::BadModule,
            "",
            "m.wasm: bad module: limit: types\n",
        ),
    ];
    for case in &cases {
        answers(&rt, case, NONE)?;
    }
    Ok(())
}

/// `main` reads a number and writes it, twice.
const TWICE: Option<&[u8]> = Some(
    b"\x00asm\x01\x00\x00\x00\x01\x0c\x03`\x00\x01~`\x01~\x00`\x00\x00\x02*\x02\x08swiftown\x08read_int\x00\x00\x08swiftown\x09write_int\x00\x01\x03\x02\x01\x02\x07\x08\x01\x04main\x00\x02\x0a\x0c\x01\x0a\x00\x10\x00\x10\x01\x10\x00\x10\x01\x0b",
);

const TWO: &[&str] = &["exec", "m.wasm", "7", "8"];

const USAGE: &str = "usage: swiftown COMMAND ARGUMENTS\n";

/// Each call of the folder and of the two sinks that `exec` makes, failing in turn.
#[test]
fn faults_of_exec_are_told(rt: HostRuntime) -> Result<(), Fail> {
    let cases = [
        (
            executes(TWICE, TWO, Status::ReadFault, "", "cannot read m.wasm\n"),
            Faults { folder: 1, ..NONE },
        ),
        (
            executes(TWICE, TWO, Status::WriteFault, "", ""),
            Faults { out: 1, ..NONE },
        ),
        (
            executes(TWICE, TWO, Status::WriteFault, "7", ""),
            Faults { out: 2, ..NONE },
        ),
        (
            executes(TWICE, TWO, Status::Done, "78", ""),
            Faults {
                folder: 2,
                out: 3,
                err: 1,
            },
        ),
        (
            executes(TRAP, EXEC, Status::WriteFault, "", ""),
            Faults { err: 1, ..NONE },
        ),
        (
            executes(TRAP, EXEC, Status::Trapped, "", "m.wasm: trap 7 at 9\n"),
            Faults { err: 2, ..NONE },
        ),
        (
            executes(Some(b""), EXEC, Status::WriteFault, "", ""),
            Faults { err: 1, ..NONE },
        ),
        (
            executes(None, EXEC, Status::WriteFault, "", ""),
            Faults { err: 1, ..NONE },
        ),
    ];
    for (case, faults) in &cases {
        answers(&rt, case, *faults)?;
    }
    Ok(())
}

/// Where nothing is served, the folder and the output are not called.
#[test]
fn other_words_are_answered_by_the_usage(rt: HostRuntime) -> Result<(), Fail> {
    let all = Faults {
        folder: 1,
        out: 1,
        err: 0,
    };
    let words: [&'static [&'static str]; 6] = [
        &["exec"],
        &["exec", "m.wasm", "--step", "1"],
        &["exec", "m.wasm", "-1"],
        &["build", "m.wasm"],
        &["run", "m.wasm", "--steps", "-1"],
        &["selftest", "1", "1"],
    ];
    for words in words {
        answers(&rt, &executes(None, words, Status::Usage, "", USAGE), all)?;
    }
    Ok(())
}
