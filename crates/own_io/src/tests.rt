use crate::{
    CountSink, DiskFolder, Folder, LoadError, MemoryFolder, MemorySink, SaveError, SendFailed,
    Sink, StdSink, send,
};
use own_tree::Row;
use std::fs;
use std::test::Fail;

#[test]
fn sinks_take_what_there_is_room_for(rt: HostRuntime) -> Result<(), Fail> {
    // The room, the number of the write that fails, the answer and what was written.
    let rows: [(usize, u64, Result<(), SendFailed>, &[u8]); 5] = [
        (9, 0, Ok(()), b"a\nb\n"),
        (4, 2, Ok(()), b"a\nb\n"),
        (3, 0, Err(SendFailed { written: 3 }), b"a\nb"),
        (0, 0, Err(SendFailed { written: 0 }), b""),
        (9, 1, Err(SendFailed { written: 0 }), b""),
    ];
    for (most, failing, want, written) in rows {
        let failing = Row::from_slice(rt.alloc(), &[failing])?;
        let mut sink = MemorySink::new(rt.alloc(), most, failing)?;
        assert_eq!(rt; send(&mut sink, b"a\nb\n"), want);
        assert_eq!(rt; sink.written(), written);
    }
    Ok(())
}

#[test]
fn writes_are_counted_from_one(rt: HostRuntime) -> Result<(), Fail> {
    let failing = Row::from_slice(rt.alloc(), &[2])?;
    let mut sink = MemorySink::new(rt.alloc(), 3, failing)?;
    let rows: [(&[u8], Option<usize>); 4] = [
        (b"a", Some(1)),
        (b"b", None),
        (b"cde", Some(2)),
        (b"f", None),
    ];
    for (piece, want) in rows {
        if !piece.is_empty() {
            assert_eq!(rt; sink.write(piece).ok(), want);
        }
    }
    assert_eq!(rt; sink.written(), b"acd".as_slice());
    Ok(())
}

#[test]
fn a_count_is_of_bytes_and_lines(rt: HostRuntime) {
    let mut sink = CountSink::new();
    assert!(rt; send(&mut sink, b"a\nb\n").is_ok());
    assert_eq!(rt; (sink.bytes(), sink.lines()), (4, 2));
}

#[test]
fn a_folder_loads_what_is_asked(rt: HostRuntime) -> Result<(), Fail> {
    let failing = Row::from_slice(rt.alloc(), &[1, 4])?;
    let mut folder = MemoryFolder::new(rt.alloc(), failing);
    folder.put("a", b"two")?;
    // A call that fails, the most bytes, one more, another call that fails, a name that is missing.
    let rows = [
        ("a", 9, Some(LoadError::Failed)),
        ("a", 3, None),
        ("a", 2, Some(LoadError::TooLong { taken: 3 })),
        ("a", 9, Some(LoadError::Failed)),
        ("b", 9, Some(LoadError::Failed)),
    ];
    for (name, most, want) in rows {
        assert_eq!(rt; folder.load(name, most).err(), want);
    }
    Ok(())
}

#[test]
fn a_folder_holds_what_was_saved(rt: HostRuntime) -> Result<(), Fail> {
    let failing = Row::from_slice(rt.alloc(), &[2])?;
    let mut folder = MemoryFolder::new(rt.alloc(), failing);
    let rows: [(&[u8], Option<SaveError>); 2] = [(b"one", None), (b"two", Some(SaveError::Failed))];
    for (bytes, want) in rows {
        assert_eq!(rt; folder.save("a", bytes).err(), want);
    }
    assert_eq!(rt; folder.held("a"), Some(b"one".as_slice()));
    assert_eq!(rt; folder.held("b"), None);
    Ok(())
}

#[test]
fn files_of_the_machine(rt: HostRuntime) -> Result<(), Fail> {
    let mut folder = DiskFolder::new(&rt, rt.alloc());
    assert_eq!(rt; folder.save("own_io.tmp", b"three").err(), None);
    let rows = [
        ("missing.tmp", 9, Some(LoadError::Failed)),
        ("own_io.tmp", 5, None),
        ("own_io.tmp", 3, Some(LoadError::TooLong { taken: 4 })),
    ];
    for (name, most, want) in rows {
        assert_eq!(rt; folder.load(name, most).err(), want);
    }
    fs::remove_file(&rt, "own_io.tmp")?;
    Ok(())
}

#[test]
fn streams_of_the_machine(rt: HostRuntime) {
    assert!(rt; send(&mut StdSink::out(&rt), b"out\n").is_ok());
    assert!(rt; send(&mut StdSink::err(&rt), b"err\n").is_ok());
}
