//! Worked examples, and that each call can succeed.
use crate::{
    DiskFiles, Failed, FetchFault, Files, MemFiles, MemSink, Sink, StdSink, append_all, fetch_all,
    put_all,
};
use std::alloc::{AllocError, Global};
use std::fs;
use std::test::Fail;

fn mem_files(alloc: Global, fail: &[u64]) -> Result<MemFiles, AllocError> {
    Ok(MemFiles::new(alloc, Vec::from_slice(alloc, fail)?))
}

// Two blocks, each as one piece.
fn put_blocks<O: Sink>(out: &mut O) -> Result<(), Failed> {
    put_all(out, b"Sol: 0 0\n")?;
    put_all(out, b"Sol: 0 1\n")?;
    put_all(out, b"")?;
    out.flush()
}

#[test]
fn a_failing_sink_keeps_what_was_written(rt: HostRuntime) -> Result<(), Fail> {
    for (failing, succeeds, written) in [
        (1, false, ""),
        (2, false, "Sol: 0 0\n"),
        (3, false, "Sol: 0 0\nSol: 0 1\n"),
        (4, true, "Sol: 0 0\nSol: 0 1\n"),
    ] {
        let mut sink = MemSink::new(rt.alloc(), Vec::from_slice(rt.alloc(), &[failing])?);
        assert_eq!(rt; put_blocks(&mut sink).is_ok(), succeeds, "at {failing}");
        assert_eq!(rt; sink.written(), written.as_bytes(), "at {failing}");
        assert_eq!(rt; sink.lacked(), 0);
    }
    Ok(())
}

// So many bytes, of which each hundredth ends a line.
fn lines(alloc: Global, size: u32) -> Result<Vec<u8>, AllocError> {
    let mut bytes = Vec::new(alloc);
    for i in 0..size {
        bytes.push(if i % 100 == 99 { b'\n' } else { b'a' })?;
    }
    Ok(bytes)
}

#[test]
fn a_file_is_fetched_up_to_its_limit(rt: HostRuntime) -> Result<(), Fail> {
    for (size, limit, want) in [
        (0u32, 0u32, Ok(())),
        (1, 0, Err(FetchFault::TooLong(0))),
        (250, 250, Ok(())),
        (250, 249, Err(FetchFault::TooLong(2))),
        (250, 200, Err(FetchFault::TooLong(2))),
        (250, 199, Err(FetchFault::TooLong(1))),
        (65536, 65536, Ok(())),
        (65537, 65536, Err(FetchFault::TooLong(655))),
        (65537, 65537, Ok(())),
        (140000, 131100, Err(FetchFault::TooLong(1311))),
        (140000, 200000, Ok(())),
    ] {
        let bytes = lines(rt.alloc(), size)?;
        let mut files = mem_files(rt.alloc(), &[])?;
        files.put("model", &bytes)?;
        match fetch_all(rt.alloc(), &mut files, "model", u64::from(limit)) {
            Ok(fetched) => {
                assert_eq!(rt; want, Ok(()), "{size} within {limit}");
                assert!(rt; fetched == bytes, "{size} within {limit}");
            }
            Err(fault) => assert_eq!(rt; want, Err(fault), "{size} within {limit}"),
        }
    }
    Ok(())
}

#[test]
fn a_failing_fetch_is_told(rt: HostRuntime) -> Result<(), Fail> {
    let bytes = lines(rt.alloc(), 70000)?;
    for (failing, name, succeeds) in [
        (1, "model", false),
        (2, "model", false),
        (3, "model", false),
        (4, "model", true),
        (4, "absent", false),
    ] {
        let mut files = mem_files(rt.alloc(), &[failing])?;
        files.put("model", &bytes)?;
        match fetch_all(rt.alloc(), &mut files, name, 100000) {
            Ok(fetched) => assert!(rt; succeeds && fetched == bytes, "{name} at {failing}"),
            Err(fault) => assert!(rt;
                !succeeds && fault == FetchFault::Failed,
                "{name} at {failing}"
            ),
        }
        assert_eq!(rt; files.lacked(), 0);
    }
    Ok(())
}

fn replace<F: Files>(files: &mut F, name: &str) -> Result<(), Failed> {
    files.create(name)?;
    append_all(files, name, b"new ")?;
    append_all(files, name, b"text")
}

fn holds(files: &MemFiles, name: &str, text: &str) -> bool {
    match files.content(name) {
        Some(bytes) => bytes == text.as_bytes(),
        None => false,
    }
}

#[test]
fn a_failing_change_changes_nothing(rt: HostRuntime) -> Result<(), Fail> {
    for (failing, succeeds, held) in [
        (1, false, "old"),
        (2, false, ""),
        (3, false, "new "),
        (4, true, "new text"),
    ] {
        let mut files = mem_files(rt.alloc(), &[failing])?;
        files.put("a", b"old")?;
        files.put("b", b"other")?;
        assert_eq!(rt; replace(&mut files, "a").is_ok(), succeeds, "at {failing}");
        assert!(rt; holds(&files, "a", held), "at {failing}");
        assert!(rt; holds(&files, "b", "other"), "at {failing}");
        assert!(rt; !holds(&files, "c", ""), "at {failing}");
    }
    Ok(())
}

#[test]
fn the_disk_keeps_what_was_appended(rt: HostRuntime) -> Result<(), Fail> {
    let name = "mn_outside_disk_test.txt";
    let mut files = DiskFiles::new(rt);
    assert!(rt; replace(&mut files, name).is_ok());
    let fetched = fetch_all(rt.alloc(), &mut files, name, 8)?;
    assert_eq!(rt; fetched.as_slice(), b"new text".as_slice());
    let longer = fetch_all(rt.alloc(), &mut files, name, 7);
    assert!(rt; longer.is_err_and(|fault| fault == FetchFault::TooLong(0)));
    fs::remove_file(&rt, name)?;
    for absent in [name, "."] {
        let fault = fetch_all(rt.alloc(), &mut files, absent, 8);
        assert!(rt;
            fault.is_err_and(|fault| fault == FetchFault::Failed),
            "{absent}"
        );
    }
    Ok(())
}

#[test]
fn standard_output_takes_a_piece(rt: HostRuntime) {
    assert!(rt; put_blocks(&mut StdSink::new(rt)).is_ok());
}
