//! Tests of what no clause says of the devices: how lines are cut into pieces, and that memory suffices.

use super::*;
use std::alloc::{AllocError, Global};
use std::test::Fail;

/// A text whose neighbouring bytes differ.
fn text_of(alloc: Global, length: usize) -> Result<Vec<u8>, AllocError> {
    let mut text = Vec::new(alloc);
    for at in 0..length {
        text.push((at % 251) as u8)?;
    }
    Ok(text)
}

fn print_by_parts(text: &[u8], line: &mut LineBuf, out: &mut MemSink) -> Result<(), SinkFault> {
    for part in text.chunks(1000) {
        line.add(part, out)?;
    }
    line.finish(out)
}

// The length of a line, the put that fails, and how many bytes are written; no put fails in the last row of each length.
static LINES: [(usize, u32, usize); 12] = [
    (4095, 0, 2048),
    (4095, 1, 4096),
    (4096, 0, 2048),
    (4096, 1, 4096),
    (4096, 2, 4097),
    (4097, 0, 2048),
    (4097, 1, 4097),
    (4097, 2, 4098),
    (9000, 0, 2048),
    (9000, 1, 6144),
    (9000, 2, 8596),
    (9000, 3, 9001),
];

#[test]
fn a_long_line_is_put_in_pieces_and_is_lost_after_a_failed_put(
    rt: HostRuntime,
) -> Result<(), Fail> {
    for &(length, failing, size) in &LINES {
        let mut text = text_of(rt.alloc(), length)?;
        let mut out = MemSink::new(rt.alloc(), 10_000, vec![in rt.alloc(); failing]?)?;
        let mut line = LineBuf::new();
        let printed = print_by_parts(text.as_slice(), &mut line, &mut out);
        text.push(b'\n')?;
        assert_eq!(rt;
            printed.is_ok(),
            size == text.len(),
            "at {length}, {failing}"
        );
        text.truncate(size);
        assert_eq!(rt; out.written(), text.as_slice(), "at {length}, {failing}");

        let mut next = MemSink::new(rt.alloc(), 10, Vec::new(rt.alloc()))?;
        print_by_parts(b"next", &mut line, &mut next)?;
        assert_eq!(rt;
            next.written(),
            b"next\n".as_slice(),
            "at {length}, {failing}"
        );
    }
    Ok(())
}

#[test]
fn each_line_is_one_put(rt: HostRuntime) -> Result<(), Fail> {
    let mut out = MemSink::new(rt.alloc(), 100, vec![in rt.alloc(); 1]?)?;
    print_line(&[b"vssplan report ", b"1"], &mut out)?;
    assert_eq!(rt;
        print_line(&[b"verdict ", b"done"], &mut out),
        Err(SinkFault::Failed)
    );
    assert_eq!(rt; out.written(), b"vssplan report 1\nverdic".as_slice());
    Ok(())
}

#[test]
fn a_shelf_fails_at_listed_readings_and_missing_names(rt: HostRuntime) -> Result<(), Fail> {
    let name = String::from_str(rt.alloc(), "net")?;
    let bytes = Vec::from_slice(rt.alloc(), b"abc")?;
    let mut shelf = MemShelf::new(
        rt.alloc(),
        vec![in rt.alloc(); (name, bytes)]?,
        vec![in rt.alloc(); 1, 4]?,
    );
    let abc = Vec::from_slice(rt.alloc(), b"abc")?;
    assert_eq!(rt; shelf.read_file("net", 3), Ok(abc));
    assert_eq!(rt; shelf.read_file("net", 3), Err(ShelfFault::Failed));
    assert_eq!(rt; shelf.read_file("ne", 3), Err(ShelfFault::Failed));
    assert_eq!(rt; shelf.read_file("net", 2), Err(ShelfFault::TooLong));
    assert_eq!(rt; shelf.read_file("", 2), Err(ShelfFault::Failed));
    assert_eq!(rt; shelf.read_file("", 2), Err(ShelfFault::Failed));
    Ok(())
}

#[test]
fn a_full_sink_takes_what_fits(rt: HostRuntime) -> Result<(), Fail> {
    let mut out = MemSink::new(rt.alloc(), 5, Vec::new(rt.alloc()))?;
    assert_eq!(rt; out.put(b"abc"), Ok(()));
    assert_eq!(rt; out.put(b"defg"), Err(SinkFault::Failed));
    assert_eq!(rt; out.put(b""), Ok(()));
    assert_eq!(rt; out.put(b"h"), Err(SinkFault::Failed));
    assert_eq!(rt; out.written(), b"abcde".as_slice());
    Ok(())
}

#[test]
fn a_sure_shelf_reads_a_missing_file_as_empty(rt: HostRuntime) -> Result<(), Fail> {
    let name = String::from_str(rt.alloc(), "net")?;
    let bytes = Vec::from_slice(rt.alloc(), b"abc")?;
    let mut shelf = SureShelf::new(rt.alloc(), vec![in rt.alloc(); (name, bytes)]?);
    let abc = Vec::from_slice(rt.alloc(), b"abc")?;
    assert_eq!(rt; shelf.read_file("net", 3), Ok(abc));
    assert_eq!(rt; shelf.read_file("net", 2), Err(ShelfFault::TooLong));
    assert_eq!(rt; shelf.read_file("none", 0), Ok(Vec::new(rt.alloc())));
    assert_eq!(rt; SureSink::new().put(b"abc"), Ok(()));
    Ok(())
}
