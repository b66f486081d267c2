//! Bytes that are no document.

use super::texts::{YARD, answer, changed};
use net_reader::{Member, ReadRefusal};
use std::test::Fail;

#[test]
fn a_document_that_is_cut_is_no_json(rt: HostRuntime) -> Result<(), Fail> {
    let bytes = YARD.as_bytes();
    for piece in 0..bytes.len() / 20 + 1 {
        let end = piece.saturating_mul(20).min(bytes.len().saturating_sub(1));
        let got = answer(rt.alloc(), &bytes[..end]);
        assert_eq!(rt; got, Err(ReadRefusal::NotJson), "{end}");
    }
    Ok(())
}

#[test]
fn a_byte_255_in_a_name_is_no_json(rt: HostRuntime) -> Result<(), Fail> {
    let mut bytes = Vec::from_slice(rt.alloc(), YARD.as_bytes())?;
    if bytes.len() > 20 {
        bytes[19] = 255;
    }
    assert_eq!(rt; answer(rt.alloc(), &bytes), Err(ReadRefusal::NotJson));
    Ok(())
}

// What begins a document, in place of its first brace, and how it is answered.
static BEGINS: [(&str, Result<(), ReadRefusal>); 5] = [
    (r#"{"x":[[[[[[[[[[]]]]]]]]]],"#, Ok(())),
    (r#"{"x":null,"nodes":7,"#, Ok(())),
    (r#"{"x":1e309,"#, Err(ReadRefusal::NotJson)),
    (r#"[{"#, Err(ReadRefusal::NotJson)),
    (r#"{"x":{"nodes":[]},"#, Ok(())),
];

#[test]
fn members_without_a_meaning_are_ignored(rt: HostRuntime) -> Result<(), Fail> {
    for (begin, told) in &BEGINS {
        let text = changed(rt.alloc(), YARD, "{", begin)?;
        let got = answer(rt.alloc(), text.as_bytes());
        assert_eq!(rt; got, *told, "{begin}");
    }
    Ok(())
}

#[test]
fn two_hundred_lists_inside_one_another_are_no_json(rt: HostRuntime) -> Result<(), Fail> {
    let mut text = String::from_str(rt.alloc(), "{\"x\":")?;
    for _level in 0..200 {
        text.push_str("[")?;
    }
    for _level in 0..200 {
        text.push_str("]")?;
    }
    text.push_str("}")?;
    assert_eq!(rt;
        answer(rt.alloc(), text.as_bytes()),
        Err(ReadRefusal::NotJson)
    );
    Ok(())
}

#[test]
fn a_list_is_no_document(rt: HostRuntime) -> Result<(), Fail> {
    let told = ReadRefusal::Shape {
        member: Member::Document,
        item: 0,
    };
    assert_eq!(rt; answer(rt.alloc(), b"[]"), Err(told));
    assert_eq!(rt; answer(rt.alloc(), b""), Err(ReadRefusal::NotJson));
    Ok(())
}
