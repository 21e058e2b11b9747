//! Inputs of the greatest length.
use crate::runs::{OUTPUT, SCRIPT, expect, expect_run};
use std::test::Fail;

#[test]
fn an_input_has_at_most_1048576_bytes(rt: HostRuntime) -> Result<(), Fail> {
    let mut input = vec![in rt.alloc(); b'#'; 1_048_577]?;
    expect_run(&rt, &mut input.as_slice(), 1, b"", b"bad input\n");
    expect_run(&rt, &mut &input.as_slice()[1..], 1, b"", b"bad line 0\n");
    input.truncate(1_048_576 - SCRIPT.len() - 1);
    input.push(b'\n')?;
    input.extend_from_slice(SCRIPT)?;
    assert!(rt; input.len() == 1_048_576);
    expect_run(&rt, &mut input.as_slice(), 0, OUTPUT, b"");
    Ok(())
}

// The length is looked at before the lines.
#[test]
fn an_input_that_is_too_long_has_no_bad_line(rt: HostRuntime) -> Result<(), Fail> {
    let input = vec![in rt.alloc(); b'x'; 1_048_577]?;
    expect(&rt, &["simulate"], input.as_slice(), 1, b"", b"bad input\n");
    expect(&rt, &["cluster"], input.as_slice(), 1, b"", b"bad input\n");
    expect(&rt, &["place"], input.as_slice(), 1, b"", b"bad input\n");
    expect(&rt, &["inspect"], input.as_slice(), 1, b"", b"bad input\n");
    let shorter = &input.as_slice()[1..];
    expect(&rt, &["simulate"], shorter, 1, b"", b"bad line 1\n");
    expect(&rt, &["cluster"], shorter, 1, b"", b"bad line 1\n");
    expect(&rt, &["place"], shorter, 1, b"", b"bad line 1\n");
    expect(&rt, &["inspect"], shorter, 1, b"", b"bad image NotJson\n");
    Ok(())
}

const OPENING: &[u8] =
    b"{\"boot\":1,\"count\":0,\"ctx\":{\"cloud\":[],\"vector\":{}},\"kind\":\"image\",\"node\":\"a\",\"rows\":[],\"v\":2}";

// Spaces stand before it.
#[test]
fn an_image_has_at_most_1048576_bytes(rt: HostRuntime) -> Result<(), Fail> {
    let mut input = vec![in rt.alloc(); b' '; 1_048_577]?;
    input.truncate(1_048_576 - OPENING.len());
    input.extend_from_slice(OPENING)?;
    assert!(rt; input.len() == 1_048_576);
    let looked = b"node a boot 1\ncount 0\n";
    expect(&rt, &["inspect"], input.as_slice(), 0, looked, b"");
    input.push(b' ')?;
    expect(&rt, &["inspect"], input.as_slice(), 1, b"", b"bad input\n");
    Ok(())
}
