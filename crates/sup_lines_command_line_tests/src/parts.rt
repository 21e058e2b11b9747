//! The parts of scripts that other inputs have too.
use std::test::Fail;
use sup_lines::{
    LineFault, MOST_NODES, number_lines, plain_text, read_child_id, read_distinct, words_of,
};

#[test]
fn lines_have_their_numbers_and_words(rt: HostRuntime) -> Result<(), Fail> {
    let lines = number_lines(rt.alloc(), b"#\nmembers a b\n\nx")?;
    assert!(rt; lines.len() == 2 && lines[0].number == 2 && lines[1].number == 4);
    let text = plain_text(lines[0].bytes).unwrap_or("");
    let words = words_of(rt.alloc(), text)?;
    assert!(rt; words.len() == 3 && words[0] == "members" && words[2] == "b");
    Ok(())
}

#[test]
fn names_are_read_where_they_are_distinct(rt: HostRuntime) -> Result<(), Fail> {
    let names = read_distinct(rt.alloc(), &["b", "a"])?;
    assert!(rt; names.len() == 2 && names[0].as_str() == "b" && names[1].as_str() == "a");
    assert!(rt; read_distinct(rt.alloc(), &[]).is_ok());
    assert!(rt; read_distinct(rt.alloc(), &["a", "a"]).err() == Some(LineFault::Bad));
    assert!(rt; MOST_NODES == 16);
    Ok(())
}

#[test]
fn an_id_is_read(rt: HostRuntime) -> Result<(), Fail> {
    let id = read_child_id(rt.alloc(), "web")?;
    assert!(rt; id.as_str() == "web");
    assert!(rt; read_child_id(rt.alloc(), "").err() == Some(LineFault::Bad));
    Ok(())
}
