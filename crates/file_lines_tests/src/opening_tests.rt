//! Lines as a file has them.
use file_lines::{Opening, StepWord, content, first_line, has_feed, opening_of, step_word};
use file_text::Section;
use std::test::Fail;

fn opens_rows(opening: Opening) -> bool {
    match opening {
        Opening::Opened(Section::RowLines) => true,
        _ => false,
    }
}

fn opens_none_at(opening: Opening, at: u32) -> bool {
    match opening {
        Opening::Unopened { place } => place == at,
        _ => false,
    }
}

#[test]
fn lines_end_in_feeds(rt: HostRuntime) -> Result<(), Fail> {
    let Some((line, rest)) = first_line(b"a\r\r\n\nEND".as_slice()) else {
        assert!(rt; false);
        return Ok(());
    };
    assert!(rt;
        has_feed(line) && content(line) == b"a\r".as_slice() && rest == b"\nEND".as_slice()
    );
    assert!(rt;
        !has_feed(b"END\r".as_slice()) && content(b"END\r".as_slice()) == b"END\r".as_slice()
    );
    assert!(rt;
        content(b"\r\n".as_slice()) == b"".as_slice() && first_line(b"".as_slice()).is_none()
    );
    Ok(())
}

#[test]
fn the_first_word_opens_a_section(rt: HostRuntime) -> Result<(), Fail> {
    assert!(rt;
        opens_rows(opening_of(b"  row(1".as_slice())) && !opens_rows(opening_of(b"#ROW".as_slice()))
    );
    assert!(rt;
        opens_none_at(opening_of(b"  SESSION(".as_slice()), 3)
            && opens_none_at(opening_of(b"\t".as_slice()), 1)
    );
    assert!(rt; step_word(b" Commit ".as_slice()) == Some(StepWord::Commit));
    assert!(rt; step_word(b"BEGIN ;".as_slice()).is_none());
    Ok(())
}
