// Rows of texts, read and written, and the fields of faults, worked by hand.
use std::alloc::Global;
use std::test::Fail;
use strip_answer::{Answer, Status, told_row};
use strip_instance::InstanceFault;
use strip_io::Memory;
use strip_text::{Row, Rows, Text, Told};

// A text, and its rows: a bar after each field, a slash after each row.
const READ: [(&str, &str); 15] = [
    ("", ""),
    ("\u{feff}", ""),
    ("\n\r\n\n", ""),
    ("a", "a|/"),
    ("a,b\nc", "a|b|/c|/"),
    ("a,b\r\nc\r\n", "a|b|/c|/"),
    ("a,b\rc\r", "a|b|/c|/"),
    ("\u{feff}a,b\n", "a|b|/"),
    ("\u{feff}\"a\",b\n", "a|b|/"),
    (" a\t,\t b c ,\n", "a|b c||/"),
    ("\" a \", \"b\" \n", "a|\"b\"|/"),
    ("\"a\nb\",\"c\"\"d\",\"e,f\"\n", "a\nb|c\"d|e,f|/"),
    ("a\n,,\n \n\"\"\nb\n", "a|/|||/|/|/b|/"),
    ("\"a\n\nb", "a\n\nb|/"),
    ("a,\u{feff}b\n", "a|\u{feff}b|/"),
];

#[test]
fn reads_rows(rt: HostRuntime) -> Result<(), Fail> {
    for (text, rows) in READ {
        assert!(&rt; reads_as(rt.alloc(), text, rows)?);
    }
    Ok(())
}

fn reads_as(alloc: Global, text: &str, expected: &str) -> Result<bool, Memory> {
    let mut shown = String::new(alloc);
    let mut rows = Rows::new(alloc, text.as_bytes());
    let mut row = Row::new(alloc);
    for turn in 0..text.len() {
        if !rows.read(&mut row)? {
            break;
        }
        if rows.number() != turn as u64 + 1 {
            return Ok(false);
        }
        show(&mut shown, &row)?;
    }
    // After the last row, nothing changes.
    let count = rows.number();
    Ok(!rows.read(&mut row)? && rows.number() == count && shown.as_str() == expected)
}

fn show(shown: &mut String, row: &Row) -> Result<(), Memory> {
    for place in 0..row.len() {
        if let Ok(field) = std::str::from_utf8(row.field(place)) {
            shown.push_str(field)?;
        }
        shown.push('|')?;
    }
    shown.push('/')?;
    Ok(())
}

#[test]
fn tells_empty_rows(rt: HostRuntime) -> Result<(), Fail> {
    let mut rows = Rows::new(rt.alloc(), b", ,\t\n,x\n\"\"\n");
    let mut row = Row::new(rt.alloc());
    assert!(&rt; rows.read(&mut row)? && row.is_empty() && row.len() == 3);
    assert!(&rt; rows.read(&mut row)? && !row.is_empty() && row.field(2).is_empty());
    assert!(&rt; rows.read(&mut row)? && row.is_empty());
    Ok(())
}

#[test]
fn writes_rows(rt: HostRuntime) -> Result<(), Fail> {
    let mut text = Text::new(rt.alloc());
    text.push(&[])?;
    text.push(&[b"order", b"a,b", b"say \"x\"", b"two\nlines", b" c ", b""])?;
    text.push(&[b"a\rb"])?;
    text.push(&[b""])?;
    let expected = "\"\"\norder,\"a,b\",\"say \"\"x\"\"\",\"two\nlines\", c ,\n\"a\rb\"\n\"\"\n";
    assert!(&rt; text.into_bytes()?.as_slice() == expected.as_bytes());
    Ok(())
}

/// Tells whether the word and the fault's fields make this row.
fn is_told(alloc: Global, word: &'static [u8], told: Told<'_>, row: &str) -> Result<bool, Memory> {
    Ok(told_row(alloc, word, told)?.as_slice() == row.as_bytes())
}

#[test]
fn tells_faults(rt: HostRuntime) -> Result<(), Fail> {
    let alloc = rt.alloc();
    let told = Told {
        name: "BadMark",
        first: Some(12),
        second: None,
        names: &[],
    };
    assert!(&rt; is_told(alloc, b"refused", told, "refused,BadMark,12,\n")?);
    let answer = Answer::error(alloc, Status::BadPlan, told)?;
    assert!(&rt;
        answer.status.code() == 6 && answer.text.as_slice() == "error,BadMark,12,\n".as_bytes()
    );
    let mut names = Vec::new(alloc);
    names.push(String::from_str(alloc, "s,1")?)?;
    names.push(String::from_str(alloc, "s2")?)?;
    let told = Told {
        names: &names,
        ..told
    };
    assert!(&rt; is_told(alloc, b"error", told, "error,BadMark,12,,\"s,1\",s2\n")?);
    Ok(())
}

#[test]
fn want_of_memory_tells_nothing(rt: HostRuntime) {
    assert!(rt; InstanceFault::Memory.told().is_none());
}
