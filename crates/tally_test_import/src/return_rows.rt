//! The rows of a text of returns, as text.

use std::alloc::{AllocError, Global};
use std::io::ErrorKind;
use std::test::Fail;
use tally_core::RowSource;
use tally_import::{ReturnRows, Sep};
use tally_rules::read_setup;
use tally_setup::Constituency;
use tally_test_scripts::{HEADER, Pieces};

const SETUP: &[u8] = br#"[[profile]]
code = "d0"
method = "dhondt"
threshold = 0
base = "valid"
[[constituency]]
code = "c1"
name = "Twin Town"
seats = 3
profile = "d0"
list = [{code = "A", name = "Alpha", candidates = ["Ana"]}, {code = "B", name = "Beta", candidates = ["Bea"]}]
station = [{code = "s1", electors = 300}, {code = "s2", electors = 300}]
"#;

/// A good row, and those that the text below has besides.
const TEXT: &[u8] = b"\
station,slip,blank,spoiled,A,B
s1,p1,1,2,10,20
s9,p1,0,0,10,20
s2,p2,0,0,x,40
s2,p3,0,0,900,40
";

const ROWS: &str = "\
Ok(Some(Lodge(Lodge { station: \"s1\", slip: \"p1\", counts: Counts { votes: [10, 20], blank: 1, spoiled: 2 } })))
Ok(Some(Bad(NoStation)))
Ok(Some(Bad(BadNumber(List(0)))))
Ok(Some(Lodge(Lodge { station: \"s2\", slip: \"p3\", counts: Counts { votes: [900, 40], blank: 0, spoiled: 0 } })))
Ok(None)
Ok(None)
";

/// The text as a spreadsheet saves it, as far as its first row.
const QUOTED: &[u8] = b"\xef\xbb\xbf\
\"station\";\"slip\";\"blank\";\"spoiled\";\"A\";\"B\"\r
\"s1\";\"p1\";\"1\";\"2\";\"10\";\"20\"\r
";

const ONE_ROW: &str = "\
Ok(Some(Lodge(Lodge { station: \"s1\", slip: \"p1\", counts: Counts { votes: [10, 20], blank: 1, spoiled: 2 } })))
Ok(None)
";

/// A prefix of the text, cut off within its second row.
const FRONT: &[u8] = b"station,slip,blank,spoiled,A,B\ns1,p1,1,2,10,20\ns9,p1,";

const CUT_OFF: &str = "\
Ok(Some(Lodge(Lodge { station: \"s1\", slip: \"p1\", counts: Counts { votes: [10, 20], blank: 1, spoiled: 2 } })))
Err(Read)
Err(Read)
";

const OTHER_LISTS: &[u8] = b"station,slip,blank,spoiled,B,A\ns1,p1,0,0,10,20\n";

const NO_HEADER: &str = "Err(BadHeader)\nErr(BadHeader)\n";

fn constituency(alloc: Global) -> Result<Constituency, Fail> {
    let setup = read_setup(alloc, SETUP).ok().ok_or("no setup")?;
    let con = setup.cons().first().ok_or("no constituency")?;
    Ok(con.try_copy(alloc)?)
}

/// This many rows that a reader gives, each in a line.
fn rows_of(alloc: Global, reader: &mut Pieces, sep: Sep, count: u32) -> Result<String, Fail> {
    let mut rows = ReturnRows::new(alloc, reader, sep, constituency(alloc)?);
    let mut text = String::new(alloc);
    for _row in 0..count {
        push_row(&mut text, &mut rows)?;
    }
    Ok(text)
}

fn push_row(text: &mut String, rows: &mut ReturnRows<&mut Pieces>) -> Result<(), AllocError> {
    let row = rows.next_row();
    writeln!(text, "{row:?}")
}

#[test]
fn the_rows_of_a_text_however_it_is_read(rt: HostRuntime) -> Result<(), Fail> {
    let failure = Some(ErrorKind::BrokenPipe);
    for (text, piece, failure, sep, count, wanted) in [
        (TEXT, 1, None, Sep::Comma, 6, ROWS),
        (TEXT, 2, None, Sep::Comma, 6, ROWS),
        (TEXT, 7, None, Sep::Comma, 6, ROWS),
        (QUOTED, 4096, None, Sep::Semicolon, 2, ONE_ROW),
        (FRONT, 7, failure, Sep::Comma, 3, CUT_OFF),
        (b"", 7, None, Sep::Comma, 2, NO_HEADER),
        (OTHER_LISTS, 7, None, Sep::Comma, 2, NO_HEADER),
    ] {
        let mut reader = Pieces {
            text,
            piece,
            failure,
        };
        assert!(rt; rows_of(rt.alloc(), &mut reader, sep, count)?.as_str() == wanted);
    }
    Ok(())
}

// 32 bytes.
const LONG_ROW: &str = "s1,p1,000000001,000000002,10,20\n";

#[test]
fn the_first_of_20_000_records_is_given_before_the_text_is_read(
    rt: HostRuntime,
) -> Result<(), Fail> {
    let records = LONG_ROW.repeat(rt.alloc(), 20_000)?;
    let text = format!(in rt.alloc(); "{HEADER}{records}")?;
    let mut reader = Pieces {
        text: text.as_bytes(),
        piece: 4096,
        failure: None,
    };
    let row = rows_of(rt.alloc(), &mut reader, Sep::Comma, 1)?;
    assert!(rt; ONE_ROW.starts_with(row.as_str()));
    assert!(rt; reader.text.len() > 300_000);
    Ok(())
}
