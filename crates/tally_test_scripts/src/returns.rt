//! Texts of returns of Twin Town, and what an import of them comes to.

use std::alloc::Global;
use std::test::Fail;
use tally_returns_rows::{FirstRow, ImportCount, ImportFault};

/// The first line of each text.
pub const HEADER: &str = "station,slip,blank,spoiled,A,B\n";

/// A return of each of three stations.
pub const RETURNS: &str =
    "station,slip,blank,spoiled,A,B\ns1,p1,0,0,10,20\ns2,p2,1,0,30,40\ns3,p3,0,2,50,60\n";

/// As a spreadsheet saves it, after a byte order mark.
pub const QUOTED_RETURNS: &str = "\u{feff}\
\"station\";\"slip\";\"blank\";\"spoiled\";\"A\";\"B\"\r
\"s1\";\"p1\";\"0\";\"0\";\"10\";\"20\"\r
\"s2\";\"p2\";\"1\";\"0\";\"30\";\"40\"\r
\"s3\";\"p3\";\"0\";\"2\";\"50\";\"60\"\r
";

/// Its second row has no number for the votes of A.
pub const BAD_RETURNS: &str =
    "station,slip,blank,spoiled,A,B\ns1,p1,0,0,10,20\ns2,p2,1,0,x,40\ns3,p3,0,2,50,60\n";

/// The first 60 bytes of the three returns, which end within the row of s2.
pub const CUT_RETURNS: &str = "station,slip,blank,spoiled,A,B\ns1,p1,0,0,10,20\ns2,p2,1,0,30,";

/// The answer where all three returns were lodged.
pub const ALL_LODGED: &str = "return s1 = 1 p1 Received [10, 20] 0 0 \n\
return s2 = 1 p2 Received [30, 40] 1 0 \n\
return s3 = 1 p3 Received [50, 60] 0 2 \n\
show c1 = open 1 3 0 0 0/3 [0, 0] 0 0 [] []";

/// The answer where none was. 8 is NoReturn.
pub const NONE_LODGED: &str = "return s1 = refused 8
return s2 = refused 8
return s3 = refused 8
show c1 = open 1 0 0 0 0/3 [0, 0] 0 0 [] []";

const ONE_RETURN: &str = "station,slip,blank,spoiled,A,B\ns1,p1,0,0,10,20\n";

/// Two complete rows and a piece of a third.
pub const TWO_ROWS_AND_A_PIECE: &str =
    "station,slip,blank,spoiled,A,B\ns1,p1,0,0,10,20\ns9,p1,0,0,10,20\ns1,p2";

// Each with what comes after a read that fails, and what an import or a check then ends with.
const FAILING_READS: [(&str, &str, &str); 5] = [
    ("", ONE_RETURN, "Err(Read)"),
    ("station,sl", "ip,blank,spoiled,A,B\n", "Err(Read)"),
    ("station,slip\n", "", "Err(BadHeader)"),
    (TWO_ROWS_AND_A_PIECE, ",0,0,1,1\n", "Err(Read)"),
    (ONE_RETURN, "", "Err(Read)"),
];

/// Texts after which a read fails, with what comes after it, and what an import or a check then
/// ends with. The last two have as many records as there may be, with a piece of another, and one
/// more.
pub fn failing_reads(alloc: Global) -> Result<Vec<(String, &'static str, &'static str)>, Fail> {
    let mut texts = Vec::new(alloc);
    for (front, back, wanted) in FAILING_READS {
        texts.push((String::from_str(alloc, front)?, back, wanted))?;
    }
    let rows = "x\n".repeat(alloc, 20_000)?;
    texts.push((format!(in alloc; "{HEADER}{rows}x")?, "", "Err(Read)"))?;
    texts.push((format!(in alloc; "{HEADER}{rows}x\n")?, "", "Err(TooLong)"))?;
    Ok(texts)
}

/// A text of a return and this many records that are bad.
pub fn with_bad_rows(alloc: Global, bad: usize) -> Result<String, Fail> {
    let bad = "x\n".repeat(alloc, bad)?;
    Ok(format!(in alloc; "{ONE_RETURN}{bad}")?)
}

/// How many rows were lodged, the same, differing, refused and bad, and the first row that was
/// neither lodged nor the same, with the number of its refusal.
pub fn import_count(
    numbers: [u32; 5],
    first: Option<(u32, u32)>,
) -> Result<ImportCount, ImportFault> {
    let [lodged, same, differs, refused, bad] = numbers;
    Ok(ImportCount {
        lodged,
        same,
        differs,
        refused,
        bad,
        first: first.map(|(row, number)| FirstRow { row, number }),
    })
}
