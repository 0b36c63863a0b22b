//! Scripts: messages with their answers.

use crate::lines::{check_each, office_after};
use crate::offices::{Office, Stored};
use std::alloc::Global;
use std::test::*;
use tally_core::Book;
use tally_test_scripts::{MORE_STATIONS, entered_twice, twin_town};

// Three seats for two lists of 100 votes each, a lot, a vacancy and a recount.
const RECOUNT: &str =
    r#"GET /progress = 200 OK|c1                    1      1      0      0      0      0      1 open|
POST /station/s1/lodge {"slip":"p1","votes":[100,100],"blank":0,"spoiled":0} = 200 OK|{"ok":"lodged","rev":1}
GET /progress = 200 OK|c1                    1      0      1      0      0      0      1 open|
POST /con/c1/certify {"edition":1} = 409 Conflict|{"left":1,"refused":14,"word":"not_all_closed"}
POST /station/s1/close {"rev":"1"} = 400 Bad Request|{"word":"bad_body"}
POST /station/s1/close {"rev":1} = 200 OK|{"ok":"moved","rev":2}
POST /station/s1/close {"rev":1} = 409 Conflict|{"now":2,"refused":11,"word":"stale"}
POST /con/c1/certify {"edition":1} = 409 Conflict|{"group":["A","B"],"refused":19,"seats":1,"word":"lot_missing"}
GET /con/c1/result = 200 OK|{"awards":[],"base":"valid","blank":0,"certified":false,"closed":1,"con":"c1","corrected":0,"edition":1,"entry":"single","gone":[],"group":["A","B"],"holders":[],"lists":[{"code":"A","eligible":true,"name":"Alpha","provisional":1,"seats":null,"short":null,"votes":100},{"code":"B","eligible":true,"name":"Beta","provisional":1,"seats":null,"short":null,"votes":100}],"lot":[],"lot_rule":"fixed","method":"dhondt","name":"Twin Town","note":"","past":[],"queried":0,"question":1,"quota":[],"received":0,"seats":3,"spoiled":0,"stations":1,"status":"lot","threshold":0}
POST /con/c1/draw {"edition":1,"order":["A"]} = 409 Conflict|{"group":["A","B"],"refused":18,"word":"lot_wrong_group"}
POST /con/c1/draw {"edition":1,"order":["B","A"]} = 200 OK|{"edition":2,"ok":"edition"}
GET /con/c1/seats = 409 Conflict|{"word":"not_certified"}
POST /con/c1/certify {"edition":2} = 200 OK|{"edition":3,"ok":"edition"}
GET /con/c1 = 200 OK|{"blank":0,"certified":true,"closed":1,"con":"c1","edition":3,"gone":[],"lot":["B","A"],"note":"","seats":[1,2],"spoiled":0,"stations":1,"votes":[100,100]}
GET /con/c1/result = 200 OK|{"awards":[["B",1,100,1],["A",1,100,1],["B",2,100,2]],"base":"valid","blank":0,"certified":true,"closed":1,"con":"c1","corrected":0,"edition":3,"entry":"single","gone":[],"group":[],"holders":[["A",1,"Ana"],["B",1,"Bea"],["B",null,null]],"lists":[{"code":"A","eligible":true,"name":"Alpha","provisional":1,"seats":1,"short":1,"votes":100},{"code":"B","eligible":true,"name":"Beta","provisional":2,"seats":2,"short":200,"votes":100}],"lot":["B","A"],"lot_rule":"fixed","method":"dhondt","name":"Twin Town","note":"","past":[],"queried":0,"question":0,"quota":[],"received":0,"seats":3,"spoiled":0,"stations":1,"status":"certified","threshold":0}
GET /con/c1/quota = 409 Conflict|{"word":"other_method"}
POST /con/c1/vacate {"list":"B","place":1,"note":"resigned"} = 200 OK|{"next":null,"ok":"vacated"}
POST /con/c1/vacate {"list":"B","place":1,"note":"resigned"} = 409 Conflict|{"refused":20,"word":"already_gone"}
POST /con/c1/reopen {"edition":3,"note":"recount"} = 200 OK|{"edition":4,"ok":"edition"}
POST /station/s1/query {"rev":2,"note":"sum"} = 200 OK|{"ok":"moved","rev":3}
POST /station/s1/correct {"rev":3,"slip":"p2","votes":[120,120],"blank":0,"spoiled":0} = 200 OK|{"ok":"moved","rev":4}
GET /station/s1 = 200 OK|{"blank":0,"note":"sum","rev":4,"slip":"p2","spoiled":0,"station":"s1","status":"corrected","votes":[120,120]}
POST /station/s1/close {"rev":4} = 200 OK|{"ok":"moved","rev":5}
POST /station/s1/lodge {"slip":"p1","votes":[100,100],"blank":0,"spoiled":0} = 409 Conflict|{"refused":7,"rev":5,"word":"differs"}"#;

// What a new office has no answer to, in the order in which it looks: the route, the code, the
// body, the return.
const REFUSED: &str = r#"GET /nothing = 404 Not Found|{"word":"no_route"}
GET /con/zz/tally = 404 Not Found|{"refused":2,"word":"no_constituency"}
GET /con/zz/returns = 404 Not Found|{"refused":2,"word":"no_constituency"}
GET /con/zz/stations = 404 Not Found|{"refused":2,"word":"no_constituency"}
GET /con/zz/result = 404 Not Found|{"refused":2,"word":"no_constituency"}
GET /country/ = 404 Not Found|{"word":"no_route"}
POST /con/zz/certify x = 404 Not Found|{"refused":2,"word":"no_constituency"}
POST /station/zz/close x = 404 Not Found|{"refused":1,"word":"no_station"}
POST /station/s1/close x = 400 Bad Request|{"word":"bad_body"}
POST /station/s1/close {"rev":1} = 404 Not Found|{"refused":8,"word":"no_return"}
GET /station/s1 = 404 Not Found|{"refused":8,"word":"no_return"}"#;

// Three returns, the same again, and again with another number in the second row.
const AGAIN: &str =
    r#"POST /con/c1/import station,slip,blank,spoiled,A,B|s1,p1,0,0,10,20|s2,p2,1,0,30,40|s3,p3,0,2,50,60 = 200 OK|{"bad":0,"differs":0,"first":null,"lodged":3,"ok":"import","refused":0,"same":0}
POST /con/c1/import station,slip,blank,spoiled,A,B|s1,p1,0,0,10,20|s2,p2,1,0,30,40|s3,p3,0,2,50,60 = 200 OK|{"bad":0,"differs":0,"first":null,"lodged":0,"ok":"import","refused":0,"same":3}
POST /con/c1/import station,slip,blank,spoiled,A,B|s1,p1,0,0,10,20|s2,p2,1,0,31,40|s3,p3,0,2,50,60 = 200 OK|{"bad":0,"differs":1,"first":[2,7],"lodged":0,"ok":"import","refused":0,"same":2}
GET /station/s2 = 200 OK|{"blank":1,"note":"","rev":1,"slip":"p2","spoiled":0,"station":"s2","status":"received","votes":[30,40]}"#;

// A row that is bad. A header that is another, and semicolons, do not lodge the return that is
// missing.
const BAD: &str =
    r#"POST /con/c1/import station,slip,blank,spoiled,A,B|s1,p1,0,0,10,20|s2,p2,1,0,x,40|s3,p3,0,2,50,60 = 200 OK|{"bad":1,"differs":0,"first":[2,0],"lodged":2,"ok":"import","refused":0,"same":0}
POST /con/c1/import station,slip,blank,spoiled,B,A|s2,p2,1,0,40,30 = 400 Bad Request|{"word":"bad_header"}
POST /con/c1/import station;slip;blank;spoiled;A;B|s2;p2;1;0;30;40 = 400 Bad Request|{"word":"bad_header"}
POST /con/zz/import station,slip,blank,spoiled,A,B|s2,p2,1,0,30,40 = 404 Not Found|{"refused":2,"word":"no_constituency"}
GET /station/s2 = 404 Not Found|{"refused":8,"word":"no_return"}
POST /con/c1/import/semicolon station;slip;blank;spoiled;A;B|s2;p2;1;0;30;40 = 200 OK|{"bad":0,"differs":0,"first":null,"lodged":1,"ok":"import","refused":0,"same":0}
GET /station/s2 = 200 OK|{"blank":1,"note":"","rev":1,"slip":"p2","spoiled":0,"station":"s2","status":"received","votes":[30,40]}"#;

// A trial is answered with what the import would come to, and lodges nothing. Each row is judged
// over what those before it would have lodged.
const TRIED: &str =
    r#"POST /con/c1/trial station,slip,blank,spoiled,A,B|s1,p1,0,0,10,20|s2,p2,1,0,30,40|s3,p3,0,2,50,60 = 200 OK|lodged 3|same 0|differs 0|refused 0|bad 0|first -|
POST /con/c1/trial/semicolon station;slip;blank;spoiled;A;B|s2;p2;1;0;30;40 = 200 OK|lodged 1|same 0|differs 0|refused 0|bad 0|first -|
POST /con/c1/trial station,slip,blank,spoiled,A,B|s1,p1,0,0,10,20|s1,p1,0,0,10,20|s1,p1,0,0,10,21|s2,p2,0,0,200,101|s4,p4,0,0,1,1|s?,p5,0,0,1,1|s3,,0,0,1,1|s3,p3,0,0,1|s3,p3,0,0,1, = 200 OK|lodged 1|same 1|differs 1|refused 1|bad 5|first 3 7|row 3 7 differs s1|row 4 6 too_many_votes s2|row 5 0 no_station|row 6 0 bad_station|row 7 0 bad_slip|row 8 0 fields 5|row 9 0 bad_number B|
POST /con/c1/trial station;slip;blank;spoiled;A;B|s2;p2;1;0;30;40 = 400 Bad Request|{"word":"bad_header"}
POST /con/zz/trial station = 404 Not Found|{"refused":2,"word":"no_constituency"}
GET /con/c1/returns = 200 OK|station,slip,blank,spoiled,A,B|
POST /con/c1/import station,slip,blank,spoiled,A,B|s1,p1,0,0,10,20|s2,p2,1,0,30,40|s3,p3,0,2,50,60 = 200 OK|{"bad":0,"differs":0,"first":null,"lodged":3,"ok":"import","refused":0,"same":0}
POST /con/c1/trial station,slip,blank,spoiled,A,B|s1,p1,0,0,10,20|s2,p2,1,0,31,40|s3,p3,0,2,x,60 = 200 OK|lodged 0|same 1|differs 1|refused 0|bad 1|first 2 7|row 2 7 differs s2|row 3 0 bad_number A|"#;

// The same text where neither of the other two is a station.
const OF_OTHER_STATIONS: &str =
    r#"POST /con/c1/import station,slip,blank,spoiled,A,B|s1,p1,0,0,10,20|s2,p2,1,0,30,40|s3,p3,0,2,50,60 = 200 OK|{"bad":2,"differs":0,"first":[2,0],"lodged":1,"ok":"import","refused":0,"same":0}
GET /station/s1 = 200 OK|{"blank":0,"note":"","rev":1,"slip":"p1","spoiled":0,"station":"s1","status":"received","votes":[10,20]}
GET /station/s2 = 404 Not Found|{"refused":1,"word":"no_station"}"#;

/// Three seats for two lists of 100 votes each, and a lot by which B is first.
pub(crate) const CERTIFIED: &str =
    r#"POST /station/s1/lodge {"slip":"p1","votes":[100,100],"blank":0,"spoiled":0} = 200 OK|{"ok":"lodged","rev":1}
POST /station/s1/close {"rev":1} = 200 OK|{"ok":"moved","rev":2}
POST /con/c1/draw {"edition":1,"order":["B","A"]} = 200 OK|{"edition":2,"ok":"edition"}
POST /con/c1/certify {"edition":2} = 200 OK|{"edition":3,"ok":"edition"}"#;

// Each report, its lines ended by `|`.
const BY_DIVISORS: &str =
    "GET /con/c1/tally = 200 OK|TALLY c1 Twin Town|stations 1 closed 1|valid 200 blank 0 spoiled 0|A                        100   50.00 in  Alpha|B                        100   50.00 in  Beta|
GET /con/c1/seats = 200 OK|SEATS c1 Twin Town|edition 3|A                   1 Alpha|B                   2 Beta|total               3|
GET /con/c1/quotients = 200 OK|QUOTIENTS c1 Twin Town|A               *        100          50          33|B               *        100*         50          33|
GET /con/c1/awards = 200 OK|AWARDS c1 Twin Town|   1 B                  1           100     1         100|   2 A                  1           100     1         100|   3 B                  2           100     2          50|
GET /con/c1/short = 200 OK|SHORT c1 Twin Town|A                   1           1|B                   2         200|
GET /con/c1/holders = 200 OK|HOLDERS c1 Twin Town|A                   1 Ana|B                   1 Bea|B                   - empty|
GET /con/c1/past = 200 OK|PAST c1 Twin Town|";

// 200 votes for 3 seats: of each list's 300, in which a seat is 200, one is whole and 100 are left.
const BY_QUOTAS: &str =
    "GET /con/c1/quota = 200 OK|QUOTA c1 Twin Town|votes 200 seats 3|A                        100    1             100    1|B                        100    1             100    2|";

// A certificate is reopened after a vacancy.
const REOPENED: &str =
    r#"POST /con/c1/vacate {"list":"B","place":1,"note":"resigned"} = 200 OK|{"next":null,"ok":"vacated"}
GET /con/c1/quota = 409 Conflict|{"word":"other_method"}
POST /con/c1/reopen {"edition":3,"note":"recount"} = 200 OK|{"edition":4,"ok":"edition"}
GET /con/c1/holders = 409 Conflict|{"word":"not_certified"}
GET /con/c1/past = 200 OK|PAST c1 Twin Town|edition 3|A                   1 Alpha|B                   2 Beta|"#;

// The provisional seats as the count goes on: a return that is not closed gives none, equal votes
// leave one seat open, and the lot has B first, before the certificate and after it.
const COUNTED: &str =
    r#"POST /station/s1/lodge {"slip":"p1","votes":[100,100],"blank":0,"spoiled":0} = 200 OK|{"ok":"lodged","rev":1}
GET /con/c1/provisional = 200 OK|PROVISIONAL c1 Twin Town|stations 1 closed 0|no_eligible|A                   0 Alpha|B                   0 Beta|total               0|
POST /station/s1/close {"rev":1} = 200 OK|{"ok":"moved","rev":2}
GET /con/c1/provisional = 200 OK|PROVISIONAL c1 Twin Town|stations 1 closed 1|lot 1 A B|A                   1 Alpha|B                   1 Beta|total               2|
POST /con/c1/draw {"edition":1,"order":["B","A"]} = 200 OK|{"edition":2,"ok":"edition"}
GET /con/c1/provisional = 200 OK|PROVISIONAL c1 Twin Town|stations 1 closed 1|open|A                   1 Alpha|B                   2 Beta|total               3|
POST /con/c1/certify {"edition":2} = 200 OK|{"edition":3,"ok":"edition"}
GET /con/c1/provisional = 200 OK|PROVISIONAL c1 Twin Town|stations 1 closed 1|certified|A                   1 Alpha|B                   2 Beta|total               3|
GET /con/zz/provisional = 404 Not Found|{"refused":2,"word":"no_constituency"}"#;

// Three stations: what is shown of them with no return, and with one that is received and one that
// is closed. What was published is the same when it is imported.
const PUBLISHED: &str = r#"GET /con/c1/returns = 200 OK|station,slip,blank,spoiled,A,B|
GET /con/c1/stations = 200 OK|STATIONS c1 Twin Town|stations 3 missing 3 closed 0|s1                   300 -|s2                   300 -|s3                   300 -|
POST /station/s3/lodge {"slip":"p3","votes":[30,40],"blank":1,"spoiled":2} = 200 OK|{"ok":"lodged","rev":1}
POST /station/s1/lodge {"slip":"p1","votes":[100,100],"blank":0,"spoiled":0} = 200 OK|{"ok":"lodged","rev":1}
POST /station/s1/close {"rev":1} = 200 OK|{"ok":"moved","rev":2}
GET /con/c1/returns = 200 OK|station,slip,blank,spoiled,A,B|s1,p1,0,0,100,100|s3,p3,1,2,30,40|
GET /con/c1/stations = 200 OK|STATIONS c1 Twin Town|stations 3 missing 1 closed 1|s1                   300 closed       2 p1                   200       0       0|s2                   300 -|s3                   300 received     1 p3                    70       1       2|
POST /con/c1/import station,slip,blank,spoiled,A,B|s1,p1,0,0,100,100|s3,p3,1,2,30,40| = 200 OK|{"bad":0,"differs":0,"first":null,"lodged":0,"ok":"import","refused":0,"same":2}"#;

// A second constituency, which has the list B too.
const PORT: &str = r#"
[[constituency]]
code = "c2"
name = "Port"
seats = 2
profile = "d0"

[[constituency.list]]
code = "B"
name = "Beta"
candidates = ["Bo"]

[[constituency.list]]
code = "C"
name = "Gamma"
candidates = ["Cleo"]

[[constituency.station]]
code = "t1"
electors = 100
"#;

// Twin Town is certified and Port is not, before and after its return.
const COUNTRY: &str =
    r#"GET /country = 200 OK|COUNTRY|constituencies 2 certified 1|stations 2 closed 1|A                     1           100 Alpha|B                     2           100 Beta|C                     0             0 Gamma|total                 3           200|seats 5 majority 3|
GET /results = 200 OK|[{"awards":[["B",1,100,1],["A",1,100,1],["B",2,100,2]],"base":"valid","blank":0,"certified":true,"closed":1,"con":"c1","corrected":0,"edition":3,"entry":"single","gone":[],"group":[],"holders":[["A",1,"Ana"],["B",1,"Bea"],["B",null,null]],"lists":[{"code":"A","eligible":true,"name":"Alpha","provisional":1,"seats":1,"short":1,"votes":100},{"code":"B","eligible":true,"name":"Beta","provisional":2,"seats":2,"short":200,"votes":100}],"lot":["B","A"],"lot_rule":"fixed","method":"dhondt","name":"Twin Town","note":"","past":[],"queried":0,"question":0,"quota":[],"received":0,"seats":3,"spoiled":0,"stations":1,"status":"certified","threshold":0},{"awards":[],"base":"valid","blank":0,"certified":false,"closed":0,"con":"c2","corrected":0,"edition":1,"entry":"single","gone":[],"group":[],"holders":[],"lists":[{"code":"B","eligible":false,"name":"Beta","provisional":0,"seats":null,"short":null,"votes":0},{"code":"C","eligible":false,"name":"Gamma","provisional":0,"seats":null,"short":null,"votes":0}],"lot":[],"lot_rule":"fixed","method":"dhondt","name":"Port","note":"","past":[],"queried":0,"question":0,"quota":[],"received":0,"seats":2,"spoiled":0,"stations":1,"status":"no_eligible","threshold":0}]
POST /station/t1/lodge {"slip":"q1","votes":[30,10],"blank":0,"spoiled":0} = 200 OK|{"ok":"lodged","rev":1}
POST /station/t1/close {"rev":1} = 200 OK|{"ok":"moved","rev":2}
GET /country = 200 OK|COUNTRY|constituencies 2 certified 1|stations 2 closed 2|A                     1           100 Alpha|B                     2           130 Beta|C                     0            10 Gamma|total                 3           240|seats 5 majority 3|"#;

// The returns of this office are entered twice: each line after a first entry.
const LODGED: &str =
    r#"POST /station/s1/lodge {"slip":"p1","votes":[100,100],"blank":0,"spoiled":0} = 200 OK|{"ok":"lodged","rev":1}"#;

const ENTERED_TWICE: &str =
    r#"POST /station/s1/close {"rev":1} = 409 Conflict|{"refused":24,"word":"not_confirmed"}
POST /station/s1/confirm {"rev":1,"slip":"p1","votes":[100,99],"blank":0,"spoiled":0} = 409 Conflict|{"refused":7,"rev":1,"word":"differs"}
POST /station/s1/confirm {"rev":1,"slip":"p1","votes":[100,100],"blank":0,"spoiled":0} = 200 OK|{"ok":"moved","rev":2}
GET /con/c1 = 200 OK|{"blank":0,"certified":false,"closed":0,"con":"c1","edition":1,"entry":"double","gone":[],"lot":[],"note":"","seats":[],"spoiled":0,"stations":1,"votes":[0,0]}"#;

// The method of Twin Town, what else the setup has, what was done before, and a script.
const SCRIPTS: [(&str, &str, &str, &str); 13] = [
    ("dhondt", "", "", RECOUNT),
    ("dhondt", "", "", REFUSED),
    ("dhondt", MORE_STATIONS, "", AGAIN),
    ("dhondt", MORE_STATIONS, "", BAD),
    ("dhondt", MORE_STATIONS, "", TRIED),
    ("dhondt", "", "", OF_OTHER_STATIONS),
    ("dhondt", "", CERTIFIED, BY_DIVISORS),
    ("hare", "", CERTIFIED, BY_QUOTAS),
    ("dhondt", "", CERTIFIED, REOPENED),
    ("dhondt", "", "", COUNTED),
    ("hare", "", "", COUNTED),
    ("dhondt", MORE_STATIONS, "", PUBLISHED),
    ("dhondt", PORT, CERTIFIED, COUNTRY),
];

fn check_script<K: Office>(
    alloc: Global,
    method: &str,
    more: &str,
    before: &str,
    script: &str,
) -> Result<(), Fail> {
    let mut setup = twin_town(alloc, method, 3)?;
    setup.push_str(more)?;
    let mut office = office_after::<K>(alloc, setup.as_str(), before)?;
    check_each(alloc, &mut office, script)
}

fn check_entered_twice<K: Office>(alloc: Global) -> Result<(), Fail> {
    let setup = entered_twice(alloc)?;
    for line in ENTERED_TWICE.lines() {
        let mut office = office_after::<K>(alloc, setup.as_str(), LODGED)?;
        check_each(alloc, &mut office, line)?;
    }
    Ok(())
}

fn check_scripts<K: Office>(alloc: Global) -> Result<(), Fail> {
    for (method, more, before, script) in SCRIPTS {
        check_script::<K>(alloc, method, more, before, script)?;
    }
    check_entered_twice::<K>(alloc)
}

#[test]
fn messages_have_these_answers(rt: HostRuntime) -> Result<(), Fail> {
    check_scripts::<Book>(rt.alloc())?;
    check_scripts::<Stored>(rt.alloc())
}
