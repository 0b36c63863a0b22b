//! What the program says of itself.

/// The program's version.
pub const VERSION: &str = "0.1.0";

pub const OFFICE: &str = "An electoral office for party-list elections";

pub const OFFICE_EXAMPLE: &str = "\
A first session:
  office new --db office.db --setup setup.toml
      makes an office of the setup and prints 'constituencies 1'
  office check < returns.csv
      adds up a file of returns, and stores nothing
  office allot --seats 8 --method dhondt --threshold 300 < votes.csv
      works out the seats that votes come to, and stores nothing
  office recount --setup setup.toml --con montehondo < returns.csv
      counts the returns of the stations of montehondo, and stores nothing
  office import --db office.db --con montehondo --csv returns.csv
      lodges the returns of the stations of montehondo
  office show --db office.db --report progress
      shows how far every constituency is
  office serve --db office.db --port 8080 --count 100
      answers 100 connections, to close the returns and to certify
  office show --db office.db --report seats --con montehondo
      shows the seats, once montehondo is certified
Returns are queried, corrected and closed, lots are recorded and constituencies
are certified through 'office serve'.

'office new --help', and so of each command, says what goes in and what comes
out. docs/FORMATS.md of the repository is the long manual.";

pub const CHECK: &str = "Check the returns of polling stations and add them up";

pub const CHECK_LONG: &str = "\
Check the returns of polling stations and add them up.

The returns come on standard input as CSV: a header, and then one row a
station. The check reads them all, counts the rows by what is wrong with them,
and adds up the votes of the returns that are good. It stores nothing.

What goes in:
  The header is station,slip,blank,spoiled and then the code of each list, at
  most 60 lists. A row has the station's code, the code of its slip, the blank
  votes, the spoiled votes, and the votes of each list in the header's order.
  A code is 1 to 16 letters A-Z a-z, digits, dashes or underscores, and case
  counts. A number is 1 to 9 digits. Rows are numbered from 1, the header not
  counted; there are at most 20000 rows and 16777216 bytes.

What comes out:
  lodged N    returns that were lodged, the first good one of each station
  same N      rows that repeat a lodged return, with its slip and its counts
  differs N   rows of a station whose return was lodged, with another slip or
              other counts
  refused N   rows with a number above 1000000, or with more than 1000000 votes,
              the blank and the spoiled ones among them
  bad N       rows that cannot be read as returns: another number of fields
              than the header, a station or slip that is not a code, votes
              that are not a number
  first R N   the first row R that was neither lodged nor same, and why: N is
              0 for a bad row, 4 for a number above 1000000, 6 for more than
              1000000 votes, 7 for a row that differs; 'first -' where there
              is none
  blank N     the blank votes of the lodged returns
  spoiled N   their spoiled votes
  CODE N      the votes of each list, in the header's order
With --rows, after this a line for each row that was neither lodged nor same:
  row R N WORD STATION  row R was refused: N and the word of the refusal are
              4 bad_counts, 6 too_many_votes or 7 differs
  row R 0 CAUSE         row R is bad, by the first of these causes:
              fields F (it has F fields), bad_station, bad_slip, bad_number
              blank, bad_number spoiled, bad_number CODE (that list's votes)";

pub const CHECK_EXAMPLE: &str = "\
Example:
  With this text in returns.csv

    station,slip,blank,spoiled,A,B
    s1,p1,2,1,50,40
    s2,p2,0,0,30,60
    s1,p1,2,1,50,40
    s3,p3,0,0,x,5

  'office check < returns.csv' prints

    lodged 2
    same 1
    differs 0
    refused 0
    bad 1
    first 4 0
    blank 2
    spoiled 1
    A 80
    B 100

Exit status:
  0  the returns were checked, whatever was found in their rows
  1  'refused: bad_header' or 'refused: too_long' on standard error
  2  the command line is wrong, or asks for help
  3  'failed: WORD' on standard error:
       memory    the program is out of memory
       read      standard input cannot be read
       write     standard output takes no more; a part may be printed";

pub const ALLOT: &str = "Work out the seats that votes come to";

pub const ALLOT_LONG: &str = "\
Work out the seats that votes come to.

The votes of the lists come on standard input as CSV, and the rule of allotment
on the command line. Nothing is stored: use it to try other votes, another rule
or another number of seats, or to repeat a published allotment.

What goes in:
  The header is list,votes. Then there are 1 to 60 rows: the code of a list,
  which no other row has, and its votes, 1 to 10 digits and at most 5000000000.
  A code is 1 to 16 letters A-Z a-z, digits, dashes or underscores, and case
  counts. Rows are numbered from 1, the header not counted; there are at most
  1048576 bytes, and at most 5000000000 votes, the blank ones among them.

What comes out:
  ALLOT METHOD seats S
  threshold T base WORD rule WORD   the threshold in ten-thousandths of the
                                    base, the base, and the rule of lots
  lot CODE CODE..                   the lot that was given, or 'lot -'
  valid V blank B                   the votes of the lists and the blank ones
                                    together, and the blank ones
  For each list a line: its code, its votes, their share in the base in per
  cent, 'in' or 'out' (whether it is eligible: it has votes and reaches the
  threshold), its seats, and but under hare the fewest extra votes that would
  guarantee it another seat, or a dash where it can gain none.
  total                             the votes of the lists, and the seats
  next CODE                         but under hare the list that would have the
                                    seat after the last, or 'next -' where the
                                    votes do not say which
With --awards, after this the seats in the order in which they were given, each
with its list, which seat of the list it is, and its quotient; under hare the
quotas and remainders of the lists.";

pub const ALLOT_EXAMPLE: &str = "\
Example:
  With this text in votes.csv

    list,votes
    A,168000
    B,104000
    C,72000
    D,64000
    E,40000
    F,32000

  'office allot --seats 8 --method dhondt --threshold 300 < votes.csv' prints

    ALLOT dhondt seats 8
    threshold 300 base valid rule fixed
    lot -
    valid 480000 blank 0
    A                     168000   35.00 in      4       92000
    B                     104000   21.66 in      2       22001
    C                      72000   15.00 in      1       12001
    D                      64000   13.33 in      1       20001
    E                      40000    8.33 in      0        2001
    F                      32000    6.66 in      0       10001
    total                 480000                 8
    next E

Exit status:
  0  the seats were allotted
  1  'refused: WORD' on standard error, the first that goes wrong:
       bad_header         there is no header, or it is not list,votes
       bad_row R CAUSE    row R is bad: fields F (it has F fields), bad_list (no
                          code), duplicate CODE, or bad_number
       too_many_lists     there are more than 60 rows
       too_long           there are more than 1048576 bytes
       no_list            there is no row
       too_many_votes     there are more than 5000000000 votes
       no_eligible        no list is eligible
       lot_missing S CODE CODE..   a lot among these lists has to decide on S
                          seats: draw it, and give it with --lot
       wrong_lot          no lot is needed, or this one does not name each of
                          its lists once and no other
  2  the command line is wrong, or asks for help
  3  'failed: WORD' on standard error:
       memory    the program is out of memory
       read      standard input cannot be read
       write     standard output takes no more; a part may be printed";

pub const RECOUNT: &str = "Count returns again, and work out their seats";

pub const RECOUNT_LONG: &str = "\
Count returns again, and work out their seats.

The returns of a constituency come on standard input as CSV, as 'office import'
takes them and 'office show --report returns' gives them. Each that an import
into a new office of the setup would lodge is counted as closed. Nothing is
stored: use it to repeat a published count, or to see what the seats would be
without some stations.

What goes in:
  --setup     the setup, a TOML file, as for 'office new'
  --con       the code of a constituency of it; one that begins with a dash is
              written --con=-x
  --without   the codes of stations, separated by commas: their rows are left
              out, unless they are bad
  --lot       the lists in the order of a lot, where one has to decide
  --awards    where the seats are wanted in the order of their award; under
              hare the quotas and remainders
  --decisive  where the stations are wanted without which the seats could not
              be the same
  The header is station,slip,blank,spoiled and then the codes of the
  constituency's lists, in the order of the setup; there are at most 20000 rows
  and 16777216 bytes.

What comes out:
  RECOUNT CODE NAME
  stations N counted C without W    the stations of the constituency, the
                                    returns that were counted, and the stations
                                    that --without names
  passed P                          the other rows: those of a station whose
                                    return was counted, and those that an
                                    import would refuse or call bad
  method METHOD seats S
  threshold T base WORD rule WORD   as of 'office allot'
  lot CODE CODE..                   the lot that was given, or 'lot -'
  valid V blank B spoiled X         the votes of the lists and the blank ones
                                    together, the blank ones, the spoiled ones
  For each list a line as of 'office allot', with the list's name at its end;
  'total'; and but under hare 'next'.
With --awards, after this the lines that it adds to 'office allot'.
With --decisive, after this a line for each such station, in the order of the
setup:
  decisive CODE                     if the return of this station alone were
                                    missing, the seats could not be the same,
                                    whatever lot is drawn";

pub const RECOUNT_EXAMPLE: &str = "\
Example:
  With the setup.toml that 'office new --help' shows, and this in returns.csv

    station,slip,blank,spoiled,A,B
    s1,p1,0,0,10,20

  'office recount --setup setup.toml --con c1 < returns.csv' prints

    RECOUNT c1 Twin Town
    stations 1 counted 1 without 0
    passed 0
    method dhondt seats 3
    threshold 300 base valid rule fixed
    lot -
    valid 30 blank 0 spoiled 0
    A                         10   33.33 in      1          11 Alpha
    B                         20   66.66 in      2          10 Beta
    total                     30                 3
    next B

Exit status:
  0  the returns were counted, whatever was found in their rows
  1  'refused: WORD' on standard error, the first that goes wrong:
       a fault of the setup, with its place, as 'office new --help' lists them
       no_constituency    the setup has no constituency of this code
       no_station CODE    the constituency has no station of this code; without
                          a code, where it cannot be one
       bad_header         the header is not that of the constituency
       too_long           there are more rows or bytes than there may be
       no_eligible        no list is eligible
       lot_missing S CODE CODE..   a lot among these lists has to decide on S
                          seats: draw it, and give it with --lot
       wrong_lot          no lot is needed, or this one does not name each of
                          its lists once and no other
  2  the command line is wrong, or asks for help
  3  'failed: WORD' on standard error:
       memory      the program is out of memory
       file, read  the setup cannot be opened, or it or standard input cannot be
                   read
       write       standard output takes no more; a part may be printed";

pub const RECOUNT_CON: &str = "The code of a constituency of the setup";

pub const WITHOUT: &str = "Stations to leave out, as s1,s2; --without=-x,y for a first dash";

pub const DECISIVE: &str = "Name each station without which the seats could not be the same";

pub const SEATS: &str = "The number of seats, 1 to 500";

pub const METHOD: &str = "dhondt, sainte-lague, modified-sainte-lague or hare";

pub const THRESHOLD: &str = "The threshold in ten-thousandths of the base, up to 10000 [0]";

pub const BASE: &str = "valid (with the blank votes) or lists (without them) [valid]";

pub const BLANK: &str = "The blank votes, up to 5000000000 [0]";

pub const LOT: &str = "The lists in the order of the lot, as B,A; --lot=-x,y for a first dash";

pub const ALTERNATING: &str = "The lot is turned round for every second seat of a list";

pub const AWARDS: &str = "Add the seats in the order of their award, or the quotas";

pub const ROWS: &str = "Name each row that was neither lodged nor same, and why";

pub const SEMICOLON: &str = "The fields are separated by semicolons instead of commas";

pub const DB: &str = "The database of the office";

pub const NEW: &str = "Make an office in a new database";

pub const NEW_LONG: &str = "\
Make an office in a new database.

The office is that of a setup: its rules of allotment, its constituencies with
their lists and candidates, and its polling stations. The setup is kept in the
database as it is, and does not change afterwards.

What goes in:
  --db     a database with nothing in it; a file that is not there is made
  --setup  the setup, a TOML file of at most 8388608 bytes: the tables
           profile, constituency, constituency.list and constituency.station

The keys of a profile:
  method     dhondt, sainte-lague, modified-sainte-lague or hare
  threshold  ten-thousandths of the base, 0 to 10000: 300 is 3 per cent
  base       valid (the votes of the lists and the blank ones) or lists (the
             votes of the lists alone)
  lot        fixed, or alternating: the order of a lot is turned round for
             every second seat. It may be left out

A key of a constituency that may be left out:
  entry      single, or double: a return is closed by a second entry of the
             same slip and counts, and by nothing else

What comes out:
  constituencies N   how many constituencies the office has";

pub const NEW_EXAMPLE: &str = "\
Example:
  With this text in setup.toml

    [[profile]]
    code = \"d0\"
    method = \"dhondt\"
    threshold = 300
    base = \"valid\"

    [[constituency]]
    code = \"c1\"
    name = \"Twin Town\"
    seats = 3
    profile = \"d0\"

    [[constituency.list]]
    code = \"A\"
    name = \"Alpha\"
    candidates = [\"Ana\", \"Abel\"]

    [[constituency.list]]
    code = \"B\"
    name = \"Beta\"
    candidates = [\"Bea\"]

    [[constituency.station]]
    code = \"s1\"
    electors = 300

  'office new --db office.db --setup setup.toml' prints

    constituencies 1

Exit status:
  0  the office was made
  1  'refused: WORD' on standard error, the first fault of the setup from top
     to bottom, and on the next line its place, where it has one, as
     'at constituency 1 c1, station 7 s7':
       not_toml           the setup is not TOML, or not UTF-8
       missing KEY        a key is not there, or its array is empty
       bad_value KEY      a value has the wrong type, or is out of range
       over_limit KEY     an array has too many entries; of 'text', the setup
                          is too long; of 'electors', a constituency has more
                          than 5000000000 electors and agents
       duplicate CODE     a code occurs twice
       unknown_profile    a constituency names a profile that is not there
       not_empty          the database has a table, an index, a view or a
                          trigger of one of the office's names
  2  the command line is wrong, or asks for help
  3  'failed: WORD' on standard error; after store or write the office may have
     been made:
       memory             the program is out of memory
       store              the database cannot be opened (there is no such
                          folder, or another program has it open), or a read,
                          a write or its closing failed
       file, read         the setup cannot be opened, or cannot be read
       write              standard output takes no more";

pub const NEW_DB: &str = "The database to make the office in";

pub const SETUP: &str = "The setup, a TOML file";

pub const IMPORT: &str = "Lodge the returns of a constituency from a file";

pub const IMPORT_LONG: &str = "\
Lodge the returns of a constituency from a file.

Each row is the return of one polling station. The first good row of a station
is lodged; a return that was lodged is not changed by any row, and a row that is
not lodged changes nothing. So the same file can be imported again, and then its
rows count as same.

What goes in:
  --db         the database of an office
  --con        the code of a constituency; one that begins with a dash is
               written --con=-x
  --csv        the returns as CSV, at most 16777216 bytes and 20000 rows. The
               header is station,slip,blank,spoiled and then the codes of the
               constituency's lists, in the order of the setup
  --semicolon  where the fields are separated by semicolons
  --rows       where each row that was neither lodged nor same is to be named

What comes out:
  lodged N    returns that were lodged, the first good one of each station
  same N      rows that repeat a lodged return, with its slip and its counts
  differs N   rows of a station whose return was lodged, with another slip or
              other counts
  refused N   rows with a number above 1000000, or with more votes than the
              station has electors and agents, the blank and the spoiled ones
              among them
  bad N       rows that are no return of a station of the constituency
  first R N   the first row R that was neither lodged nor same, and why: N is
              0 for a bad row, 4 for a number above 1000000, 6 for too many
              votes, 7 for a row that differs; 'first -' where there is none
With --rows, after this a line for each row that was neither lodged nor same:
  row R N WORD STATION  row R was refused: N and the word of the refusal are
              4 bad_counts, 6 too_many_votes or 7 differs
  row R 0 CAUSE         row R is bad, by the first of these causes:
              fields F (it has F fields), bad_station, no_station (no station
              of the constituency), bad_slip, bad_number blank, bad_number
              spoiled, bad_number CODE (that list's votes)";

pub const IMPORT_EXAMPLE: &str = "\
Example:
  With this text in returns.csv

    station,slip,blank,spoiled,A,B
    s1,p1,0,0,100,100

  'office import --db office.db --con c1 --csv returns.csv' prints

    lodged 1
    same 0
    differs 0
    refused 0
    bad 0
    first -

Exit status:
  0  the file was imported, whatever was found in its rows
  1  'refused: WORD' on standard error:
       no_tables          there is no such file (is --db right?), or it has no
                          office
       bad_tables         its tables are not those of an office
       bad_setup          the setup in it is not a setup
       no_constituency    the office has no constituency of this code
       bad_header         the header is not that of the constituency
       too_long           there are more rows or bytes than there may be
  2  the command line is wrong, or asks for help
  3  'failed: WORD' on standard error; after store or write the import may have
     been done. Give it again: its rows then count as same:
       memory             the program is out of memory
       store              the database cannot be opened (there is no such
                          folder, or another program, such as 'office serve',
                          has it open), or a read, a write or its closing failed
       file, read         the returns cannot be opened, or cannot be read
       write              standard output takes no more";

pub const IMPORT_CON: &str = "The code of the constituency";

pub const CSV: &str = "The returns, a CSV file";

pub const SHOW: &str = "Show a report of the office";

pub const SHOW_LONG: &str = "\
Show a report of the office.

What goes in:
  --db      the database of an office
  --report  the name of the report:
              tally      the votes of each list, and whether it is eligible:
                         whether it has votes and reaches the threshold
              seats      the seats of each list
              quotients  the quotients of each list; a star marks the number
                         at its right as one that won a seat
              awards     the seats in the order in which they were given
              quota      the quotas and remainders of each list
              holders    who holds the seats
              past       the certificates that were reopened
              provisional
                         the seats if the votes that are closed now were all
                         the votes: no result until it is certified
              short      the fewest extra votes that would guarantee each
                         eligible list another seat, whatever lot is drawn, if
                         the other votes and the eligible lists stayed the same
              stations   the stations, with the status of each return, or a dash
                         where it is missing
              returns    the returns as CSV, which 'office import' takes
              progress   how far every constituency is
              country    the seats and votes of each list over all
                         constituencies
              result     all of these numbers of a constituency, as one line of
                         JSON, for programs
              results    the results of all constituencies, as a JSON array
  --con     the code of a constituency; one that begins with a dash is written
            --con=-x. Every report but progress, country and results needs it;
            these ignore it

What comes out:
  The report. Tally, past, provisional, stations, returns, progress, country,
  result and results are given at any time, the others once the constituency is
  certified: quotients, awards and short only under a divisor rule, quota only
  under Hare's.";

pub const SHOW_EXAMPLE: &str = "\
Example:
  'office show --db office.db --report tally --con c1' prints

    TALLY c1 Twin Town
    stations 1 closed 1
    valid 200 blank 0 spoiled 0
    A                        100   50.00 in  Alpha
    B                        100   50.00 in  Beta

Exit status:
  0  the report was shown
  1  'refused: WORD' on standard error:
       no_tables          there is no such file (is --db right?), or it has no
                          office
       bad_tables         its tables are not those of an office
       bad_setup          the setup in it is not a setup
       no_constituency    the office has no constituency of this code
       not_certified      the report is of certified constituencies alone
       other_method       the report is of another rule of allotment
  2  the command line is wrong, or asks for help; 'missing --con' on standard
     error, where the report needs a constituency
  3  'failed: WORD' on standard error:
       memory             the program is out of memory
       store              the database cannot be opened (there is no such
                          folder, or another program, such as 'office serve',
                          has it open), or a read or its closing failed
       write              standard output takes no more; a part may be printed";

pub const REPORT: &str = "The report, such as tally; --help has the names";

pub const REPORTS: &str = "\
  [possible values: tally, seats, quotients, awards, quota, holders, past,
  provisional, short, stations, returns, progress, country, result, results]";

pub const SHOW_CON: &str = "The code of the constituency; progress, country and results need none";

pub const SERVE: &str = "Answer requests over HTTP, at 127.0.0.1";

pub const SERVE_LONG: &str = "\
Answer requests over HTTP, at 127.0.0.1.

One connection after the other is served, each with one request and its answer,
until N connections have been served. Requests lodge, query, correct, close and
confirm returns, draw lots, certify and reopen constituencies, record who leaves
a seat, import files, and show all this. What was answered as done is in the
database, so Ctrl-C is safe at any time. Until the server ends, no other command
can open the database. A connection that failed counts, and so does each of the
two or three that a browser takes for one table.

The server asks nobody who they are. Every program on this computer can send it
requests, and so can a web page that is open in a browser here: it could lodge,
vacate and certify. Let no browser run here while this serves without a proxy;
the folder deploy/ of the repository has one, with accounts and a record of who
sent what.

What goes in:
  --db     the database of an office
  --port   the port, 1 to 65535
  --count  how many connections to serve, 1 to 1000000

The routes, with S the code of a station, C that of a constituency:
  GET /progress, /country, /results, /station/S, /con/C
  GET /con/C/tally, and so seats, quotients, awards, quota, holders, past,
                            provisional, short, stations, returns, result
  POST /station/S/lodge     {\"slip\":\"p1\",\"votes\":[50,40],\"blank\":2,\"spoiled\":1}
  POST /station/S/query     {\"rev\":1,\"note\":\"the sum is wrong\"}
  POST /station/S/correct   as lodge, and \"rev\":2
  POST /station/S/close     {\"rev\":3}
  POST /station/S/confirm   as correct: a second entry, which closes the return
  POST /con/C/draw          {\"edition\":1,\"order\":[\"B\",\"A\"]}
  POST /con/C/certify       {\"edition\":2}
  POST /con/C/reopen        {\"edition\":3,\"note\":\"a recount\"}
  POST /con/C/vacate        {\"list\":\"B\",\"place\":1,\"note\":\"resigned\"}
  POST /con/C/import        a CSV of at most 1048576 bytes, with curl
                            --data-binary @returns.csv; the fields separated by
                            semicolons: /con/C/import/semicolon
  POST /con/C/trial         the same, and so /con/C/trial/semicolon: what the
                            import would come to; nothing is lodged

What comes out:
  On standard error, once it listens:
    listening on 127.0.0.1:PORT for N connections
  On standard output, at its end:
    answered N failed M    connections that were answered, and that failed";

pub const SERVE_EXAMPLE: &str = "\
Example:
  While 'office serve --db office.db --port 8080 --count 1' runs,

    curl -d '{\"rev\":1}' http://127.0.0.1:8080/station/s1/close

  closes the return of s1 and prints {\"ok\":\"moved\",\"rev\":2}. Then the
  program prints

    answered 1 failed 0

Exit status:
  0  the connections were served
  1  'refused: WORD' on standard error:
       no_tables          there is no such file (is --db right?), or it has no
                          office
       bad_tables         its tables are not those of an office
       bad_setup          the setup in it is not a setup
  2  the command line is wrong, or asks for help
  3  'failed: WORD' on standard error; what was answered as done is done:
       memory             the program is out of memory
       store              the database cannot be opened (there is no such
                          folder, or another program has it open), or a read,
                          a write or its closing failed
       port               the port is not available: another program has it, or
                          it needs more rights
       write              standard output takes no more";

pub const PORT: &str = "The port to listen at, 1 to 65535";

pub const COUNT: &str = "How many connections to serve, 1 to 1000000";
