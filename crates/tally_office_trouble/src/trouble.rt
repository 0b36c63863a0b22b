//! Why a command was not done.

ghost use Rattle.std.specs.Prelude.{◌≡◌, ◌≢◌, ◌↔◌, ◌++◌, IsTrue, Option};
ghost use Rattle.std.specs.IoError.{error_kind};
ghost use Rattle.tally_rules.specs.declared.fault.SetupFault.{SetupFault};
ghost use Rattle.tally_rules.specs.declared.place.Place.{Place};
ghost use Rattle.tally_office_trouble.specs.declared.trouble.Trouble.TheVariants.{Setup};
ghost use Rattle.tally_office_trouble.specs.Place.{place_lines};
ghost use Rattle.tally_office_trouble.specs.Reported.{IsReported};
ghost use Rattle.tally_office_trouble.specs.Trouble.{check_trouble, create_trouble};
ghost use Rattle.tally_office_trouble.specs.Trouble.{import_trouble};
ghost use Rattle.tally_office_trouble.specs.Trouble.{open_trouble, IsTroubleOfMaking};
ghost use Rattle.tally_office_trouble.specs.Trouble.{IsTroubleOfOpening};
ghost use Rattle.tally_office_trouble.specs.Trouble.{IsTroubleOfRows, setup_line, setup_status};
ghost use Rattle.tally_office_trouble.specs.Trouble.{trouble_line, trouble_status};
ghost use Rattle.tally_office_trouble.specs.internal.Put.{IsPut};

use crate::place::put_place;
use crate::standard_error::{put, put_named, tell};
use std::io::{self, ErrorKind, Write};
use tally_import::CheckFault;
use tally_keeper::{CreateFault, OpenFault};
use tally_returns_rows::ImportFault;
use tally_rules::{Place, SetupFault};

/// The exit status where what was asked is refused.
pub const REFUSED: u8 = 1;

/// The exit status where it is out of memory, or the database, a file, a read, a write or the port
/// failed.
pub const FAILED: u8 = 3;

/// Why a command was not done.
#[derive(Clone, Copy, Debug, PartialEq, Eq)]
pub enum Trouble {
    /// The text is not a setup: its fault, and the fault's place where it is known.
    Setup(SetupFault, Option<Place>),
    /// The database has tables of these names.
    NotEmpty,
    /// The database lacks a table of an office.
    NoTables,
    /// The tables are those of no state, or their version is unknown.
    BadTables,
    /// The text that the database has is not a setup.
    BadSetup,
    /// No constituency has the code.
    NoConstituency,
    /// The header of a text of returns is not that of the constituency's lists.
    BadHeader,
    /// A text of returns is longer than the limit, in rows or bytes.
    TooLong,
    /// The report is of seats, and the constituency is not certified.
    NotCertified,
    /// The report is of a rule by which the seats are not allotted.
    OtherMethod,
    /// Out of memory.
    Memory,
    /// The database failed.
    Store,
    /// The file of a setup or of returns cannot be opened.
    File,
    /// A read failed.
    Read,
    /// A write failed.
    Write,
    /// The port cannot be listened on.
    Port,
}

impl Trouble {
    /// Why no office was made in a database.
    pub fn from_create(fault: &CreateFault) -> Trouble
        ensures trouble { result ≡ create_trouble fault.now }
        ensures named { IsTroubleOfMaking result }
    {
        match fault {
            CreateFault::Setup(SetupFault::Memory) | CreateFault::Memory => Trouble::Memory,
            CreateFault::Setup(fault) => Trouble::Setup(copy_of(fault), None),
            CreateFault::NotEmpty => Trouble::NotEmpty,
            CreateFault::Store => Trouble::Store,
        }
    }

    /// Why a database was not opened.
    pub fn from_open(fault: &OpenFault) -> Trouble
        ensures trouble { result ≡ open_trouble fault.now }
        ensures named { IsTroubleOfOpening result }
    {
        match fault {
            OpenFault::NoTables => Trouble::NoTables,
            OpenFault::BadTables => Trouble::BadTables,
            OpenFault::Setup(_) => Trouble::BadSetup,
            OpenFault::Memory => Trouble::Memory,
            OpenFault::Store => Trouble::Store,
        }
    }

    /// Why an import was not done.
    pub fn from_import(fault: ImportFault) -> Trouble
        ensures trouble { result ≡ import_trouble fault }
        ensures named { IsTroubleOfRows result }
    {
        match fault {
            ImportFault::BadHeader => Trouble::BadHeader,
            ImportFault::TooLong => Trouble::TooLong,
            ImportFault::Read => Trouble::Read,
            ImportFault::Memory => Trouble::Memory,
            ImportFault::Store => Trouble::Store,
        }
    }

    /// Why a text was not checked.
    pub fn from_check(fault: CheckFault) -> Trouble
        ensures { result ≡ check_trouble fault }
    {
        match fault {
            CheckFault::BadHeader => Trouble::BadHeader,
            CheckFault::TooLong => Trouble::TooLong,
            CheckFault::Read => Trouble::Read,
            CheckFault::Memory => Trouble::Memory,
            CheckFault::Write => Trouble::Write,
        }
    }

    /// The exit status: 1 where what was asked is refused, 3 where something failed.
    pub fn status(&self) -> u8
        ensures { result ≡ trouble_status self.now }
    {
        match self {
            Trouble::Setup(fault, _) => setup_status(fault),
            Trouble::NotEmpty
            | Trouble::NoTables
            | Trouble::BadTables
            | Trouble::BadSetup
            | Trouble::NoConstituency
            | Trouble::BadHeader
            | Trouble::TooLong
            | Trouble::NotCertified
            | Trouble::OtherMethod => REFUSED,
            Trouble::Memory
            | Trouble::Store
            | Trouble::File
            | Trouble::Read
            | Trouble::Write
            | Trouble::Port => FAILED,
        }
    }

    /// Writes its line on standard error, and returns the exit status. A write that fails is
    /// ignored. It takes no memory.
    pub fn report<E: Write>(&self, errors: &mut E) -> u8
        ensures reported { IsReported (E.contents errors.old) (E.contents errors.new)
            (trouble_line self.now) }
        ensures status { result ≡ trouble_status self.now }
    {
        self.tell(errors);
        self.status()
    }

    fn tell<E: Write>(&self, errors: &mut E)
        ensures { IsReported (E.contents errors.old) (E.contents errors.new)
            (trouble_line self.now) }
    {
        match self {
            Trouble::Setup(fault, place) => {
                let _ = put_setup(fault, place, errors);
            }
            _ => tell(self.line(), errors),
        }
    }

    /// The line of a trouble that is not `Setup`.
    fn line(&self) -> &'static str
        requires { (fault : SetupFault) → (place : Option Place) →
            self.now ≢ Setup fault place }
        ensures { result.now ≡ trouble_line self.now }
    {
        match self {
            Trouble::Setup(_, _) => unreachable!(),
            Trouble::NotEmpty => "refused: not_empty\n",
            Trouble::NoTables => "refused: no_tables\n",
            Trouble::BadTables => "refused: bad_tables\n",
            Trouble::BadSetup => "refused: bad_setup\n",
            Trouble::NoConstituency => "refused: no_constituency\n",
            Trouble::BadHeader => "refused: bad_header\n",
            Trouble::TooLong => "refused: too_long\n",
            Trouble::NotCertified => "refused: not_certified\n",
            Trouble::OtherMethod => "refused: other_method\n",
            Trouble::Memory => "failed: memory\n",
            Trouble::Store => "failed: store\n",
            Trouble::File => "failed: file\n",
            Trouble::Read => "failed: read\n",
            Trouble::Write => "failed: write\n",
            Trouble::Port => "failed: port\n",
        }
    }
}

/// Whether a call of the system failed because it was out of memory.
pub fn is_memory(error: &io::Error) -> bool
    ensures { IsTrue result ↔ error_kind error.now ≡ ErrorKind.OutOfMemory }
{
    matches!(error.kind(), ErrorKind::OutOfMemory)
}

/// A copy, field by field: the borrow checker accepts no other one through a reference.
pub(crate) fn copy_of(fault: &SetupFault) -> SetupFault
    ensures { result ≡ fault.now }
{
    match fault {
        SetupFault::NotToml => SetupFault::NotToml,
        SetupFault::Missing(key) => SetupFault::Missing(*key),
        SetupFault::BadValue(key) => SetupFault::BadValue(*key),
        SetupFault::OverLimit(key) => SetupFault::OverLimit(*key),
        SetupFault::Duplicate(code) => SetupFault::Duplicate(*code),
        SetupFault::UnknownProfile => SetupFault::UnknownProfile,
        SetupFault::Memory => SetupFault::Memory,
    }
}

fn setup_status(fault: &SetupFault) -> u8
    ensures { result ≡ setup_status fault.now }
{
    match fault {
        SetupFault::Memory => FAILED,
        _ => REFUSED,
    }
}

#[tactic(auto, using(crate::proofs::PutLemmas::put_then, crate::proofs::PutLemmas::put_failed))]
fn put_setup<E: Write>(
    fault: &SetupFault,
    place: &Option<Place>,
    errors: &mut E,
) -> Result<(), CheckFault>
    ensures { IsPut (E.contents errors.old) (E.contents errors.new)
        (setup_line fault.now ++ place_lines place.now) result }
{
    put_fault(fault, errors)?;
    match place {
        Some(place) => put_place(place, errors),
        None => Ok(()),
    }
}

fn put_fault<E: Write>(fault: &SetupFault, errors: &mut E) -> Result<(), CheckFault>
    ensures { IsPut (E.contents errors.old) (E.contents errors.new) (setup_line fault.now) result }
{
    match fault {
        SetupFault::NotToml => put("refused: not_toml\n", errors),
        SetupFault::Missing(key) => put_named("refused: missing ", key, errors),
        SetupFault::BadValue(key) => put_named("refused: bad_value ", key, errors),
        SetupFault::OverLimit(key) => put_named("refused: over_limit ", key, errors),
        SetupFault::Duplicate(code) => put_named("refused: duplicate ", code.as_str(), errors),
        SetupFault::UnknownProfile => put("refused: unknown_profile\n", errors),
        SetupFault::Memory => put("failed: memory\n", errors),
    }
}
