//! Where a fault of a setup is.

ghost use Rattle.std.specs.Prelude.{◌≡◌};
ghost use Rattle.tally_rules.specs.Place.{coded, constituency_way, list_way, nth};
ghost use Rattle.tally_rules.specs.declared.place.SetupArray.TheVariants.{Candidates, Lists};
ghost use Rattle.tally_rules.specs.declared.place.SetupArray.TheVariants.{Stations};

use tally_setup::Code;

/// An entry that holds arrays of its own: a constituency, or a list.
#[derive(Clone, Copy, Debug, PartialEq, Eq)]
pub struct Holder {
    /// Its number in its array, from 1.
    pub number: usize,
    /// Its code.
    pub code: Code,
}

/// An array of a setup, with the entries that hold it.
#[derive(Clone, Copy, Debug, PartialEq, Eq)]
pub enum SetupArray {
    /// The profiles.
    Profiles,
    /// The constituencies.
    Constituencies,
    /// The lists of a constituency.
    Lists(Holder),
    /// The candidates of a list, which is the second, of a constituency.
    Candidates(Holder, Holder),
    /// The stations of a constituency.
    Stations(Holder),
}

/// The way to an entry of a setup.
#[derive(Clone, Copy, Debug, PartialEq, Eq)]
pub struct Way {
    /// The array that has the entry.
    pub array: SetupArray,
    /// The entry's number in the array, from 1.
    pub number: usize,
    /// The entry's code, where it passed all its checks.
    pub code: Option<Code>,
}

/// Where a fault of a setup is.
#[derive(Clone, Copy, Debug, PartialEq, Eq)]
pub enum Place {
    /// The entry that has the fault. Where the fault is that a code occurs twice, the second is the
    /// entry that has it first.
    Entry(Way, Option<Way>),
    /// The line, from 1, and in it the byte, from 1, at which the text ceases to be TOML.
    Text(usize, usize),
}

// The copies are made field by field: the borrow checker accepts no other one through a reference.

impl Holder {
    fn copy(&self) -> Holder
        ensures { result ≡ self.now }
    {
        Holder {
            number: self.number,
            code: self.code,
        }
    }

    /// The way to a constituency.
    pub(crate) fn constituency_way(&self) -> Way
        ensures { result ≡ constituency_way self.now }
    {
        SetupArray::Constituencies.coded(self.number, self.code)
    }

    /// The way to a list of a constituency.
    pub(crate) fn list_way(&self, list: &Holder) -> Way
        ensures { result ≡ list_way self.now list.now }
    {
        self.lists().coded(list.number, list.code)
    }

    /// The lists of a constituency.
    pub(crate) fn lists(&self) -> SetupArray
        ensures { result ≡ Lists self.now }
    {
        SetupArray::Lists(self.copy())
    }

    /// The candidates of a list of a constituency.
    pub(crate) fn candidates(&self, list: &Holder) -> SetupArray
        ensures { result ≡ Candidates self.now list.now }
    {
        SetupArray::Candidates(self.copy(), list.copy())
    }

    /// The stations of a constituency.
    pub(crate) fn stations(&self) -> SetupArray
        ensures { result ≡ Stations self.now }
    {
        SetupArray::Stations(self.copy())
    }
}

impl SetupArray {
    fn copy(&self) -> SetupArray
        ensures { result ≡ self.now }
    {
        match self {
            SetupArray::Profiles => SetupArray::Profiles,
            SetupArray::Constituencies => SetupArray::Constituencies,
            SetupArray::Lists(con) => con.lists(),
            SetupArray::Candidates(con, list) => con.candidates(list),
            SetupArray::Stations(con) => con.stations(),
        }
    }

    /// An entry whose code is not known to have passed its checks.
    pub(crate) fn nth(&self, number: usize) -> Way
        ensures { result ≡ nth self.now number }
    {
        Way {
            array: self.copy(),
            number,
            code: None,
        }
    }

    /// An entry of this code.
    pub(crate) fn coded(&self, number: usize, code: Code) -> Way
        ensures { result ≡ coded self.now number code }
    {
        Way {
            array: self.copy(),
            number,
            code: Some(code),
        }
    }
}

impl Way {
    pub(crate) fn copy(&self) -> Way
        ensures { result ≡ self.now }
    {
        match self.code {
            Some(code) => self.array.coded(self.number, code),
            None => self.array.nth(self.number),
        }
    }
}
