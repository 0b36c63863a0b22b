//! The constituency that a text names by its code.

ghost use Rattle.std.specs.Prelude.{◌≡◌, option_copied, option_map};
ghost use Rattle.tally_setup.specs.Limits.{IsSetup};
ghost use Rattle.tally_setup.specs.Setup.{constituency_with};

use tally_setup::{Code, Constituency, Setup};

/// The constituency that has this text as its code.
pub fn con_with_code<'a>(setup: &'a Setup, text: &str) -> Option<&'a Constituency>
    ensures { option_copied result ≡ constituency_with text.now setup.now }
{
    // Called for what its contract says: the codes of a setup are codes.
    let _cons = setup.cons();
    let Some(code) = Code::new(text.as_bytes()) else {
        return None;
    };
    setup.con(code)
}

/// The constituency that has this text as its code. Its contract also says that the setup keeps the
/// limits of every setup.
pub fn con_named<'a>(setup: &'a Setup, text: &str) -> Option<&'a Constituency>
    ensures found { option_copied result ≡ constituency_with text.now setup.now }
    ensures limits { IsSetup setup.now }
{
    let _cons = setup.cons();
    con_with_code(setup, text)
}

/// The text as a code, if a constituency has it.
pub fn code_named(setup: &Setup, text: &str) -> Option<Code>
    ensures { result ≡ option_map (λ con. text.now) (constituency_with text.now setup.now) }
{
    let con = con_with_code(setup, text)?;
    Some(con.code)
}
