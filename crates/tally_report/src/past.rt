//! The certificates that were reopened.

ghost use Rattle.std.specs.Prelude.{◌≡◌, All, ◌++◌, IfOk, IfErr, OnOk, string_bytes};
ghost use Rattle.std.specs.List.{flat_map};
ghost use Rattle.tally_returns.specs.View.{FitsView, HasEachList};
ghost use Rattle.tally_report.specs.PastText.{past_lines, past_text};
ghost use Rattle.tally_report.specs.declared.fault.ReportFault.TheVariants.{Memory};

use crate::fault::ReportFault;
use crate::seats::push_certificate;
use std::alloc::{AllocError, Global};
use tally_report_lines::push_heading;
use tally_returns::{ConView, Past};
use tally_setup::Constituency;

/// The seats of each certificate of a constituency that was reopened, in order of edition. There is
/// a text of a constituency that was never certified, too: its first line.
pub fn past_text(alloc: Global, con: &Constituency, view: &ConView) -> Result<String, ReportFault>
    requires { FitsView con.now view.now }
    ensures text { IfOk result (λ text. string_bytes text ≡ past_text con.now view.now) }
    ensures fault { IfErr result (λ fault. fault ≡ Memory) }
{
    let mut text = String::new(alloc);
    push_heading(&mut text, "PAST", con)?;
    push_certificates(&mut text, con, &view.past)?;
    Ok(text)
}

fn push_certificates(text: &mut String, con: &Constituency, past: &[Past]) -> Result<(), AllocError>
    requires { All (HasEachList con.now) past.now }
    ensures { OnOk result (string_bytes text.new
        ≡ string_bytes text.old ++ flat_map (past_lines con.now) past.now) }
{
    for certificate in past {
        push_certificate(text, con, certificate.edition, &certificate.seats)?;
    }
    Ok(())
}
