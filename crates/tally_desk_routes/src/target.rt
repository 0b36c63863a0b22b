//! The code in a target.

ghost use Rattle.std.specs.Prelude.{◌≡◌, ◌≤◌, ◌==◌, IfSome, length, position};
ghost use Rattle.tally_desk_routes.specs.Routes.{before_slash, code_after, station_of_target};
ghost use Rattle.tally_desk_routes.specs.Routes.{con_of_target};

use tally_setup::Code;

fn slash_in(text: &[u8]) -> Option<usize>
    ensures value { result ≡ position (λ b. b == 47) text.now }
    ensures within { IfSome result (λ end. end ≤ length text.now) }
{
    text.iter().position(|b| *b == b'/')
}

fn before_slash(text: &[u8]) -> &[u8]
    ensures { result.now ≡ before_slash text.now }
{
    match slash_in(text) {
        Some(end) => &text[..end],
        None => text,
    }
}

fn code_after(target: &[u8], prefix: &[u8]) -> Option<Code>
    ensures { result ≡ code_after prefix.now target.now }
{
    let rest = target.strip_prefix(prefix)?;
    Code::new(before_slash(rest))
}

/// The station that a target names: what is between `/station/` and the next slash, if it is a
/// code.
pub fn station_of_target(target: &[u8]) -> Option<Code>
    ensures { result ≡ station_of_target target.now }
{
    code_after(target, b"/station/")
}

/// The constituency that a target names: what is between `/con/` and the next slash, if it is a
/// code.
pub fn con_of_target(target: &[u8]) -> Option<Code>
    ensures { result ≡ con_of_target target.now }
{
    code_after(target, b"/con/")
}
