//! Which lists take part.

ghost use Rattle.tally_setup.specs.Threshold.{IsWithinVotes};

use std::alloc::{AllocError, Global};
use std::test::Fail;
use tally_setup::{Base, LotRule, Method, Profile, eligible};

/// Whether of three lists the first two are eligible and the last is not.
fn last_is_out(alloc: Global, base: Base, votes: [u64; 3], blank: u64) -> Result<bool, AllocError>
    requires { IsWithinVotes votes blank }
{
    let loreg = Profile {
        method: Method::DHondt,
        threshold: 300,
        base,
        lot: LotRule::Fixed,
    };
    let lists = eligible(alloc, &loreg, &votes, blank)?;
    Ok(lists.as_slice() == [true, true, false].as_slice())
}

#[test]
fn a_list_needs_a_vote_and_the_threshold(rt: HostRuntime) -> Result<(), Fail> {
    let alloc = rt.alloc();
    // 3 per cent of 10,000 valid votes is 300, and of 9,900 votes of lists 297.
    assert!(rt; last_is_out(alloc, Base::Valid, [9_304, 300, 296], 100)?);
    assert!(rt; last_is_out(alloc, Base::Valid, [9_301, 300, 299], 100)?);
    assert!(rt; last_is_out(alloc, Base::Lists, [9_307, 297, 296], 100)?);
    let all = Profile {
        method: Method::Hare,
        threshold: 0,
        base: Base::Valid,
        lot: LotRule::Fixed,
    };
    let lists = eligible(alloc, &all, &[0, 0], 50)?;
    assert!(rt; lists.as_slice() == [false, false].as_slice());
    Ok(())
}
