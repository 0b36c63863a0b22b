//! Moves of a return from one status to another.

ghost use Rattle.std.specs.Prelude.{◌≡◌, ◌≢◌, ◌<◌, IfOk, IfErr, OnOk, Some, None};
ghost use Rattle.tally_returns.specs.Checks.{first_refusal};
ghost use Rattle.tally_returns.specs.Moves.{last_revision, may_close, may_correct, may_query};
ghost use Rattle.tally_returns.specs.Moves.{move_checks, queried_return, corrected_return};
ghost use Rattle.tally_returns.specs.Moves.{closed_return};

use crate::counts::Counts;
use crate::refusal::Refusal;
use crate::returns::{Return, Status};
use std::alloc::{AllocError, Global};
use tally_setup::Code;

/// The last revision that a return can have.
pub(crate) const LAST_REVISION: u32 = 9_999;

pub(crate) fn may_query(status: Status) -> bool
    ensures { result ≡ may_query status }
{
    status != Status::Queried
}

pub(crate) fn may_correct(status: Status) -> bool
    ensures { result ≡ may_correct status }
{
    status == Status::Queried
}

pub(crate) fn may_close(status: Status) -> bool
    ensures { result ≡ may_close status }
{
    matches!(status, Status::Received | Status::Corrected)
}

/// The checks on a return that is to move, where one is recorded. `rev` is the revision that the
/// command names, and `may_start` whether the command starts from the return's status.
pub(crate) fn check_move(
    standing: &Return,
    certified: bool,
    rev: u32,
    may_start: bool,
) -> Result<(), Refusal>
    ensures passed { IfOk result (λ _.
        first_refusal (move_checks certified (Some standing.now) rev (λ _. may_start)) ≡ None) }
    ensures not_last { OnOk result (standing.now.rev ≢ last_revision) }
    ensures refused { IfErr result (λ refusal.
        first_refusal (move_checks certified (Some standing.now) rev (λ _. may_start))
        ≡ Some refusal) }
{
    if certified {
        return Err(Refusal::Certified);
    }
    if standing.rev != rev {
        return Err(Refusal::Stale { now: standing.rev });
    }
    if standing.rev == LAST_REVISION {
        return Err(Refusal::Exhausted);
    }
    if !may_start {
        return Err(Refusal::WrongStatus {
            status: standing.status,
        });
    }
    Ok(())
}

impl Return {
    /// The return that a query with this note leaves.
    pub(crate) fn queried(&self, alloc: Global, note: &str) -> Result<Return, AllocError>
        requires { self.now.rev < last_revision }
        ensures { IfOk result (λ next. next ≡ queried_return note.now self.now) }
    {
        Ok(Return {
            rev: self.rev + 1,
            slip: self.slip,
            status: Status::Queried,
            note: String::from_str(alloc, note)?,
            counts: self.counts.try_copy(alloc)?,
        })
    }

    /// The return that a correction to these counts leaves.
    pub(crate) fn corrected(
        &self,
        alloc: Global,
        slip: Code,
        counts: &Counts,
    ) -> Result<Return, AllocError>
        requires { self.now.rev < last_revision }
        ensures { IfOk result (λ next. next ≡ corrected_return slip counts.now self.now) }
    {
        Ok(Return {
            rev: self.rev + 1,
            slip,
            status: Status::Corrected,
            note: String::from_str(alloc, self.note.as_str())?,
            counts: counts.try_copy(alloc)?,
        })
    }

    /// The return that closing leaves.
    pub(crate) fn closed(&self, alloc: Global) -> Result<Return, AllocError>
        requires { self.now.rev < last_revision }
        ensures { IfOk result (λ next. next ≡ closed_return self.now) }
    {
        Ok(Return {
            rev: self.rev + 1,
            slip: self.slip,
            status: Status::Closed,
            note: String::from_str(alloc, self.note.as_str())?,
            counts: self.counts.try_copy(alloc)?,
        })
    }
}
