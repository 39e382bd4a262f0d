//! The checkpoint machine: its state, which labels it allows, what is due, and the state after each; and the law
//! that what is due is allowed. All of it is in `specs/` and `proofs/`.
#![tactic(auto)]

ghost use Rattle.ckpt_machine.specs.Laws.{Starts, IsLawful, EachRunHas, GivesFacts, CountsUp, BringsNearer, StepsAreFew, RefusalsLeave, EndsAsItMay, FailuresKeep, RunsKeepPromises};
ghost use Rattle.ckpt_machine.specs.SixFacts.{GivesSixFacts};

/// Of any number of nodes up to eight, and any number of calls in hand: what is due is allowed and keeps the invariant,
/// which gives all that the code relies on, and the six facts of the slots of updates on all replicas; a call in hand comes nearer to its end by each of its steps, of which few are
/// left; what is refused leaves all but the making of its own call as it was; a call ends only with an answer that it may
/// have; the failure of a node keeps the invariant; and each run keeps what a run promises, promise by promise:
/// `KeepsPromises`, in `specs/Promises.antt`.
///
/// Whoever relies on the law calls it: it does nothing, and its clauses stand in the caller's proof without the laws'
/// own proofs, which are long to read.
#[inline(always)]
pub fn machine_law()
    ensures starts { Starts }
    ensures lawful { IsLawful }
    ensures runs { EachRunHas }
    ensures facts { GivesFacts }
    ensures slots { GivesSixFacts }
    ensures counts { CountsUp }
    ensures nearer { BringsNearer }
    ensures few { StepsAreFew }
    ensures refusals { RefusalsLeave }
    ensures ends { EndsAsItMay }
    ensures failures { FailuresKeep }
    ensures promises { RunsKeepPromises }
{}
