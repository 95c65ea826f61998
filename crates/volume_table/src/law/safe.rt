//! What a store is refused with, and what a refusal leaves.
ghost use Rattle.volume_table.specs.SafeLaw.{EndedStoresAnswerAlways, EventsAreRefusedForCause};
ghost use Rattle.volume_table.specs.SafeLaw.{OpeningIsRefusedForCause, OpenStoresGoOn, RefusalsLeaveVolumes};
ghost use Rattle.volume_table.specs.SafeLaw.{RunsAreRefusedForCause};

use sector_model::Bank;

/// A store over a bank is safe and total, whatever the bank: it is refused with the refusals of its calls alone, each
/// for its cause, and goes on unless one ends it. It computes nothing, and looks at no bank: its promises are what it
/// is for.
///
/// A call is refused with `TwoLost` only where two slots are each down or not in sync, with `Worn` only where a counter
/// stands at 2^62, and with `NotUsable`, `NothingToRebuild` or `Incomplete` for a device only where the bank says that
/// it is down or too short; every other refusal is one of the call's own. A store is ended by `TwoLost` and `Worn`
/// alone, and answers the one that ended it to every later call. On an honest bank any other refusal leaves the volumes
/// as they were.
pub fn safe_and_total<B: Bank>(bank: &B)
    ensures events { EventsAreRefusedForCause (B.honest bank.now) }
    ensures runs { RunsAreRefusedForCause (B.honest bank.now) }
    ensures opening { OpeningIsRefusedForCause (B.honest bank.now) }
    ensures volumes { RefusalsLeaveVolumes }
    ensures ended { EndedStoresAnswerAlways (B.honest bank.now) }
    ensures going { OpenStoresGoOn (B.honest bank.now) }
{}
