//! What an inspection of a set says of assembling it.
ghost use Rattle.recovery.specs.Foreseeing.{AssemblesAsForeseen, Foresees};
ghost use Rattle.recovery.specs.SeenBank.{bank_seen};

use sector_model::Bank;

/// The law of outlooks. It computes nothing: its promise is what it is for.
///
/// Assembling a set on a bank does what an inspection of it says, where it is honest and no device fails.
pub fn outlook_law<B: Bank>(bank: &B)
    ensures { AssemblesAsForeseen (B.honest bank.now) (bank_seen B.Bank bank.now) }
{
    let _ = bank;
}

/// The law of inspections. It computes nothing: its promise is what it is for.
///
/// What an inspection of a bank finds is so of the bank as the inspection leaves it, and assembling that very bank does
/// what the inspection says, where it is honest and no device fails.
pub fn inspection_law<B: Bank>(before: &B, after: &B)
    ensures { Foresees (B.honest before.now) (B.honest after.now) (bank_seen B.Bank before.now)
        (bank_seen B.Bank after.now) }
{
    let _ = before;
    let _ = after;
}
