//! What scripts, and invocations of the program, keep of the volumes.
ghost use Rattle.set_commands.specs.DoneLaw.{CommandsMakeInvocations};
ghost use Rattle.set_commands.specs.Invocations.{HeadlineOfTheProgram};
ghost use Rattle.set_commands.specs.ScriptLaw.{LastLineStands, ScriptIsRun, ScriptKeepsVolumes};

use sector_model::Bank;

/// The law of scripts. It computes nothing: its promises are what it is for.
///
/// Lines that are answered one after another on an honest bank, none of which ended the store, are answered by the
/// volume machine and leave the store settled on the volumes after all of them. At each moment of a line each case that
/// a crash may leave stands for the volumes before the line or for those after it; and so in a line that ends the
/// store, or whose reply could not be written. The lines that are commands are a run of events, so what is proved of
/// runs holds of scripts.
pub fn law_of_scripts()
    ensures volumes { ScriptKeepsVolumes }
    ensures last { LastLineStands }
    ensures run { ScriptIsRun }
{}

/// The headline of the program: it computes nothing, and its promise is what it is for.
///
/// From a set that `make` has made, whatever invocations of the program follow, each ended by a crash at any moment or
/// after it, with one slot lost at most: each that opens the set has volumes that are those after a prefix of the
/// events of the last one that opened it, with every event among them that was answered then.
pub fn headline_of_the_program()
    ensures { HeadlineOfTheProgram }
{}

/// Of what invocations are made: whatever the contracts of `serve_on`, `tell_on`, `apply_on`, `rebuild_on` and
/// `examine_on` say that a command did, if the bank is honest, is something that was done on it, of which the headline
/// of the program speaks. It computes nothing, and looks at no bank: its promise is what it is for.
pub fn law_of_invocations<B: Bank>(bank: &B)
    ensures { CommandsMakeInvocations (B.honest bank.now) }
{}
