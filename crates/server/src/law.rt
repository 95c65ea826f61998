//! What is served is a run of events and commits.
ghost use Rattle.server.specs.ServingLaw.{EndIsAsking, ServedSetsMakeInvocations, ServingIsAsking};

use sector_model::Bank;

/// What was served, and what ended the store, are events and commits of writes, one after another: so what is proved
/// of these, crashes among it, holds of what is served.
pub fn law_of_serving()
    ensures serving { ServingIsAsking }
    ensures end { EndIsAsking }
{}

/// What `serve_set` and `serve_replaced` say that was done on a bank, if it is honest, is something of which the headline
/// of the program speaks. It computes nothing, and looks at no bank: its promise is what it is for.
pub fn law_of_served_sets<B: Bank>(bank: &B)
    ensures { ServedSetsMakeInvocations (B.honest bank.now) }
{}
