//! Events are done one after another.
ghost use Rattle.std.specs.Prelude.{◌≡◌, ◌≢◌, ◌↔◌, ◌+◌, ◌<◌, ◌≤◌, length, map, vec_len, vec_capacity, None, Err};
ghost use Rattle.sector_model.specs.declared.refusal.Refusal.TheVariants.{Memory};
ghost use Rattle.array_io.specs.Believed.OpenArray.{IsHonest};
ghost use Rattle.volume_table.specs.Events.{Acknowledges, event_of};
ghost use Rattle.volume_table.specs.StoreFunctions.{RunsEvents};
ghost use Rattle.volume_table.specs.OpenStore.{store_view};

use super::Store;
use crate::event::Event;
use sector_model::{Bank, Refusal};
use std::alloc::Global;

impl<B: Bank> Store<B> {
    /// Does the events in order. After each one that was answered, also where that was a refusal, `acks` gets the
    /// number of device calls made until then: a crash at that call or later keeps what the event did.
    ///
    /// `Memory` where there is no room for all acks, and none to be had; then nothing was done. `TwoLost` and `Worn`
    /// end the run with the store, at the first event that is answered so, which gets no ack. A store that was ended
    /// answers the refusal that ended it.
    pub fn run(
        &mut self,
        alloc: Global,
        events: &[Event<'_>],
        acks: &mut Vec<u64>,
    ) -> Result<(), Refusal>
        ensures honest { IsHonest self.old.array ↔ IsHonest self.new.array }
        ensures runs { RunsEvents (IsHonest self.old.array) (map event_of events.now) (store_view self.old)
            (store_view self.new) acks.old.items acks.new.items result }
        ensures memory { self.old.ended ≡ None → vec_len acks.old + length events.now ≤ vec_capacity acks.old
            → result ≢ Err Memory }
    {
        if let Some(refusal) = self.ended {
            return Err(refusal);
        }
        acks.reserve(events.len())?;
        for event in events {
            self.acknowledge(alloc, event, acks)?;
        }
        Ok(())
    }

    // Does one event of an open store (condition), and puts its ack after those that are there, for which there is room
    // (condition). The refusal is one that ended the store.
    fn acknowledge(
        &mut self,
        alloc: Global,
        event: &Event<'_>,
        acks: &mut Vec<u64>,
    ) -> Result<(), Refusal>
        requires going { self.old.ended ≡ None }
        requires room { vec_len acks.old < vec_capacity acks.old }
        ensures honest { IsHonest self.old.array ↔ IsHonest self.new.array }
        ensures acknowledges { Acknowledges (IsHonest self.old.array) (event_of event.now) (store_view self.old)
            (store_view self.new) acks.old.items acks.new.items result }
        ensures capacity { vec_capacity acks.new ≡ vec_capacity acks.old }
    {
        let _ = self.apply(alloc, event);
        if let Some(refusal) = self.ended {
            return Err(refusal);
        }
        acks.push_reserved(self.array.bank.now());
        Ok(())
    }
}
