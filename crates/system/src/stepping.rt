//! The events of a core, one by one and in lists.
ghost use Rattle.std.specs.Prelude.{◌≡◌, IfOk, OnErr, ◌≤◌, ◌+◌};
ghost use Rattle.ipc_model.specs.state.State.{State};
ghost use Rattle.ipc_model.specs.world.World.{World};
ghost use Rattle.system.specs.Core.{IsNumbered, RunsThrough, Simulates, StandsFor};
ghost use Rattle.system.specs.Counting.{counted_event, counted_events};

use crate::event::{Event, Outcome};
use crate::kernel_half::SubmitFault;
use crate::system::System;
use disk::Disk;
use ipc_model::Call;
use std::alloc::{AllocError, Global};

impl<D: Disk> System<D> {
    /// One event, which is one of the specified events (`Simulates`): its answer is one that the specification allows,
    /// and the core stands for the world after it. On an honest disk, a crash at any moment of it leaves the state
    /// after a prefix of the calls that are applied after it, no fewer than were acknowledged before it; a crash after
    /// it, no fewer than were acknowledged after it. It makes at most four calls of the device.
    pub fn step(&mut self, event: &Event) -> Outcome
        ensures steps { Simulates D.honest D.view event.now result self.old self.new }
        ensures number { IsNumbered self.old result }
        ensures failures { D.failed_calls self.new.store.disk
            ≡ counted_event result (D.failed_calls self.old.store.disk) }
        ensures calls { D.calls self.new.store.disk ≤ D.calls self.old.store.disk + 4 }
    {
        match event {
            Event::Submit { space, call } => self.submit_event(*space, call),
            Event::Take => self.take_event(),
            Event::Append => self.append_event(),
            Event::Durable => self.durable_event(),
            Event::Reply { ticket } => self.reply_event(*ticket),
            Event::Cut => self.cut_event(),
            Event::RollClose => self.roll_close_event(),
            Event::RollHead => self.roll_head_event(),
            Event::RollOpen => self.roll_open_event(),
            Event::ImageClose => self.image_close_event(),
            Event::Piece => self.piece_event(),
            Event::Finish => self.finish_event(),
        }
    }

    /// Events one after another (`RunsThrough`). Room for their answers is allocated first: if that fails, none of them
    /// was done.
    pub fn run(&mut self, alloc: Global, events: &[Event]) -> Result<Vec<Outcome>, AllocError>
        ensures runs { IfOk result (λ outcomes. (base : State) (world : World)
            → StandsFor D.honest D.view base world self.old
            → RunsThrough D.honest D.view base world events.now outcomes.items self.old self.new) }
        ensures failures { IfOk result
            (λ outcomes. D.failed_calls self.new.store.disk
            ≡ counted_events outcomes.items (D.failed_calls self.old.store.disk)) }
        ensures err { OnErr result (self.new ≡ self.old) }
    {
        let mut outcomes = Vec::with_capacity(alloc, events.len())?;
        for event in events {
            outcomes.push_reserved(self.step(event));
        }
        Ok(outcomes)
    }

    fn submit_event(&mut self, space: u32, call: &Call) -> Outcome
        ensures steps { Simulates D.honest D.view (Event.Submit space call.now) result self.old self.new }
        ensures number { IsNumbered self.old result }
        ensures failures { D.failed_calls self.new.store.disk
            ≡ counted_event result (D.failed_calls self.old.store.disk) }
        ensures calls { D.calls self.new.store.disk
            ≤ D.calls self.old.store.disk + 4 }
    {
        match self.submit(space, call) {
            Ok(number) => Outcome::Ticket(number),
            Err(SubmitFault::EpochFull) => Outcome::EpochFull,
            Err(SubmitFault::NoMemory) => Outcome::NoMemory,
        }
    }

    fn take_event(&mut self) -> Outcome
        ensures steps { Simulates D.honest D.view Event.Take result self.old self.new }
        ensures number { IsNumbered self.old result }
        ensures failures { D.failed_calls self.new.store.disk
            ≡ counted_event result (D.failed_calls self.old.store.disk) }
        ensures calls { D.calls self.new.store.disk ≤ D.calls self.old.store.disk + 4 }
    {
        if self.take() {
            return Outcome::Done;
        }
        Outcome::NotNow
    }

    fn append_event(&mut self) -> Outcome
        ensures steps { Simulates D.honest D.view Event.Append result self.old self.new }
        ensures number { IsNumbered self.old result }
        ensures failures { D.failed_calls self.new.store.disk
            ≡ counted_event result (D.failed_calls self.old.store.disk) }
        ensures calls { D.calls self.new.store.disk ≤ D.calls self.old.store.disk + 4 }
    {
        match self.append() {
            Ok(true) => Outcome::Done,
            Ok(false) => Outcome::NotNow,
            Err(fault) => Outcome::Store(fault),
        }
    }

    fn durable_event(&mut self) -> Outcome
        ensures steps { Simulates D.honest D.view Event.Durable result self.old self.new }
        ensures number { IsNumbered self.old result }
        ensures failures { D.failed_calls self.new.store.disk
            ≡ counted_event result (D.failed_calls self.old.store.disk) }
        ensures calls { D.calls self.new.store.disk ≤ D.calls self.old.store.disk + 4 }
    {
        if self.durable() {
            return Outcome::Done;
        }
        Outcome::NotNow
    }

    fn reply_event(&mut self, ticket: u64) -> Outcome
        ensures steps { Simulates D.honest D.view (Event.Reply ticket) result self.old self.new }
        ensures number { IsNumbered self.old result }
        ensures failures { D.failed_calls self.new.store.disk
            ≡ counted_event result (D.failed_calls self.old.store.disk) }
        ensures calls { D.calls self.new.store.disk ≤ D.calls self.old.store.disk + 4 }
    {
        match self.reply(ticket) {
            Some(reply) => Outcome::Reply(reply),
            None => Outcome::NotNow,
        }
    }

    fn cut_event(&mut self) -> Outcome
        ensures steps { Simulates D.honest D.view Event.Cut result self.old self.new }
        ensures number { IsNumbered self.old result }
        ensures failures { D.failed_calls self.new.store.disk
            ≡ counted_event result (D.failed_calls self.old.store.disk) }
        ensures calls { D.calls self.new.store.disk ≤ D.calls self.old.store.disk + 4 }
    {
        match self.cut() {
            Ok(true) => Outcome::Done,
            Ok(false) => Outcome::NotNow,
            Err(_) => Outcome::NoMemory,
        }
    }

    fn roll_close_event(&mut self) -> Outcome
        ensures steps { Simulates D.honest D.view Event.RollClose result self.old self.new }
        ensures number { IsNumbered self.old result }
        ensures failures { D.failed_calls self.new.store.disk
            ≡ counted_event result (D.failed_calls self.old.store.disk) }
        ensures calls { D.calls self.new.store.disk ≤ D.calls self.old.store.disk + 4 }
    {
        match self.roll_close() {
            Ok(true) => Outcome::Done,
            Ok(false) => Outcome::NotNow,
            Err(fault) => Outcome::Store(fault),
        }
    }

    fn roll_head_event(&mut self) -> Outcome
        ensures steps { Simulates D.honest D.view Event.RollHead result self.old self.new }
        ensures number { IsNumbered self.old result }
        ensures failures { D.failed_calls self.new.store.disk
            ≡ counted_event result (D.failed_calls self.old.store.disk) }
        ensures calls { D.calls self.new.store.disk ≤ D.calls self.old.store.disk + 4 }
    {
        match self.roll_head() {
            Ok(true) => Outcome::Done,
            Ok(false) => Outcome::NotNow,
            Err(fault) => Outcome::Store(fault),
        }
    }

    fn roll_open_event(&mut self) -> Outcome
        ensures steps { Simulates D.honest D.view Event.RollOpen result self.old self.new }
        ensures number { IsNumbered self.old result }
        ensures failures { D.failed_calls self.new.store.disk
            ≡ counted_event result (D.failed_calls self.old.store.disk) }
        ensures calls { D.calls self.new.store.disk ≤ D.calls self.old.store.disk + 4 }
    {
        match self.roll_open() {
            Ok(true) => Outcome::Done,
            Ok(false) => Outcome::NotNow,
            Err(fault) => Outcome::Store(fault),
        }
    }

    fn image_close_event(&mut self) -> Outcome
        ensures steps { Simulates D.honest D.view Event.ImageClose result self.old self.new }
        ensures number { IsNumbered self.old result }
        ensures failures { D.failed_calls self.new.store.disk
            ≡ counted_event result (D.failed_calls self.old.store.disk) }
        ensures calls { D.calls self.new.store.disk ≤ D.calls self.old.store.disk + 4 }
    {
        match self.close_image() {
            Ok(true) => Outcome::Done,
            Ok(false) => Outcome::NotNow,
            Err(fault) => Outcome::Store(fault),
        }
    }

    fn piece_event(&mut self) -> Outcome
        ensures steps { Simulates D.honest D.view Event.Piece result self.old self.new }
        ensures number { IsNumbered self.old result }
        ensures failures { D.failed_calls self.new.store.disk
            ≡ counted_event result (D.failed_calls self.old.store.disk) }
        ensures calls { D.calls self.new.store.disk ≤ D.calls self.old.store.disk + 4 }
    {
        match self.write_piece() {
            Ok(true) => Outcome::Done,
            Ok(false) => Outcome::NotNow,
            Err(fault) => Outcome::Store(fault),
        }
    }

    fn finish_event(&mut self) -> Outcome
        ensures steps { Simulates D.honest D.view Event.Finish result self.old self.new }
        ensures number { IsNumbered self.old result }
        ensures failures { D.failed_calls self.new.store.disk
            ≡ counted_event result (D.failed_calls self.old.store.disk) }
        ensures calls { D.calls self.new.store.disk ≤ D.calls self.old.store.disk + 4 }
    {
        match self.finish() {
            Ok(true) => Outcome::Done,
            Ok(false) => Outcome::NotNow,
            Err(fault) => Outcome::Store(fault),
        }
    }
}
