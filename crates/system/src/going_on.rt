//! A checkpoint between the calls of a single caller, when nothing waits.
ghost use Rattle.std.specs.Prelude.{◌≡◌, ◌⊎◌, ◌<◌, false, IfErr, OnOk};
ghost use Rattle.disk.specs.Moments.{Passes};
ghost use Rattle.ipc_model.specs.state.State.{State};
ghost use Rattle.store_half.specs.phases.Phases.{Keeps};
ghost use Rattle.system.specs.Calling.{IsResting};
ghost use Rattle.store_fault.specs.declared.fault.StoreFault.{StoreFault};
ghost use Rattle.store_half.specs.Changes.{HasImaged};
ghost use Rattle.store_layout.specs.Gates.{StandForState};
ghost use Rattle.system.specs.Counting.{counted};
ghost use Rattle.system.specs.GoingOn.{GoesOn, GoesOnImage, GoesOnPieces, IsFirstStep, IsRolledOver, RecoversSince, RollsOver, StaysStanding, TakesMemory};

use crate::system::System;
use disk::Disk;
use store_fault::StoreFault;

impl<D: Disk> System<D> {
    /// What is done between two calls. If the segment in use has at least `records` records and no checkpoint is under
    /// way, one is begun and the next segment is taken into use; else one step is done of the image that is being made.
    /// The state stays as it is, also if a crash comes at any moment.
    ///
    /// `NoMemory`: out of memory for what is due, and nothing changed. `Device`: the device failed, and the core is of
    /// no further use.
    pub fn go_on(&mut self, records: u64) -> Result<(), StoreFault>
        requires { IsResting self.old }
        ensures goes { OnOk result (GoesOn D.honest D.view records self.old.core.kernel self.old.store.checkpoint
            self.old.store self.new.store) }
        ensures rests { OnOk result (IsResting self.new) }
        ensures kernel { self.new.core.kernel ≡ self.old.core.kernel }
        ensures tickets { (self.new.core.log.made ≡ self.old.core.log.made) × (self.new.tickets ≡ self.old.tickets) }
        ensures kept { D.honest → StaysStanding D.view self.old self.new result }
        ensures passes { D.honest → RecoversSince D.view self.old self.new }
        ensures faults { IfErr result (λ fault. (fault ≡ StoreFault.Device)
            ⊎ ((fault ≡ StoreFault.NoMemory) × TakesMemory records self.old.store self.old.store.checkpoint
            × (self.new ≡ self.old))) }
        ensures failures { D.failed_calls self.new.store.disk ≡ counted result (D.failed_calls self.old.store.disk) }
    {
        if self.store.is_checkpointing() {
            return self.go_on_image();
        }
        if self.core.log_length() < records {
            return Ok(());
        }
        match self.cut() {
            Ok(true) => self.roll(),
            Ok(false) => Ok(()),
            Err(_) => Err(StoreFault::NoMemory),
        }
    }

    /// The three steps of the rotation, by which the next segment is taken into use.
    fn roll(&mut self) -> Result<(), StoreFault>
        requires { IsFirstStep self.old.store }
        ensures rest { self.new ≡ record self.old { store = self.new.store } }
        ensures rolled { OnOk result (IsRolledOver self.old.store self.new.store) }
        ensures rolls { OnOk result (RollsOver D.honest D.view self.old.store self.new.store) }
        ensures kept { D.honest → (state : State)
            → Keeps (D.view self.old.store.disk) self.old.store.segment self.old.store.checkpoint state state
            → OnOk result (Keeps (D.view self.new.store.disk) self.new.store.segment self.new.store.checkpoint state
            state) }
        ensures passes { D.honest → (state : State)
            → Keeps (D.view self.old.store.disk) self.old.store.segment self.old.store.checkpoint state state
            → Passes (D.view self.old.store.disk) (D.view self.new.store.disk) (StandForState state) }
        ensures faults { IfErr result (λ fault. fault ≡ StoreFault.Device) }
        ensures failures { D.failed_calls self.new.store.disk ≡ counted result (D.failed_calls self.old.store.disk) }
    {
        if !self.roll_close()? {
            unreachable!()
        }
        if !self.roll_head()? {
            unreachable!()
        }
        if !self.roll_open()? {
            unreachable!()
        }
        Ok(())
    }

    /// One step of the image of a checkpoint under way: its closing, a piece, or its end if all of it is written. Its
    /// faults are those of `go_on`.
    fn go_on_image(&mut self) -> Result<(), StoreFault>
        requires { IsResting self.old }
        ensures goes { OnOk result (GoesOnImage D.honest D.view self.old.store self.new.store) }
        ensures rests { OnOk result (IsResting self.new) }
        ensures kernel { self.new.core.kernel ≡ self.old.core.kernel }
        ensures tickets { (self.new.core.log.made ≡ self.old.core.log.made) × (self.new.tickets ≡ self.old.tickets) }
        ensures kept { D.honest → StaysStanding D.view self.old self.new result }
        ensures passes { D.honest → RecoversSince D.view self.old self.new }
        ensures faults { IfErr result (λ fault. (fault ≡ StoreFault.Device)
            ⊎ ((fault ≡ StoreFault.NoMemory) × HasImaged self.old.store.checkpoint 0 × (self.new ≡ self.old))) }
        ensures failures { D.failed_calls self.new.store.disk ≡ counted result (D.failed_calls self.old.store.disk) }
    {
        if self.close_image()? {
            return Ok(());
        }
        self.go_on_pieces()
    }

    /// The next piece of an image that was closed, or its end.
    fn go_on_pieces(&mut self) -> Result<(), StoreFault>
        requires { IsResting self.old }
        ensures goes { OnOk result (GoesOnPieces D.honest D.view self.old.store self.new.store) }
        ensures rests { OnOk result (IsResting self.new) }
        ensures kernel { self.new.core.kernel ≡ self.old.core.kernel }
        ensures tickets { (self.new.core.log.made ≡ self.old.core.log.made) × (self.new.tickets ≡ self.old.tickets) }
        ensures kept { D.honest → StaysStanding D.view self.old self.new result }
        ensures passes { D.honest → RecoversSince D.view self.old self.new }
        ensures faults { IfErr result (λ fault. fault ≡ StoreFault.Device) }
        ensures failures { D.failed_calls self.new.store.disk ≡ counted result (D.failed_calls self.old.store.disk) }
    {
        if self.write_piece()? {
            return Ok(());
        }
        if self.finish()? {
            let _ = self.durable();
        }
        Ok(())
    }
}
