//! The messages in queues: queries and changes.
ghost use Rattle.std.specs.Prelude.{◌≡◌, ◌++◌, true, length, flat_map, option_map, take, OnOk, OnErr};
ghost use Rattle.ipc_model.specs.effects.Effects.{queued, releases_of, release_of, release_of_reply};
ghost use Rattle.ipc_model.specs.messages.Receiving.{without_oldest};
ghost use Rattle.ipc_model.specs.state.Circular.{carrier_of};
ghost use Rattle.ipc_model.specs.state.Ipc.{next_count};
ghost use Rattle.ipc_state.specs.Live.{carries_live};
ghost use Rattle.ipc_state.specs.Oldest.{counted_on, oldest_gone, IsOldest};
ghost use Rattle.ipc_state.specs.Running.{at_rest};
ghost use Rattle.ports.specs.Passed.{changed, messages_at, lives_in, seen_message, seen_right};

use crate::IpcState;
use effects::Effects;
use ipc_model::{CarriedRight, Message};
use ports::{PortNumbers, Ports};
use std::alloc::AllocError;

impl IpcState {
    /// Returns the number of messages in a port's queue, or 0 if it is dead.
    pub fn message_count(&self, serial: u64) -> u32
        ensures { result ≡ length (messages_at self.now.current.ports serial) }
    {
        self.ports.message_count(serial)
    }

    /// Appends a message to a port's queue, regardless of the limit, or drops it if the port is dead. Its rights are to
    /// live ports. If an allocation fails, the changes are rolled back.
    pub fn queue_message(&mut self, serial: u64, message: Message) -> Result<(), AllocError>
        requires live { carries_live self.old.current message ≡ true }
        ensures ok { OnOk result (self.new ≡ record self.old { current = queued self.old.current serial message }) }
        ensures err { OnErr result (self.new ≡ at_rest self.old.before) }
    {
        match self.ports.push(serial, message) {
            Ok(()) => Ok(()),
            Err(error) => {
                self.spaces.roll_back();
                self.members.roll_back();
                Err(error)
            }
        }
    }

    /// Returns the port whose queue contains the receive right of a port, if there is one.
    pub fn carrier(&self, serial: u64) -> Option<u64>
        ensures { result ≡ carrier_of self.now.current serial }
    {
        self.ports.carrier(serial)
    }

    /// Appends the releases of the rights of a port's messages, oldest message first.
    pub fn releases(&self, serial: u64, effects: &mut Effects) -> Result<(), AllocError>
        ensures { OnOk result (effects.new ≡ effects.old
            ++ flat_map releases_of (messages_at self.now.current.ports serial)) }
    {
        for index in 0..self.message_count(serial) {
            if let Some(message) = self.ports.message_as_sent(serial, index) {
                release(&self.ports, message, effects)?;
            }
        }
        Ok(())
    }

    /// Returns the oldest message of a port as it was sent, if there is one. `seen` gives its rights as they are now.
    pub fn oldest(&self, serial: u64) -> Option<&Message>
        ensures { IsOldest (lives_in self.now.current.ports) (messages_at self.now.current.ports serial) result }
    {
        oldest_in(&self.ports, serial)
    }

    /// Returns a right of a sent message as it is now: with `MACH_PORT_DEAD` if its port has died.
    pub fn seen(&self, carried: CarriedRight) -> CarriedRight
        ensures { result ≡ seen_right (lives_in self.now.current.ports) carried }
    {
        self.ports.seen(carried)
    }

    /// Appends the release of the reply right of a port's oldest message, then the releases of its body rights, if
    /// there is a message.
    pub fn release_oldest(&self, serial: u64, effects: &mut Effects) -> Result<(), AllocError>
        ensures { OnOk result (effects.new ≡ effects.old
            ++ flat_map releases_of (take 1 (messages_at self.now.current.ports serial))) }
    {
        release_oldest_in(&self.ports, serial, effects)
    }

    /// Removes the oldest message from a port's queue, if the port is live, and increments its sequence number. If an
    /// allocation fails, the changes are rolled back.
    pub fn take_message(&mut self, serial: u64) -> Result<(), AllocError>
        ensures ok { OnOk result (self.new ≡ record self.old { current = without_oldest self.old.current serial }) }
        ensures err { OnErr result (self.new ≡ at_rest self.old.before) }
    {
        match take_and_count(&mut self.ports, serial) {
            Ok(()) => Ok(()),
            Err(error) => {
                self.spaces.roll_back();
                self.ports.roll_back();
                self.members.roll_back();
                Err(error)
            }
        }
    }
}

/// Returns the oldest message of a port as it was sent, if there is one.
fn oldest_in(ports: &Ports, serial: u64) -> Option<&Message>
    ensures { IsOldest (lives_in ports.now.current.ports) (messages_at ports.now.current.ports serial) result }
{
    ports.message_as_sent(serial, 0)
}

/// Appends the releases of a port's oldest message, if there is one.
fn release_oldest_in(ports: &Ports, serial: u64, effects: &mut Effects) -> Result<(), AllocError>
    ensures { OnOk result (effects.new ≡ effects.old
        ++ flat_map releases_of (take 1 (messages_at ports.now.current.ports serial))) }
{
    let Some(message) = oldest_in(ports, serial) else {
        return Ok(());
    };
    release(ports, message, effects)?;
    Ok(())
}

/// Removes the oldest message of a live port, and increments its sequence number.
fn take_and_count(ports: &mut Ports, serial: u64) -> Result<(), AllocError>
    ensures ok { OnOk result (ports.new
        ≡ record ports.old {
          current = record ports.old.current
              { ports = changed ports.old.current.ports serial oldest_gone };
        }) }
    ensures before { ports.new.before ≡ ports.old.before }
{
    let Some(numbers) = ports.numbers(serial) else {
        return Ok(());
    };
    let counted = count_on(numbers);
    ports.take(serial)?;
    ports.set_numbers(serial, counted)?;
    Ok(())
}

fn count_on(numbers: PortNumbers) -> PortNumbers
    ensures { result ≡ counted_on numbers }
{
    PortNumbers {
        sequence_number: next_number(numbers.sequence_number),
        ..numbers
    }
}

/// Returns the successor of a sequence number. The last one is followed by 0.
fn next_number(number: u32) -> u32
    ensures { result ≡ next_count number }
{
    number.wrapping_add(1)
}

/// Appends the releases of a message's reply right and of those body rights whose ports are still live.
#[tactic(auto, using(crate::proofs::Releasing::released_all))]
fn release(ports: &Ports, message: &Message, effects: &mut Effects) -> Result<(), AllocError>
    ensures { OnOk result (effects.new ≡ effects.old
        ++ releases_of (seen_message (lives_in ports.now.current.ports) message.now)) }
{
    release_reply(ports, message.reply, effects)?;
    release_rights(ports, message.rights.as_slice(), effects)?;
    Ok(())
}

fn release_reply(
    ports: &Ports,
    reply: Option<CarriedRight>,
    effects: &mut Effects,
) -> Result<(), AllocError>
    ensures { OnOk result (effects.new ≡ effects.old
        ++ release_of_reply (option_map (seen_right (lives_in ports.now.current.ports)) reply)) }
{
    match reply {
        Some(reply) => effects.release(ports.seen(reply)),
        None => Ok(()),
    }
}

fn release_rights(
    ports: &Ports,
    rights: &[CarriedRight],
    effects: &mut Effects,
) -> Result<(), AllocError>
    ensures { OnOk result (effects.new ≡ effects.old ++ flat_map
        (λ r. release_of (seen_right (lives_in ports.now.current.ports) r)) rights.now) }
{
    for right in rights {
        effects.release(ports.seen(*right))?;
    }
    Ok(())
}
