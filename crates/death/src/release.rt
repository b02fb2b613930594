ghost use Rattle.std.specs.Prelude.{◌≡◌, OnOk};
ghost use Rattle.std.specs.FinMap as map;
ghost use Rattle.ipc_model.specs.effects.Effects.{released_if_live};

use crate::notices::notify;
use effects::Notice;
use ipc_model::RightKind;
use std::alloc::{AllocError, Global};
use transit::{IpcState, PortNumbers};

/// Handles a released send right. If it was the last one, a no-senders request is taken, and its notice is sent.
pub fn release_send(alloc: Global, state: &mut IpcState, serial: u64) -> Result<(), AllocError>
    ensures ok { OnOk result (state.new.current
        ≡ (released_if_live state.old.current serial RightKind.Send (map.get state.old.current.ports serial)).0) }
    ensures before { state.new.before ≡ state.old.before }
{
    let Some(numbers) = state.numbers(serial) else {
        return Ok(());
    };
    let Some(target) = numbers.no_senders_target else {
        return Ok(());
    };
    if state.has_senders(serial) {
        return Ok(());
    }
    let notified = PortNumbers {
        no_senders_target: None,
        ..numbers
    };
    state.set_numbers(serial, notified)?;
    let count = numbers.make_send_count;
    notify(alloc, state, target, Notice::NoSenders { count })
}

/// Handles a released send-once right: uses it to send a send-once notice.
pub fn release_send_once(alloc: Global, state: &mut IpcState, serial: u64) -> Result<(), AllocError>
    ensures ok { OnOk result (state.new.current
        ≡ (released_if_live state.old.current serial RightKind.SendOnce (map.get state.old.current.ports serial)).0) }
    ensures before { state.new.before ≡ state.old.before }
{
    notify(alloc, state, serial, Notice::SendOnce)
}
