//! The numbers of rights to a port.
ghost use Rattle.std.specs.Prelude.{◌≡◌, ◌==◌, not};
ghost use Rattle.ipc_model.specs.state.Placed.{send_count, send_once_count};

use crate::IpcState;

impl IpcState {
    /// Returns the number of send rights to a port, held or in messages.
    pub fn send_count(&self, serial: u64) -> u64
        ensures { result ≡ send_count self.now.current serial }
    {
        self.spaces.sends(serial) + self.ports.sends(serial)
    }

    /// Returns the number of send-once rights to a port, held, in messages, or as the targets of requests.
    pub fn send_once_count(&self, serial: u64) -> u64
        ensures { result ≡ send_once_count self.now.current serial }
    {
        self.spaces.send_onces(serial) + self.ports.send_onces(serial)
    }

    /// Returns true if there are send rights to a port, held or in messages.
    pub fn has_senders(&self, serial: u64) -> bool
        ensures { result ≡ not (send_count self.now.current serial == 0) }
    {
        self.send_count(serial) != 0
    }
}
