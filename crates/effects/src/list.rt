ghost use Rattle.std.specs.Prelude.{◌≡◌, [], ◌∷◌, ◌++◌, OnOk, OnErr, MatchOption, flat_map};
ghost use Rattle.ipc_model.specs.effects.Effects as machine;
ghost use Rattle.effects.specs.Meaning.{effect_meant};

use crate::{Effect, Notice};
use ipc_model::{CarriedRight, Message, PortInMessage, RightKind};
use std::alloc::{AllocError, Global};
use std::collections::VecDeque;
use std::marker::Model;

/// The pending effects. Contracts see them as a list.
#[derive(Drop)]
pub struct Effects {
    waiting: VecDeque<Effect>,
}

impl Model for Effects {
    ghost use Rattle.std.specs.Prelude.{List, map};
    ghost use Rattle.ipc_model.specs.effects.Effects.{Effect};

    ghost Value = { List Effect };

    ghost use Rattle.effects.specs.Meaning.{effect_meant};

    ghost view = { λ e. map effect_meant e.waiting.items };
}

impl Effects {
    /// Creates an empty list. It allocates nothing.
    pub fn new(alloc: Global) -> Self
        ensures { result ≡ [] }
    {
        Effects {
            waiting: VecDeque::new(alloc),
        }
    }

    /// Appends an effect. If an allocation fails, nothing changed.
    pub fn push(&mut self, effect: Effect) -> Result<(), AllocError>
        ensures ok { OnOk result (self.new ≡ self.old ++ effect_meant effect ∷ []) }
        ensures err { OnErr result (self.new ≡ self.old) }
    {
        self.waiting.push_back(effect)?;
        Ok(())
    }

    /// Removes and returns the first effect, if there is one.
    pub fn take(&mut self) -> Option<Effect>
        ensures { MatchOption result ((self.old ≡ []) × (self.new ≡ []))
            (λ first. self.old ≡ effect_meant first ∷ self.new) }
    {
        self.waiting.pop_front()
    }

    /// Appends the release of a right that a message carried, if it is a right to a port.
    pub fn release(&mut self, carried: CarriedRight) -> Result<(), AllocError>
        ensures ok { OnOk result (self.new ≡ self.old ++ machine.release_of carried) }
        ensures err { OnErr result (self.new ≡ self.old) }
    {
        let PortInMessage::Live(port) = carried.port else {
            return Ok(());
        };
        let kind = carried.kind;
        self.push(Effect::Release { kind, port })
    }

    /// Appends the releases of a destroyed message's reply right and body rights, in this order.
    pub fn release_message(&mut self, message: &Message) -> Result<(), AllocError>
        ensures { OnOk result (self.new ≡ self.old ++ machine.releases_of message.now) }
    {
        if let Some(reply) = message.reply {
            self.release(reply)?;
        }
        self.release_rights(message.rights.as_slice())
    }

    fn release_rights(&mut self, rights: &[CarriedRight]) -> Result<(), AllocError>
        ensures { OnOk result (self.new ≡ self.old ++ flat_map machine.release_of rights.now) }
    {
        for right in rights {
            self.release(*right)?;
        }
        Ok(())
    }

    /// Appends the notice that a name with this request was removed, if there is a request.
    pub fn port_deleted(&mut self, name: u32, request: Option<u64>) -> Result<(), AllocError>
        ensures ok { OnOk result (self.new ≡ self.old ++ machine.port_deleted name request) }
        ensures err { OnErr result (self.new ≡ self.old) }
    {
        let Some(target) = request else {
            return Ok(());
        };
        let notice = Notice::PortDeleted { name };
        self.push(Effect::Notify { target, notice })
    }

    /// Appends the notice that a name with this request became a dead name, if there is a request.
    pub fn dead_name(&mut self, name: u32, request: Option<u64>) -> Result<(), AllocError>
        ensures ok { OnOk result (self.new ≡ self.old ++ machine.dead_name_notice name request) }
        ensures err { OnErr result (self.new ≡ self.old) }
    {
        let Some(target) = request else {
            return Ok(());
        };
        let notice = Notice::DeadName { name };
        self.push(Effect::Notify { target, notice })
    }

    /// Appends the release of a request's target, if there is a request.
    pub fn release_target(&mut self, request: Option<u64>) -> Result<(), AllocError>
        ensures ok { OnOk result (self.new ≡ self.old ++ machine.release_of_target request) }
        ensures err { OnErr result (self.new ≡ self.old) }
    {
        let Some(port) = request else {
            return Ok(());
        };
        let kind = RightKind::SendOnce;
        self.push(Effect::Release { kind, port })
    }
}
