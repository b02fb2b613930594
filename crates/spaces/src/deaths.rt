// The effect of a port's death on names.
ghost use Rattle.std.specs.Prelude.{◌≡◌, ◌<◌, ◌-◌, ◌+◌, ◌^◌, ◌%◌, ◌/◌, ◌++◌, Some, None, OnOk, OnErr, MatchOption, flat_map};
ghost use Rattle.std.specs.FinMap as map;
ghost use Rattle.ipc_model.specs.effects.Effects.{dead_name_of_entry, entry_after_death, is_name_of, map_values, one_more_if, without_target};
ghost use Rattle.ipc_model.specs.declared.entry.Entry.TheVariants.{Dead};
ghost use Rattle.port_space.specs.References.{AreFewReferences};
ghost use Rattle.spaces.specs.Burying.{IsNextMention};
ghost use Rattle.spaces.specs.Indexes.{AreSmall};
ghost use Rattle.spaces.specs.Looking.{entry_in};
ghost use Rattle.spaces.specs.Slots.{spaces_at_rest, names_changed};
ghost use Rattle.spaces.specs.Walks.{notice_of};

use crate::Spaces;
use crate::indexes::target_of;
use effects::Effects;
use ipc_model::{Entry, PortRights};
use std::alloc::AllocError;

impl Spaces {
    /// Handles a port's death. Names with rights to it become dead names, each with a notice for its dead-name request,
    /// in the order of space and name. Dead-name requests whose target it is are removed. If an allocation fails, the
    /// changes are rolled back.
    pub fn bury(&mut self, port: u64, effects: &mut Effects) -> Result<(), AllocError>
        ensures ok { OnOk result (self.new
            ≡ record self.old { current = map_values (map_values (entry_after_death port)) self.old.current }) }
        ensures notified { OnOk result
            (effects.new ≡ effects.old ++ flat_map
            (λ s. flat_map (λ e. dead_name_of_entry port e.0 e.1) (map.entries s.1))
            (map.entries self.old.current)) }
        ensures err { OnErr result (self.new ≡ spaces_at_rest self.old.before) }
    {
        self.show_counts_small();
        let mut at: u64 = 0;
        while let Some(place) = self.next_mention(port, at) {
            self.bury_at(port, place, effects)?;
            let Some(next) = place.checked_add(1) else {
                self.show_counts_small();
                return Ok(());
            };
            at = next;
        }
        self.show_counts_small();
        Ok(())
    }

    /// Proves that names and space numbers fit 32 bits. It does nothing else.
    pub fn show_counts_small(&self)
        ensures { AreSmall self.now.current }
    {
        let _ = &self.table;
    }

    /// Returns the first place from `from` on whose name has a right to a port, or whose dead-name request has it as
    /// target.
    fn next_mention(&self, port: u64, from: u64) -> Option<u64>
        ensures { IsNextMention port self.now.current from result }
    {
        match (
            self.next_holder(port, from),
            self.next_requester(port, from),
        ) {
            (Some(holder), Some(requester)) => Some(holder.min(requester)),
            (Some(holder), None) => Some(holder),
            (None, requester) => requester,
        }
    }

    /// Replaces the entry at a place by its entry after the death of a port, and appends the notice for its request.
    fn bury_at(&mut self, port: u64, number: u64, effects: &mut Effects) -> Result<(), AllocError>
        ensures ok { OnOk result (MatchOption (entry_in self.old.current (number / 2 ^ 32) (number % 2 ^ 32))
            (self.new ≡ self.old)
            (λ entry. self.new ≡ record self.old {
              current = names_changed self.old.current (number / 2 ^ 32)
                  (λ names. map.insert names (number % 2 ^ 32) (entry_after_death port entry));
            })) }
        ensures notified { OnOk result (effects.new ≡ effects.old ++ notice_of port self.old.current number) }
        ensures err { OnErr result (self.new ≡ spaces_at_rest self.old.before) }
    {
        let space = (number / (1 << 32)) as u32;
        let name = (number % (1 << 32)) as u32;
        let Some(entry) = self.entry(space, name) else {
            return Ok(());
        };
        self.put_name(space, name, after_death(entry, port))?;
        if notify_of(entry, port, name, effects).is_err() {
            self.roll_back();
            return Err(AllocError);
        }
        Ok(())
    }
}

/// Appends the notice for the dead-name request of a name with a right to a port, if it has one.
fn notify_of(entry: Entry, port: u64, name: u32, effects: &mut Effects) -> Result<(), AllocError>
    ensures { OnOk result (effects.new ≡ effects.old ++ dead_name_of_entry port name entry) }
{
    if !is_name_of(entry, port) {
        return Ok(());
    }
    effects.dead_name(name, target_of(Some(entry)))?;
    Ok(())
}

/// Returns true if an entry has a right to a port.
fn is_name_of(entry: Entry, port: u64) -> bool
    ensures { result ≡ is_name_of port entry }
{
    match entry {
        Entry::Port(rights) => rights.port == port,
        Entry::SendOnce { port: other, .. } => other == port,
        Entry::Set | Entry::Dead { .. } => false,
    }
}

/// Returns the entry of a name after the death of a port.
#[tactic(auto, using(crate::specs::Burying::few_after_death))]
fn after_death(entry: Entry, port: u64) -> Entry
    requires few { AreFewReferences entry }
    ensures value { result ≡ entry_after_death port entry }
    ensures few { AreFewReferences result }
{
    match entry {
        Entry::Port(rights) if rights.port == port => {
            dead_name(rights.send, rights.dead_name_target)
        }
        Entry::Port(rights) => Entry::Port(PortRights {
            dead_name_target: without_target(port, rights.dead_name_target),
            ..rights
        }),
        Entry::SendOnce {
            port: other,
            dead_name_target,
        } if other == port => dead_name(1, dead_name_target),
        Entry::SendOnce {
            port: other,
            dead_name_target,
        } => Entry::SendOnce {
            port: other,
            dead_name_target: without_target(port, dead_name_target),
        },
        Entry::Set | Entry::Dead { .. } => entry,
    }
}

/// Returns a dead name with these references, and one more if there is a dead-name request.
fn dead_name(references: u32, target: Option<u64>) -> Entry
    requires { references < 2 ^ 32 - 1 }
    ensures { result ≡ Dead (references + one_more_if target) }
{
    let more = match target {
        Some(_) => 1,
        None => 0,
    };
    Entry::Dead {
        references: references + more,
    }
}

/// Returns the target of a request, or `None` if it is this port.
fn without_target(port: u64, target: Option<u64>) -> Option<u64>
    ensures { result ≡ without_target port target }
{
    match target {
        Some(other) if other != port => Some(other),
        _ => None,
    }
}
