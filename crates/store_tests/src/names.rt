//! Spaces and names for tests, made if there is room and memory.
ghost use Rattle.port_space.specs.References.{AreFewReferences};

use codes::{MAX_NAMES, MAX_SPACES};
use ipc_model::{Entry, PortRights};
use spaces::Spaces;

/// Makes a space.
pub(crate) fn add_space(spaces: &mut Spaces, space: u32) -> Option<()> {
    if spaces.contains(space) || spaces.len() >= MAX_SPACES {
        return None;
    }
    spaces.add(space).ok()
}

/// Replaces the entry of a name in a space.
fn put(spaces: &mut Spaces, space: u32, name: u32, entry: Entry) -> Option<()>
    requires { AreFewReferences entry }
{
    if spaces.name_count(space) >= MAX_NAMES {
        return None;
    }
    spaces.put_name(space, name, entry).ok()?;
    Some(())
}

/// Puts a send right under a name, with the target of a dead-name request.
pub(crate) fn hold(
    spaces: &mut Spaces,
    space: u32,
    name: u32,
    port: u64,
    dead_name_target: Option<u64>,
) -> Option<()> {
    let rights = PortRights {
        port,
        receive: false,
        send: 1,
        dead_name_target,
    };
    put(spaces, space, name, Entry::Port(rights))
}

/// Puts a send-once right under a name, with the target of a dead-name request.
pub(crate) fn hold_once(
    spaces: &mut Spaces,
    space: u32,
    name: u32,
    port: u64,
    dead_name_target: Option<u64>,
) -> Option<()> {
    let once = Entry::SendOnce {
        port,
        dead_name_target,
    };
    put(spaces, space, name, once)
}

/// Removes a name.
pub(crate) fn remove(spaces: &mut Spaces, space: u32, name: u32) -> Option<()> {
    spaces.remove_name(space, name).ok()?;
    Some(())
}

/// Moves the entry of one name to another.
pub(crate) fn rename(spaces: &mut Spaces, space: u32, from: u32, to: u32) -> Option<()> {
    if spaces.entry(space, to).is_some() {
        return None;
    }
    spaces.rename(space, from, to).ok()?;
    Some(())
}
