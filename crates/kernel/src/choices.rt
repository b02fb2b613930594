ghost use Rattle.std.specs.Prelude.{◌≡◌, IfOk};
ghost use Rattle.ipc_model.specs.declared.plain_reply.PlainReply.{PlainReply};
ghost use Rattle.kernel.specs.Choosing as choosing;
ghost use Rattle.receiving.specs.Shows as shows;

use codes::KernReturn;
use ipc_model::{PlainReply, Sequence};
use receiving::{Preference, names_shown};
use std::alloc::{AllocError, Global};

/// The choices that a reply shows, among those that its call leaves open.
#[derive(Drop)]
pub struct Shown {
    /// The name of a new right.
    pub name: Option<u32>,
    /// The number of a new space, and its first name.
    pub space: Option<(u32, u32)>,
    /// Selects the message that was received.
    pub preference: Preference,
    /// The new names of the rights in a received message.
    pub names: Sequence<u32>,
}

impl Shown {
    /// Returns no choices: the least unused names and numbers are chosen. It allocates nothing.
    pub fn nothing(alloc: Global) -> Shown {
        Shown {
            name: None,
            space: None,
            preference: Preference::Least,
            names: Sequence::new(Vec::new(alloc)),
        }
    }

    /// Returns the choices that a reply shows.
    pub fn of(alloc: Global, reply: &PlainReply) -> Result<Shown, AllocError>
        ensures { IfOk result (λ shown. shown ≡ choosing.shown_by reply.now) }
    {
        let names = names_shown(alloc, encoding_in(reply))?;
        Ok(Shown {
            name: name_shown(reply),
            space: space_shown(reply),
            preference: preferred_by(reply),
            names: Sequence::new(names),
        })
    }
}

/// Returns the name that was chosen, if the reply shows one.
fn name_shown(reply: &PlainReply) -> Option<u32>
    ensures { result ≡ choosing.name_shown reply.now }
{
    match reply {
        PlainReply::Allocate { name }
        | PlainReply::PreviousTarget { name }
        | PlainReply::Extracted { name, .. } => Some(*name),
        _ => None,
    }
}

/// Returns the number of a new space and its name, if the reply shows them.
fn space_shown(reply: &PlainReply) -> Option<(u32, u32)>
    ensures { result ≡ choosing.space_shown reply.now }
{
    match reply {
        PlainReply::SpaceCreated { space, name } => Some((*space, *name)),
        _ => None,
    }
}

/// Returns the selector of the received message. The reply names its port, unless the space lacked names.
fn preferred_by(reply: &PlainReply) -> Preference
    ensures { result ≡ shows.preferred_by reply.now }
{
    match reply {
        PlainReply::Message {
            code: KernReturn::RcvHeaderErrorSpace,
            ..
        } => Preference::Lacking,
        PlainReply::Message { member, .. } => Preference::Member(*member),
        _ => Preference::Least,
    }
}

/// Returns the bytes of the message that was received.
fn encoding_in(reply: &PlainReply) -> &[u8]
    ensures { result.now ≡ shows.encoding_in reply.now }
{
    match reply {
        PlainReply::Message { message, .. } => message.as_slice(),
        _ => &[],
    }
}
