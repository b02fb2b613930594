use crate::{PlainCall, Reply};
use codes::NUMBERED;

/// A call that its task numbers. It is made once: asked for again by the same number, it isn't made, and its reply is
/// given again.
#[derive(Drop)]
pub struct NumberedCall {
    /// The task's number for it. A space's requests ascend, and none is 0.
    pub request: u32,
    pub call: PlainCall,
}

/// A call of a task.
#[derive(Drop)]
pub enum Call {
    /// A call of any number but 22.
    Plain(PlainCall),
    /// Number 22.
    Numbered(NumberedCall),
    /// Number 22 with a call that it doesn't take. It is refused.
    Unnumberable,
}

impl Call {
    ghost use Rattle.std.specs.Prelude.{◌≡◌};
    ghost use Rattle.ipc_model.specs.calls.Step.{number_of_call, is_recorded, has_record};
    ghost use Rattle.ipc_model.specs.history.History.{attached_by};

    /// The number of the call in its frame.
    pub fn number(&self) -> u32
        ensures { result ≡ number_of_call self.now }
    {
        match self {
            Call::Plain(call) => call.number(),
            Call::Numbered(_) | Call::Unnumberable => NUMBERED,
        }
    }

    /// The space that a task of this space is attached to after the call.
    pub fn attached_by(&self, space: u32) -> u32
        ensures { result ≡ attached_by space self.now }
    {
        match self {
            Call::Plain(PlainCall::Attach { space: other }) => *other,
            _ => space,
        }
    }

    /// Returns whether the call has a record if it is answered by this reply: it may have changed the state.
    pub fn has_record(&self, reply: &Reply) -> bool
        ensures { result ≡ has_record self.now reply.now }
    {
        match (self, reply) {
            (Call::Plain(call), Reply::Plain(reply)) => call.has_record(reply),
            (Call::Numbered(numbered), Reply::Numbered(answer)) => {
                numbered.call.may_be_numbered() && numbered.call.has_record(&answer.reply)
            }
            _ => false,
        }
    }

    /// Returns whether a call with this number can have a record.
    pub fn is_recorded(&self) -> bool
        ensures { result ≡ is_recorded self.now }
    {
        match self {
            Call::Plain(call) => call.is_recorded(),
            Call::Numbered(numbered) => numbered.call.may_be_numbered(),
            Call::Unnumberable => false,
        }
    }
}
