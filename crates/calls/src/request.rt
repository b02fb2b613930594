ghost use Rattle.std.specs.Prelude.{◌≡◌, ◌≢◌, ◌⊎◌, ◌<◌, ◌^◌, ◌++◌, ◌||◌, ℕ, List, [], Ok, Err, IsTrue, IfOk, IfErr, IfSome, IfNone, OnErr, IsErrOf, length};
ghost use Rattle.codes.specs.MessageOptions.{bits_of};
ghost use Rattle.words.specs.Words.{word};
ghost use Rattle.calls.specs.declared.request.Request.{Request};
ghost use Rattle.calls.specs.Requests as requests;

use crate::arguments::read_arguments;
use crate::numbered::read_numbered;
use bitflags::Flags;
use codes::{CONFINE, KernReturn, MACH_MSG, MessageOptions, NUMBERED};
use ipc_model::{Call, PlainCall, Sequence};
use std::alloc::{AllocError, Global};
use words::take_word;

/// A request of a `mach_msg`: to send, to receive, or first to send and then to receive. The session enforces the
/// timeouts; the kernel never waits.
#[derive(Drop)]
pub struct MessageRequest {
    /// The send, if the request contains one.
    pub send: Option<Call>,
    /// The receive, if the request contains one.
    pub receive: Option<Call>,
    /// Timeout of the send in milliseconds, if it has one.
    pub send_timeout: Option<u32>,
    /// Timeout of the receive in milliseconds, if it has one.
    pub receive_timeout: Option<u32>,
}

/// The request of a frame.
#[derive(Drop)]
pub enum Request {
    /// A call of any number but that of `mach_msg`. It may be a numbered one.
    One(Call),
    /// A `mach_msg` that sends, receives or both.
    Message(MessageRequest),
    /// A `mach_msg` that is answered at once with this code, size 0 and no port's name: `InvalidArgument` if an option
    /// is unknown, `Success` if it neither sends nor receives.
    Answered(KernReturn),
    /// Number 23: confines the connection to the space that it is attached to. The kernel doesn't know this call.
    Confine,
}

/// The reason why a frame is no request.
#[derive(Clone, Copy, Debug, PartialEq, Eq)]
pub enum CallFault {
    /// No call has this number, or the arguments don't have the call's length.
    NoCall = 1,
    /// Out of memory for the message of a send.
    NoMemory = 2,
}

/// Returns true if the options ask for a send or a receive.
fn asks_for_some(options: MessageOptions) -> bool
    ensures { result ≡ (requests.has_option (bits_of options) requests.send_msg || requests.has_option
        (bits_of options) requests.rcv_msg) }
{
    options.contains(MessageOptions::SEND) || options.contains(MessageOptions::RECEIVE)
}

/// Returns the send that the options ask for, or `None` if they ask for none.
fn asked_send(
    alloc: Global,
    options: MessageOptions,
    message: &[u8],
) -> Result<Option<Call>, AllocError>
    ensures asked { IfOk result (λ send. send ≡ requests.asked_send (bits_of options) message.now) }
    ensures memory { OnErr result (IsTrue (requests.has_option (bits_of options) requests.send_msg)) }
{
    if !options.contains(MessageOptions::SEND) {
        return Ok(None);
    }
    let message = Sequence::new(Vec::from_slice(alloc, message)?);
    Ok(Some(Call::Plain(PlainCall::Send { message })))
}

/// Returns the receive that the options ask for, or `None` if they ask for none.
fn asked_receive(options: MessageOptions, limit: u32, name: u32) -> Option<Call>
    ensures { result ≡ requests.asked_receive (bits_of options) limit name }
{
    if !options.contains(MessageOptions::RECEIVE) {
        return None;
    }
    Some(Call::Plain(PlainCall::Receive {
        limit,
        large: options.contains(MessageOptions::LARGE),
        name,
        waited: false,
    }))
}

/// Returns the timeout if the options contain the option `bound`, else `None`.
fn asked_timeout(options: MessageOptions, bound: MessageOptions, timeout: u32) -> Option<u32>
    ensures { result ≡ requests.asked_timeout (bits_of options) (bits_of bound) timeout }
{
    if options.contains(bound) {
        Some(timeout)
    } else {
        None
    }
}

/// Returns the request of a `mach_msg` with these arguments.
#[tactic(auto, unfolding(crate::specs::Requests::asked, bitflags::specs::Sets::known_from))]
fn request_of(
    alloc: Global,
    option: u32,
    limit: u32,
    name: u32,
    timeout: u32,
    message: &[u8],
) -> Result<Request, AllocError>
    ensures asked { IfOk result (λ request. request ≡ requests.asked (record {
      option = option;
      limit = limit;
      name = name;
      timeout = timeout;
      message = message.now;
    })) }
    ensures memory { OnErr result (IsTrue (requests.has_option option requests.send_msg)) }
{
    let Some(options) = MessageOptions::from_bits(option) else {
        return Ok(Request::Answered(KernReturn::InvalidArgument));
    };
    if !asks_for_some(options) {
        return Ok(Request::Answered(KernReturn::Success));
    }
    let send = asked_send(alloc, options, message)?;
    Ok(Request::Message(MessageRequest {
        send,
        receive: asked_receive(options, limit, name),
        send_timeout: asked_timeout(options, MessageOptions::SEND_TIMEOUT, timeout),
        receive_timeout: asked_timeout(options, MessageOptions::RECEIVE_TIMEOUT, timeout),
    }))
}

/// Splits off four words.
pub(crate) fn take_four(bytes: &[u8]) -> Option<(u32, u32, u32, u32, &[u8])>
    ensures found { IfSome result (λ r. bytes.now ≡ word r.0 ++ (word r.1 ++ (word r.2 ++ (word r.3 ++ r.4.now)))) }
    ensures fits { IfSome result (λ r. (r.0 < 2 ^ 32) × (r.1 < 2 ^ 32) × (r.2 < 2 ^ 32) × (r.3 < 2 ^ 32)) }
    ensures none { IfNone result (length bytes.now < 16) }
{
    let (a, rest) = take_word(bytes)?;
    let (b, rest) = take_word(rest)?;
    let (c, rest) = take_word(rest)?;
    let (d, rest) = take_word(rest)?;
    Some((a, b, c, d, rest))
}

/// Decodes the arguments of a `mach_msg`.
fn read_mach_msg(alloc: Global, arguments: &[u8]) -> Result<Request, CallFault>
    ensures found { IfOk result (λ request. requests.AsksMachMsg arguments.now request) }
    ensures only { (asks : Request) → requests.AsksMachMsg arguments.now asks
        → (result ≡ Ok asks) ⊎ (result ≡ Err CallFault.NoMemory) }
    ensures memory { IsErrOf result CallFault.NoMemory → requests.IsSend arguments.now }
{
    let Some((option, limit, name, timeout, message)) = take_four(arguments) else {
        return Err(CallFault::NoCall);
    };
    let Ok(request) = request_of(alloc, option, limit, name, timeout, message) else {
        return Err(CallFault::NoMemory);
    };
    Ok(request)
}

/// Decodes the arguments of number 23, which has none.
fn read_confine(arguments: &[u8]) -> Result<Request, CallFault>
    ensures found { IfOk result (λ request. (request ≡ Request.Confine) × (arguments.now ≡ [])) }
    ensures none { OnErr result (arguments.now ≢ []) }
    ensures fault { IfErr result (λ fault. fault ≡ CallFault.NoCall) }
{
    if arguments.is_empty() {
        Ok(Request::Confine)
    } else {
        Err(CallFault::NoCall)
    }
}

/// Decodes the content of a frame. `NoCall`: no call has this number and arguments of this length. `NoMemory`: out of
/// memory for the message of a send, which may be numbered.
#[tactic(auto, unfolding(ipc_model::specs::encodings::PlainCalls::call_encoding))]
pub fn read_request(alloc: Global, content: &[u8]) -> Result<Request, CallFault>
    ensures found { IfOk result (λ request. requests.Asks content.now request) }
    ensures only { (asks : Request) → requests.Asks content.now asks
        → (result ≡ Ok asks) ⊎ (result ≡ Err CallFault.NoMemory) }
    ensures memory { IsErrOf result CallFault.NoMemory
        → ((arguments : List ℕ) × (content.now ≡ word MACH_MSG ++ arguments) × requests.IsSend arguments)
        ⊎ requests.IsNumberedSend content.now }
{
    let Some((number, arguments)) = take_word(content) else {
        return Err(CallFault::NoCall);
    };
    if number == MACH_MSG {
        return read_mach_msg(alloc, arguments);
    }
    if number == NUMBERED {
        return match read_numbered(alloc, arguments) {
            Ok(call) => Ok(Request::One(call)),
            Err(fault) => Err(fault),
        };
    }
    if number == CONFINE {
        return read_confine(arguments);
    }
    match read_arguments(number, arguments) {
        Some(call) => Ok(Request::One(Call::Plain(call))),
        None => Err(CallFault::NoCall),
    }
}
