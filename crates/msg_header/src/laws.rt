// Laws of the encoding of headers. Each is the contract of a function that does nothing, so that the prover checks it.
ghost use Rattle.msg_header.specs.HeaderLaws.{HeaderAndBodyAreAMessage, WrittenHeadersAreRead};

/// The encoding of a header followed by a body is the encoding of the message, if the header's size is the length of
/// both.
pub fn header_and_body_are_a_message()
    ensures { HeaderAndBodyAreAMessage }
{}

/// The encoding of a header is decoded to the same header, followed by the same body.
pub fn written_headers_are_read()
    ensures { WrittenHeadersAreRead }
{}
