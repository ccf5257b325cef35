//! Laws of the definitions: each is the contract of a function that does nothing.
ghost use Rattle.tlv_head.specs.Laws.{HeadersAreNoPrefixes, HeadersHaveAShortest, NoHeaderIsShorter};
ghost use Rattle.tlv_head.specs.Laws.{OctetsBeginOneHeader, OctetsGoOnOrAreRefused, PushesReturnOneHead};
ghost use Rattle.tlv_head.specs.Laws.{ReadHeaderReturnsOneHeader, RefusalsAreFinal, RefusedInputsBeginWithNone};
ghost use Rattle.tlv_head.specs.Laws.{ShortestHeadersAreOne};

/// Octets begin with at most one header: two headers at one offset that are both prefixes of one input are the same,
/// and the same octets follow them.
pub fn octets_begin_one_header()
    ensures { OctetsBeginOneHeader }
{}

/// No header is a proper prefix of another, so a header ends by itself.
pub fn headers_are_no_prefixes()
    ensures { HeadersAreNoPrefixes }
{}

/// A refusal with F06 to F09 is final: no octets that follow the refused octet complete a header.
pub fn refusals_are_final()
    ensures { RefusalsAreFinal }
{}

/// If an octet is refused with F06 to F09, no input that continues after it begins with a header.
pub fn refused_inputs_begin_with_none()
    ensures { RefusedInputsBeginWithNone }
{}

/// No octet is refused without a cause: after a prefix of a header, an octet makes a longer prefix or a header,
/// unless one of F06 to F09 refuses it.
pub fn octets_go_on_or_are_refused()
    ensures { OctetsGoOnOrAreRefused }
{}

/// The contract of [`HeadReader::push`](crate::HeadReader::push) determines what it returns.
pub fn pushes_return_one_head()
    ensures { PushesReturnOneHead }
{}

/// The contract of [`read_header`](crate::read_header) determines what it returns.
pub fn read_header_returns_one_header()
    ensures { ReadHeaderReturnsOneHeader }
{}

/// Two headers of one class, form, number and size have the same octets if both are as short as X.690 8.1.2 and 10.1
/// say: a number below 31 and a length below 128 in one octet, and longer ones without leading digits 0.
pub fn shortest_headers_are_one()
    ensures { ShortestHeadersAreOne }
{}

/// If a header is as short as X.690 8.1.2 and 10.1 say, no other header of its class, form, number and size has fewer
/// identifier octets or fewer length octets.
pub fn no_header_is_shorter()
    ensures { NoHeaderIsShorter }
{}

/// Each header can be spelled as short as X.690 8.1.2 and 10.1 say, except the header of the universal primitive 0,
/// whose identifier octet would be the `00` of end-of-contents octets (8.1.5).
pub fn headers_have_a_shortest()
    ensures { HeadersHaveAShortest }
{}
