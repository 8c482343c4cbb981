//! Laws of codewords and of the definitions of tickets, each the contract of a function that does nothing.
ghost use Rattle.kk_code.specs.Laws.{CodewordIsAGraph, CodewordsAreFarApart, DecodingIsUnique, AnswerIsTheMessage, OneBeyondIsNeverWrong};
ghost use Rattle.kk_code.specs.Laws.{TextIsOfATicket, TicketHasItsText, TicketHasOneText, TextIsATicketOrFaulty, TicketHasNoFault, TextHasOneFault, TicketOfIsExact};

/// What a text spells is a ticket: its numbers are in range, its modulus is irreducible, and its file isn't too long.
pub fn text_is_of_a_ticket()
    ensures { TextIsOfATicket }
{}

/// The text of a ticket is read back as that ticket.
pub fn ticket_has_its_text()
    ensures { TicketHasItsText }
{}

/// A ticket has no other text.
pub fn ticket_has_one_text()
    ensures { TicketHasOneText }
{}

/// A text that is no ticket has a first fault.
pub fn text_is_a_ticket_or_faulty()
    ensures { TextIsATicketOrFaulty }
{}

/// A text that is a ticket has no fault.
pub fn ticket_has_no_fault()
    ensures { TicketHasNoFault }
{}

/// A text has one first fault.
pub fn text_has_one_fault()
    ensures { TextHasOneFault }
{}

/// What `ticket_of` computes of a text is the ticket that the text is, or its first fault.
pub fn ticket_of_is_exact()
    ensures { TicketOfIsExact }
{}

/// A row (x, y) is in the span of a codeword exactly where x is below 2^l and y is the value of its polynomial at x.
pub fn codeword_is_a_graph()
    ensures { CodewordIsAGraph }
{}

/// The codewords of different messages are at distance 2·(l - k + 1) at least.
pub fn codewords_are_far_apart()
    ensures { CodewordsAreFarApart }
{}

/// At most one message has its codeword within distance l - k of a space.
pub fn decoding_is_unique()
    ensures { DecodingIsUnique }
{}

/// The answer is u exactly where u decodes the space, and there is none exactly where no message does.
pub fn answer_is_the_message()
    ensures { AnswerIsTheMessage }
{}

/// One dimension beyond the radius l - k of the codeword that was sent a space has no answer, and so no wrong one.
pub fn one_beyond_is_never_wrong()
    ensures { OneBeyondIsNeverWrong }
{}
