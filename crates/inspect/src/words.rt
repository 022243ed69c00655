// Refusals in words, for a person. Tested, not proved: any text is safe.
use base::Refusal;
use std::fmt;

pub fn reason(fault: Refusal) -> &'static str {
    match fault {
        Refusal::Cut { .. } => "the file ends inside the field that begins there",
        Refusal::Tag { .. } =>
            "the field that is due does not stand there, or bytes follow the last field",
        Refusal::Form { .. } =>
            "the field that begins there has a wrong length or a code that is not listed",
        Refusal::Limits => "a number of the plan is beyond its limits",
        Refusal::Crowded => "fewer positions are open than information and parity bits",
        Refusal::Payload { .. } =>
            "the plan does not fit the check, or the payload is not as many bits as it should be",
        Refusal::SentLength => "the output does not hold as many bits as are sent",
        Refusal::ShortenedOne { .. } => "a shortened place carries a one",
        Refusal::ReceivedLength =>
            "there are not as many values as are sent, or not as many soft values as the block has places",
        Refusal::Value { .. } => "the received value there is beyond its limits",
        Refusal::Block { .. } =>
            "the block does not fit the decoder, or a number is beyond its limits",
        Refusal::WrongPhase(_) => "the decoder is not in a phase that allows the call",
        Refusal::Budget => "the budget of steps is beyond its limits, or scratch is too short",
        Refusal::OutputLength => "the output is not as long as the payload",
    }
}

// A refusal, and under it its reason.
pub(crate) fn write_fault<W: fmt::Write>(f: &mut fmt::Formatter<W>, fault: Refusal) -> fmt::Result {
    let words = reason(fault);
    writeln!(f, "fault {fault}\n  {words}")
}
