// Refusals: which layer refuses, by which number, at which position. Assumes nothing.
ghost use Rattle.std.specs.Prelude.{◌≡◌, Some};
ghost use Rattle.base.specs.Refusals.{layer_of, layer_of_call, number_of, position_of, layer_name, fault_text};

use std::fmt;

// The place that refuses. Its name in lower case is what the programs print.
#[derive(Clone, Copy, PartialEq, Eq, Debug)]
pub enum Layer {
    File,
    Plan,
    Laying,
    Sending,
    Recovery,
    Load,
    Advance,
    Strike,
    Word,
    Report,
}

impl Layer {
    pub fn name(self) -> &'static str
        ensures { result.now ≡ layer_name self }
    {
        match self {
            Layer::File => "file",
            Layer::Plan => "plan",
            Layer::Laying => "laying",
            Layer::Sending => "sending",
            Layer::Recovery => "recovery",
            Layer::Load => "load",
            Layer::Advance => "advance",
            Layer::Strike => "strike",
            Layer::Word => "word",
            Layer::Report => "report",
        }
    }
}

impl fmt::Display for Layer {
    ghost output = { λ l. Some (layer_name l) };

    fn fmt<W: fmt::Write>(&self, f: &mut fmt::Formatter<W>) -> fmt::Result {
        f.write_str(self.name())
    }
}

// The calls of a decoder that its phase may forbid.
#[derive(Clone, Copy, PartialEq, Eq, Debug)]
pub enum Phased {
    Advance,
    Strike,
    Word,
    Report,
}

impl From<Phased> for Layer {
    ghost from_gives = { λ call layer. layer ≡ layer_of_call call };

    fn from(call: Phased) -> Layer {
        match call {
            Phased::Advance => Layer::Advance,
            Phased::Strike => Layer::Strike,
            Phased::Word => Layer::Word,
            Phased::Report => Layer::Report,
        }
    }
}

// Why a call was refused. A refusal alters nothing and is passed up as it is.
#[derive(Clone, Copy, PartialEq, Eq, Debug)]
pub enum Refusal {
    // file 1: fewer bytes remain than the field needs; at the field's offset
    Cut { at: usize },
    // file 2: a tag is missing, repeated, unknown or out of order, at the offset where the field is due;
    // or bytes follow the last field, at the first of them
    Tag { at: usize },
    // file 3: a length that is not the tag's, or a code that is not listed; at the field's offset
    Form { at: usize },
    // plan 4: a number is beyond its limits; position 0
    Limits,
    // plan 5: too few positions are not barred; position 0
    Crowded,
    // laying 6: the plan does not fit the check, or the payload's length is wrong, at 0; a byte above 1, at its index
    Payload { at: usize },
    // sending 7: a buffer's length is not the one that is due; position 0
    SentLength,
    // sending 8: a shortened place carries a one; at the lowest such place
    ShortenedOne { at: usize },
    // recovery 7: a buffer's length is not the one that is due; position 0
    ReceivedLength,
    // recovery 9: a received value beyond its limits; at the index of the first
    Value { at: usize },
    // load 10: the plan does not fit the check, a wrong count of soft values or a number beyond its limits, at 0;
    // soft values alone beyond their limits, at the index of the first
    Block { at: usize },
    // advance, strike, word or report 11: the phase does not allow the call; position 0
    WrongPhase(Phased),
    // advance 12: a budget beyond its limits, or scratch too short; position 0
    Budget,
    // word 13: the output has not the payload's length; position 0
    OutputLength,
}

impl Refusal {
    pub fn layer(&self) -> Layer
        ensures { result ≡ layer_of self.now }
    {
        match *self {
            Refusal::Cut { .. } | Refusal::Tag { .. } | Refusal::Form { .. } => Layer::File,
            Refusal::Limits | Refusal::Crowded => Layer::Plan,
            Refusal::Payload { .. } => Layer::Laying,
            Refusal::SentLength | Refusal::ShortenedOne { .. } => Layer::Sending,
            Refusal::ReceivedLength | Refusal::Value { .. } => Layer::Recovery,
            Refusal::Block { .. } => Layer::Load,
            Refusal::Budget => Layer::Advance,
            Refusal::OutputLength => Layer::Word,
            Refusal::WrongPhase(call) => Layer::from(call),
        }
    }

    pub fn number(&self) -> u8
        ensures { result ≡ number_of self.now }
    {
        match *self {
            Refusal::Cut { .. } => 1,
            Refusal::Tag { .. } => 2,
            Refusal::Form { .. } => 3,
            Refusal::Limits => 4,
            Refusal::Crowded => 5,
            Refusal::Payload { .. } => 6,
            Refusal::SentLength | Refusal::ReceivedLength => 7,
            Refusal::ShortenedOne { .. } => 8,
            Refusal::Value { .. } => 9,
            Refusal::Block { .. } => 10,
            Refusal::WrongPhase(_) => 11,
            Refusal::Budget => 12,
            Refusal::OutputLength => 13,
        }
    }

    pub fn position(&self) -> usize
        ensures { result ≡ position_of self.now }
    {
        match *self {
            Refusal::Cut { at }
            | Refusal::Tag { at }
            | Refusal::Form { at }
            | Refusal::Payload { at }
            | Refusal::ShortenedOne { at }
            | Refusal::Value { at }
            | Refusal::Block { at } => at,
            _ => 0,
        }
    }
}

// Layer, number and position, as the programs print them.
impl fmt::Display for Refusal {
    ghost output = { λ e. Some (fault_text e) };

    fn fmt<W: fmt::Write>(&self, f: &mut fmt::Formatter<W>) -> fmt::Result {
        let layer = self.layer();
        let number = self.number();
        let position = self.position();
        write!(f, "{layer} {number} {position}")
    }
}
