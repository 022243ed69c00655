//! That a word received clean is the first that the search shows, with the payload that was sent. Theory alone: a
//! function here stands for the theorem that its contract states.
#![tactic(auto)]

ghost use Rattle.clean.specs.Laws.{ShortenedPlacesCarryZero, CodedWordsSent, WordsCanBeReceived, ReceivedWordStandsApart, AnyCleanWordFirst, ReceivedWordFirst, ReceivedPayloadFirst, FinishedWordsReceived, EncodedPayloadsReceived};
ghost use Rattle.model.specs.Blocks.{meaning_of};
ghost use Rattle.search.specs.Stores.{Store, StoreLaws, CapacityLaws};

use outer::Finish;

// Bits that are 0 at frozen positions code to 0 at every shortened place.
pub fn shortened_places_carry_zero()
    ensures { ShortenedPlacesCarryZero }
{}

// So a coded word is never refused but for the length of the buffer.
pub fn coded_words_sent()
    ensures { CodedWordsSent }
{}

// What is said of words received clean is said of every accepted word, with some values.
pub fn words_can_be_received()
    ensures { WordsCanBeReceived }
{}

// The path of a word received clean is admissible and costs nothing, and each bit that leaves it costs something.
pub fn received_word_stands_apart()
    ensures { ReceivedWordStandsApart }
{}

// After a load advances pause until their budgets come to N + 1; then they show the word that costs nothing.
pub fn clean_word_first<S>()
    ensures { (m : Store S) → StoreLaws m → CapacityLaws m → AnyCleanWordFirst m }
{}

// So it is of the word that was received clean.
pub fn received_word_first<S>()
    ensures { (m : Store S) → StoreLaws m → CapacityLaws m → ReceivedWordFirst m }
{}

// The payload that it carries is then read.
pub fn received_payload_first<S>()
    ensures { (m : Store S) → StoreLaws m → CapacityLaws m → ReceivedPayloadFirst m }
{}

// A finished payload is such a word, and is read back from its path.
pub fn finished_words_received<C: Finish>()
    ensures { (c : C) → FinishedWordsReceived (meaning_of C.Judge c) (C.Judge.bits c) (C.Judge.longest c) (C.Finish.finished c) }
{}

// So is one that the encoder laid and transformed, and whose soft values were recovered.
pub fn encoded_payloads_received<C: Finish>()
    ensures { (c : C) → EncodedPayloadsReceived (meaning_of C.Judge c) (C.Judge.bits c) (C.Judge.longest c) (C.Finish.finished c) }
{
    finished_words_received::<C>();
}
