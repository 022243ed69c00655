// What a check is: two traits by their meaning. Assumes nothing.
// A payload of a bits becomes a word of a + bits bits, for every a up to the longest; beyond it nothing is accepted.
ghost use Rattle.std.specs.Prelude.{◌≡◌, ℕ, ◌+◌, ◌≤◌, Bool, true, false, List, length, take, OnOk, OnErr, is_ok};
ghost use Rattle.crc.specs.Lengths.{fitting};

use super::misfit::Misfit;

// A check that judges words and beginnings of words, and reads payloads.
pub trait Judge {
    // how many check bits a word has beside its payload
    ghost bits: { Self → ℕ };

    // the length of the longest payload that the check is for
    ghost longest: { Self → ℕ };

    // the words that are accepted, for payloads of a length
    ghost accepted: { Self → ℕ → List Bool → Bool };

    // the hopeless beginnings, for payloads of a length: those that the check knows to begin no accepted word
    ghost hopeless: { Self → ℕ → List Bool → Bool };

    // whether the check calls any beginning hopeless at all
    ghost watchful: { Self → Bool };

    // the payload of a length that a word carries
    ghost carried: { Self → ℕ → List Bool → List Bool };

    fn check_bits(&self) -> usize
        ensures { result ≡ bits self.now };

    fn longest_payload(&self) -> usize
        ensures { result ≡ longest self.now };

    fn accepts(&self, a: usize, word: &[bool]) -> bool
        ensures { result ≡ accepted self.now a word.now };

    // A search that asks this first spends nothing on a check that is not watchful.
    fn watches(&self) -> bool
        ensures { result ≡ watchful self.now };

    fn is_hopeless(&self, a: usize, beginning: &[bool]) -> bool
        ensures { result ≡ hopeless self.now a beginning.now };

    // Writes the payload of a word into a buffer of the payload's length. Where the lengths are no payload's and word's
    // it writes nothing.
    fn read(&self, word: &[bool], payload: &mut [bool]) -> Result<(), Misfit>
        ensures result { is_ok result ≡ fitting (longest self.now) (bits self.now) (length payload.old) (length word.now) }
        ensures ok { OnOk result (payload.new ≡ carried self.now (length payload.old) word.now) }
        ensures err { OnErr result (payload.new ≡ payload.old) };

    ghost few: { (c : Self) → bits c ≤ 24 };

    ghost accepted_length: { (c : Self) (a : ℕ) (w : List Bool) → accepted c a w ≡ true → (a ≤ longest c) × (length w ≡ a + bits c) };

    ghost accepted_hopeful: { (c : Self) (a : ℕ) (w : List Bool) → accepted c a w ≡ true → (m : ℕ) → hopeless c a (take m w) ≡ false };

    ghost unwatchful_hopeful: { (c : Self) → watchful c ≡ false → (a : ℕ) (b : List Bool) → hopeless c a b ≡ false };

    ghost carried_length: { (c : Self) (a : ℕ) (w : List Bool) → length w ≡ a + bits c → length (carried c a w) ≡ a };
}

// A check that also finishes a payload into the one accepted word that carries it.
pub trait Finish: Judge {
    // the finished form of a payload
    ghost finished: { Self → List Bool → List Bool };

    // Writes the finished form of a payload into a buffer of the word's length. Where the lengths are no payload's and
    // word's it writes nothing.
    fn finish(&self, payload: &[bool], word: &mut [bool]) -> Result<(), Misfit>
        ensures result { is_ok result ≡ fitting (Self.Judge.longest self.now) (Self.Judge.bits self.now) (length payload.now) (length word.old) }
        ensures ok { OnOk result (word.new ≡ finished self.now payload.now) }
        ensures err { OnErr result (word.new ≡ word.old) };

    ghost finished_accepted: { (c : Self) (p : List Bool) → length p ≤ Self.Judge.longest c → Self.Judge.accepted c (length p) (finished c p) ≡ true };

    ghost finished_reads_back: { (c : Self) (p : List Bool) → length p ≤ Self.Judge.longest c → Self.Judge.carried c (length p) (finished c p) ≡ p };

    ghost accepted_finished: { (c : Self) (a : ℕ) (w : List Bool) → Self.Judge.accepted c a w ≡ true → finished c (Self.Judge.carried c a w) ≡ w };
}
