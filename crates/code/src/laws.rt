// What is proved of laid words and of recovery: each contract is one statement. Assumes nothing.
ghost use Rattle.code.specs.Laws.{LaidLawful, CleanSpeaks, SoftBounded};

// Every laid word obeys its plan.
pub fn laid_lawful()
    ensures { LaidLawful }
{}

// What is recovered from clean values speaks for the sent code word.
pub fn clean_speaks()
    ensures { CleanSpeaks }
{}

// What is recovered from values within their limits is a soft value within its own.
pub fn soft_bounded()
    ensures { SoftBounded }
{}
