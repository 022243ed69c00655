// The numbers of a script: decimal digits alone, each up to the width of its type. Assumes nothing.
use crate::refused::NoCall;

// The longest buffer, and the most times that a soft value comes.
pub const LONGEST: usize = 4096;

// An empty text is no number.
pub fn number<T: TryFrom<u64>>(text: &str) -> Result<T, NoCall>
where
    T::Error: Drop,
{
    if !text.bytes().all(|b| b.is_ascii_digit()) {
        return Err(NoCall::Malformed);
    }
    let n = text.parse::<u64>().map_err(|_| NoCall::Malformed)?;
    T::try_from(n).map_err(|_| NoCall::Malformed)
}

// The length of a buffer, or how often a soft value comes.
pub fn length(text: &str) -> Result<usize, NoCall> {
    let n = usize::from(number::<u16>(text)?);
    if n > LONGEST {
        return Err(NoCall::Malformed);
    }
    Ok(n)
}

// Digits with at most a minus before them.
pub fn signed(text: &str) -> Result<i32, NoCall> {
    let value = match text.strip_prefix('-') {
        Some(digits) => -i64::from(number::<u32>(digits)?),
        None => i64::from(number::<u32>(text)?),
    };
    i32::try_from(value).map_err(|_| NoCall::Malformed)
}
