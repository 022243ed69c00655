// Recovery of soft values from received ones. Assumes nothing.
ghost use Rattle.std.specs.Prelude.{◌≡◌, ℕ, ◌<◌, length, pos, ◌+ℤ◌, if◌then◌else◌, None};
ghost use Rattle.plan.specs.Plans.{block_length, sent_bits, mode_in, sent_at};
ghost use Rattle.code.specs.First.{first_below};
ghost use Rattle.code.specs.Recovery.{Recovers, beyond, value_at, unsent_soft, total_below, share_of};

use base::Refusal;
use plan::{Mode, Plan};

// The greatest magnitude of a received value.
const MOST: i16 = 4095;

// What is known of a shortened place: that it is 0, more surely than any sum of received values could say.
const SURE: i32 = 1_048_576;

fn is_beyond(value: i16) -> bool
    ensures { result ≡ beyond value }
{
    !(-MOST..=MOST).contains(&value)
}

// The index of the first value beyond its limits.
fn first_beyond(values: &[i16]) -> Option<usize>
    ensures { result ≡ first_below (λ k. beyond (value_at values.now k)) (length values.now) }
{
    values.iter().position(|value| is_beyond(*value))
}

// What a place holds before any value is added.
fn start(plan: &Plan, i: usize) -> i32
    ensures { result ≡ (if sent_at plan.now i then pos 0 else unsent_soft (mode_in plan.now)) }
{
    if plan.is_sent(i) {
        return 0;
    }
    match plan.mode() {
        Mode::Repeat | Mode::Puncture => 0,
        Mode::Shorten => SURE,
    }
}

fn clear(plan: &Plan, llrs: &mut [i32])
    ensures { (i : ℕ) → i < length llrs.old → value_at llrs.new i ≡ (if sent_at plan.now i then pos 0 else unsent_soft (mode_in plan.now)) }
{
    for (i, llr) in llrs.iter_mut().enumerate() {
        *llr = start(plan, i);
    }
}

// Adds every value onto the place that it was sent for.
fn add_values(plan: &Plan, values: &[i16], llrs: &mut [i32])
    requires sent { length values.now ≡ sent_bits plan.now }
    requires block { length llrs.old ≡ block_length plan.now }
    requires within { first_below (λ k. beyond (value_at values.now k)) (length values.now) ≡ None }
    requires start { (i : ℕ) → i < length llrs.old → value_at llrs.old i ≡ (if sent_at plan.now i then pos 0 else unsent_soft (mode_in plan.now)) }
    ensures { (i : ℕ) → i < length llrs.old → value_at llrs.new i ≡ value_at llrs.old i +ℤ total_below (share_of plan.now (value_at values.now) i) (length values.now) }
{
    for (k, value) in values.iter().enumerate() {
        llrs[plan.place(k)] += i32::from(*value);
    }
}

// Makes the soft value of every code place, or refuses and leaves the buffer as it was.
pub fn recover(plan: &Plan, values: &[i16], llrs: &mut [i32]) -> Result<(), Refusal>
    ensures { Recovers plan.now values.now llrs.old result llrs.new }
{
    if values.len() != plan.sent_bits() || llrs.len() != plan.length() {
        return Err(Refusal::ReceivedLength);
    }
    if let Some(at) = first_beyond(values) {
        return Err(Refusal::Value { at });
    }
    clear(plan, llrs);
    add_values(plan, values, llrs);
    Ok(())
}
