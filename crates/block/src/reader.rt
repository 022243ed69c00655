// The reader: field by field, each with its refusals in the order of examination. Assumes nothing.
ghost use Rattle.std.specs.Prelude.{◌≡◌, ◌+◌, ◌≤◌, length};
ghost use Rattle.block.specs.Bytes.{wide};
ghost use Rattle.block.specs.Fields.{sound};
ghost use Rattle.block.specs.Reads.{Framed, FieldRead, NumbersAt, FileRead};

use crate::due::Due;
use crate::field::Field;
use crate::numbers::{Numbers, PlanNumbers, SearchNumbers};
use base::Refusal;

// A tag and a length of two bytes.
const HEADER: usize = 3;
// Where the fields stand: the first two have nine bytes each.
const PLAN_AT: usize = 0;

const SEARCH_AT: usize = 12;

const VALUES_AT: usize = 24;

// The fields of a block file, as they stand in the input.
#[derive(Clone, Copy)]
pub struct Fields<'a> {
    pub plan: Field<'a>,
    pub search: Field<'a>,
    pub values: Field<'a>,
}

// A block file that was examined whole, with the numbers of its first two fields.
#[derive(Clone, Copy)]
pub struct Block<'a> {
    pub fields: Fields<'a>,
    pub plan: PlanNumbers,
    pub search: SearchNumbers,
}

// The whole file, or the first fault in the order of examination.
pub fn examine(input: &[u8]) -> Result<Block<'_>, Refusal>
    ensures { FileRead input.now result }
{
    let (plan_field, plan) = numbers_at::<PlanNumbers>(input, PLAN_AT)?;
    let (search_field, search) = numbers_at::<SearchNumbers>(input, SEARCH_AT)?;
    let due = Due::Values { sent: plan.sent };
    let values_field = field_at(input, VALUES_AT, due)?;
    let end = VALUES_AT + HEADER + due.length();
    if end < input.len() {
        return Err(Refusal::Tag { at: end });
    }
    let fields = Fields {
        plan: plan_field,
        search: search_field,
        values: values_field,
    };
    Ok(Block {
        fields,
        plan,
        search,
    })
}

// The field that is due at an offset with its numbers, or what is wrong with it.
pub fn numbers_at<N: Numbers>(input: &[u8], at: usize) -> Result<(Field<'_>, N), Refusal>
    ensures { NumbersAt N.DUE N.holds input.now at result }
{
    let field = framed(input, at, N::DUE)?;
    let numbers = N::read(field.body).ok_or(Refusal::Form { at })?;
    Ok((field, numbers))
}

// The field that is due at an offset, or what is wrong with it.
pub fn field_at<'a>(input: &'a [u8], at: usize, due: Due) -> Result<Field<'a>, Refusal>
    ensures { FieldRead input.now at due result }
{
    let field = framed(input, at, due)?;
    if is_sound(due, field.body) {
        Ok(field)
    } else {
        Err(Refusal::Form { at })
    }
}

// The field that is due at an offset, with its tag, its length and its whole body; its codes are not looked at.
fn framed<'a>(input: &'a [u8], at: usize, due: Due) -> Result<Field<'a>, Refusal>
    ensures { Framed input.now at due result }
{
    if at >= input.len() {
        return Err(Refusal::Tag { at });
    }
    let left = input.len() - at;
    if left < HEADER {
        return Err(Refusal::Cut { at });
    }
    if input[at] != due.tag() {
        return Err(Refusal::Tag { at });
    }
    let length = stated_length(input, at);
    if length != due.length() {
        return Err(Refusal::Form { at });
    }
    if left - HEADER < length {
        return Err(Refusal::Cut { at });
    }
    let body = &input[at + HEADER..at + HEADER + length];
    Ok(Field { due, body, at })
}

// The length that the header at an offset states.
fn stated_length(input: &[u8], at: usize) -> usize
    requires header { at + 3 ≤ length input.now }
    ensures { result ≡ wide input.now (at + 1) }
{
    usize::from(u16::from_be_bytes([input[at + 1], input[at + 2]]))
}

// Whether a body has the right length and lists every code in it.
fn is_sound(due: Due, body: &[u8]) -> bool
    ensures { result ≡ sound due body.now }
{
    match due {
        Due::Plan => PlanNumbers::read(body).is_some(),
        Due::Search => SearchNumbers::read(body).is_some(),
        Due::Values { .. } => body.len() == due.length(),
    }
}
