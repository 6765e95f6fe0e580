// Lines of values as text: read from a part of an input buffer, and written into a lent output or behind what stands in it. A text that
// does not fit into the output is refused, and leaves it unchanged. Of the public routines only those that append ask something of their
// caller: that the length with the text can be counted.

#![tactic(auto)]

ghost use Rattle.std.specs.Prelude.{◌≤◌, ◌≡◌, true, cond, ◌++◌, eqb, length, drop, replicate};
ghost use Rattle.lists.specs.Lists.{first_index};
ghost use Rattle.text.specs.Bytes.{same_bytes};
ghost use Rattle.text.specs.Reading.{is_number, no_leading_zero, is_value, value_in, has_values, values_of};
ghost use Rattle.text.specs.FieldNumber.{number_if};
ghost use Rattle.text.specs.Names.{first_line_of};
ghost use Rattle.text.specs.Writing.{digits, places, decimal, values_line, Writes};
ghost use Rattle.text.specs.Appending.{Appends, Countable, counted};

const SPACE: u8 = 32;

// It ends a line.
pub const LINE_END: u8 = 10;

// ---- reading

// The first place of a byte, or the length where it has none.
pub fn find(s: &[u8], byte: u8) -> usize
    ensures { result ≡ first_index (λ b. eqb b byte) s.now }
{
    s.iter().position(|b| *b == byte).unwrap_or(s.len())
}

// Are they equal, byte for byte?
#[tactic(auto, using(crate::proofs::NamesLaws::same_pointwise))]
pub fn same(a: &[u8], b: &[u8]) -> bool
    ensures { result ≡ same_bytes a.now b.now }
{
    a == b
}

// Where the first line of a text ends: `Ok` if it is the names, `Err` if it isn't.
pub fn first_line(text: &[u8], names: &[u8]) -> Result<usize, usize>
    ensures { result ≡ first_line_of names.now text.now }
{
    let end = find(text, LINE_END);
    if !text.is_empty() && same(&text[..end], names) {
        Ok(end)
    } else {
        Err(end)
    }
}

// A field that is a value: its number, and where it ends.
#[derive(Clone, Copy, PartialEq, Eq)]
pub struct Field {
    pub number: u16,
    pub end: usize,
}

// The number that a field's digits make, where they are digits and it is not above 65,535.
fn digits_number(field: &[u8]) -> Option<u16>
    ensures { result ≡ number_if (is_number field.now) field.now }
{
    let mut n: u32 = 0;
    for b in field {
        if !b.is_ascii_digit() {
            return None;
        }
        n = n * 10 + u32::from(*b - b'0');
        if 65535 < n {
            return None;
        }
    }
    Some(n as u16)
}

// At least one digit, and a 0 in front only by itself.
#[tactic(auto, using(crate::proofs::NumberLaws::no_lead, crate::proofs::NumberLaws::lone_lead, crate::proofs::NumberLaws::lead))]
fn no_leading_zero(field: &[u8]) -> bool
    ensures { result ≡ no_leading_zero field.now }
{
    match field {
        [] => false,
        [_] => true,
        [b, ..] => *b != b'0',
    }
}

// The number of a field, where it is a value. Most have one digit, which is no leading zero and needs no loop: so that is asked first.
#[tactic(auto, unfolding(crate::specs::Reading::is_value, crate::specs::FieldNumber::number_if), using(crate::proofs::NumberLaws::lone_lead))]
fn field_number(field: &[u8]) -> Option<u16>
    ensures { result ≡ number_if (is_value field.now) field.now }
{
    if field.len() == 1 {
        return digits_number(field);
    }
    if no_leading_zero(field) {
        digits_number(field)
    } else {
        None
    }
}

// The value in front of a line's rest, up to a space or the end.
#[tactic(auto, using(crate::proofs::NumberLaws::other_read, crate::proofs::NumberLaws::number_read))]
pub fn value(rest: &[u8]) -> Option<Field>
    ensures { result ≡ value_in rest.now }
{
    let end = find(rest, SPACE);
    let number = field_number(&rest[..end])?;
    Some(Field { number, end })
}

// The values of a line that has as many as `values` holds. Where it has another form some of them may be in place.
#[tactic(auto, using(crate::proofs::ReadingSteps::all_read, crate::proofs::ReadingSteps::is_other, crate::proofs::ReadingSteps::end_inside, crate::proofs::ReadingSteps::last_form, crate::proofs::ReadingSteps::last_values))]
fn fill_values(line: &[u8], values: &mut [u16]) -> bool
    ensures formed { result ≡ has_values (length values.old) line.now }
    ensures values_after { result ≡ true → values.new ≡ values_of line.now }
{
    let count = values.len();
    let mut at: usize = 0;
    for (i, v) in values.iter_mut().enumerate() {
        let Some(read) = value(&line[at..]) else {
            return false;
        };
        *v = read.number;
        at += read.end;
        if at == line.len() {
            return i + 1 == count;
        }
        at += 1;
    }
    false
}

// Reads a line of as many values as `values` holds; zeros where the line has another form.
pub fn read_values(line: &[u8], values: &mut [u16]) -> bool
    ensures value { result ≡ has_values (length values.old) line.now }
    ensures values_after { values.new ≡ cond result (values_of line.now) (replicate (length values.old) 0) }
{
    let formed = fill_values(line, values);
    if !formed {
        values.fill(0);
    }
    formed
}

// ---- writing

// A text goes to the front of the output.
#[tactic(auto, unfolding(crate::specs::Writing::written, crate::specs::Writing::written_length))]
pub fn put(out: &mut [u8], text: &[u8]) -> usize
    ensures { Writes text.now out.old out.new result }
{
    if out.len() < text.len() {
        return 0;
    }
    out[..text.len()].copy_from_slice(text);
    text.len()
}

// How many digits a number has.
#[tactic(auto, unfolding(crate::specs::Writing::places))]
fn places(n: u16) -> usize
    ensures { result ≡ places n }
{
    match n {
        0..=9 => 1,
        10..=99 => 2,
        100..=999 => 3,
        1000..=9999 => 4,
        _ => 5,
    }
}

// The last `count` digits go to the front of the output.
#[tactic(auto, using(crate::proofs::WritingLaws::digits_more, crate::proofs::WritingLaws::digits_none))]
fn put_digits(out: &mut [u8], count: usize, n: u16)
    requires { count ≤ length out.old }
    ensures { out.new ≡ digits count n ++ drop count out.old }
{
    let mut rest = n;
    for i in (0..count).rev() {
        out[i] = b'0' + (rest % 10) as u8;
        rest /= 10;
    }
}

// A number in decimal goes to the front of the output.
#[tactic(auto, unfolding(crate::specs::Writing::written, crate::specs::Writing::written_length), using(crate::proofs::WritingLaws::length_decimal, crate::proofs::WritingLaws::decimal_digits))]
pub fn put_number(out: &mut [u8], n: u16) -> usize
    ensures { Writes (decimal n) out.old out.new result }
{
    let count = places(n);
    if out.len() < count {
        return 0;
    }
    put_digits(out, count, n);
    count
}

// What stands behind a value that `left` others follow.
fn separator(left: usize) -> u8
    ensures { result ≡ cond (eqb left 0) 10 32 }
{
    if left == 0 { LINE_END } else { SPACE }
}

// How long a line of these values is, counted up to the highest number.
#[tactic(auto, using(crate::proofs::WritingLaws::places_most, crate::proofs::WritingSteps::count_more, crate::proofs::WritingSteps::count_end))]
fn line_length(values: &[u16]) -> usize
    ensures { result ≡ counted (length (values_line values.now)) }
{
    let mut total: usize = 0;
    for v in values {
        total = total.saturating_add(places(*v) + 1);
    }
    total
}

// A line of values that has room goes to the front of the output.
fn lay_values(out: &mut [u8], values: &[u16])
    requires { length (values_line values.now) ≤ length out.old }
    ensures { out.new ≡ values_line values.now ++ drop (length (values_line values.now)) out.old }
{
    let mut at: usize = 0;
    for (i, v) in values.iter().enumerate() {
        at += put_number(&mut out[at..], *v);
        out[at] = separator(values.len() - (i + 1));
        at += 1;
    }
}

// A line of values goes to the front of the output.
#[tactic(auto, unfolding(crate::specs::Writing::written, crate::specs::Writing::written_length), using(crate::proofs::Appending::counted_min))]
pub fn put_values(out: &mut [u8], values: &[u16]) -> usize
    ensures { Writes (values_line values.now) out.old out.new result }
{
    let count = line_length(values);
    if out.len() < count {
        return 0;
    }
    lay_values(out, values);
    count
}

// ---- appending: behind the `at` bytes that stand, where there is room; the length counts in any case

#[tactic(auto, using(crate::proofs::Appending::append_beyond, crate::proofs::Appending::append_written))]
pub fn append(out: &mut [u8], at: usize, text: &[u8]) -> usize
    requires { Countable at text.now }
    ensures { Appends text.now out.old out.new at result }
{
    let end = at + text.len();
    if out.len() < end {
        return end;
    }
    put(&mut out[at..], text);
    end
}

// A line of values: the rest of the output from `at` on is lent to the routine that writes it.
#[tactic(auto, using(crate::proofs::Appending::counted_min, crate::proofs::Appending::room_behind, crate::proofs::Appending::append_rest, crate::proofs::Appending::append_beyond))]
pub fn append_values(out: &mut [u8], at: usize, values: &[u16]) -> usize
    requires { Countable at (values_line values.now) }
    ensures { Appends (values_line values.now) out.old out.new at result }
{
    let end = at + line_length(values);
    if out.len() < end {
        return end;
    }
    lay_values(&mut out[at..], values);
    end
}
