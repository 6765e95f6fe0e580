// A line of the saved text: read and tested by itself, its place in the order of lines, and written.

#![tactic(auto)]

ghost use Rattle.std.specs.Prelude.{◌≡◌, true, ◌||◌, eqb};
ghost use Rattle.lists.specs.Tests.{between};
ghost use Rattle.tables.specs.Names.{is_program};
ghost use Rattle.text.specs.Writing.{values_line};
ghost use Rattle.text.specs.Appending.{Appends, Countable};
ghost use Rattle.saved.specs.Row as spec;
ghost use Rattle.text_rows.specs.Reading.{row_in};

use saved::Row;
use tables::Name;

const COLUMNS: usize = 11;

// ---- what a line must be by itself

// Is the value used, or 0?
#[tactic(auto, unfolding(saved::specs::Row::zero_unless))]
fn zero_unless(used: bool, value: u16) -> bool
    ensures { result ≡ spec.zero_unless used value }
{
    used || value == 0
}

#[tactic(auto, unfolding(saved::specs::Row::own_ok))]
fn own_ok(r: Row) -> bool
    ensures { result ≡ spec.own_ok r }
{
    zero_unless(r.kind == 4, r.own)
}

// Does the kind use the three o-columns?
#[tactic(auto, unfolding(lists::specs::Tests::between))]
fn uses_other(kind: u16) -> bool
    ensures { result ≡ between 3 5 kind }
{
    matches!(kind, 3..=5)
}

#[tactic(auto, unfolding(saved::specs::Row::other_ok))]
fn other_ok(r: Row) -> bool
    ensures { result ≡ spec.other_ok r }
{
    let used = uses_other(r.kind);
    let o = r.other;
    zero_unless(used, o.pad) && zero_unless(used, o.program) && zero_unless(used, o.number)
}

// Does the kind have sheets and rights?
#[tactic(auto, unfolding(lists::specs::Tests::between))]
fn uses_sheets(kind: u16) -> bool
    ensures { result ≡ (between 1 3 kind || eqb kind 5) }
{
    matches!(kind, 1..=3 | 5)
}

#[tactic(auto, unfolding(saved::specs::Row::sheets_ok))]
fn sheets_ok(r: Row) -> bool
    ensures { result ≡ spec.sheets_ok r }
{
    let used = uses_sheets(r.kind);
    zero_unless(used, r.first) && zero_unless(used, r.count) && zero_unless(used, r.rights)
}

// Is it a program of a pad?
#[tactic(auto, unfolding(tables::specs::Names::is_program))]
fn is_program(pad: u16, program: u16) -> bool
    ensures { result ≡ is_program pad program }
{
    pad <= 3 && program <= 7
}

#[tactic(auto, unfolding(saved::specs::Row::row_ok))]
pub fn row_ok(r: Row) -> bool
    ensures { result ≡ spec.row_ok r }
{
    r.kind <= 5
        && is_program(r.pad, r.program)
        && is_program(r.other.pad, r.other.program)
        && own_ok(r)
        && other_ok(r)
        && sheets_ok(r)
}

// ---- read

// The row of a line that has the form of one.
#[tactic(auto, unfolding(crate::specs::Reading::row_in, saved::specs::Row::line_ok))]
pub fn read_row(line: &[u8]) -> Option<Row>
    ensures { result ≡ row_in line.now }
{
    let mut v = [0u16; COLUMNS];
    if !text::read_values(line, &mut v) {
        return None;
    }
    let r = Row {
        kind: v[0],
        pad: v[1],
        program: v[2],
        number: v[3],
        own: v[4],
        other: Name {
            pad: v[5],
            program: v[6],
            number: v[7],
        },
        first: v[8],
        count: v[9],
        rights: v[10],
    };
    if row_ok(r) { Some(r) } else { None }
}

// ---- the order of lines

// Kind, pad, program and number as the digits of one number.
#[tactic(auto, using(saved::proofs::RowLaws::ranges), unfolding(saved::specs::Row::key))]
pub fn key(r: Row) -> u32
    requires { spec.row_ok r ≡ true }
    ensures { result ≡ spec.key r }
{
    let head = (u32::from(r.kind) * 4 + u32::from(r.pad)) * 8 + u32::from(r.program);
    head * 65536 + u32::from(r.number)
}

// ---- written

// The line goes behind the `at` bytes of the output that stand, if it has room there. Its length counts in any case.
pub fn append_row(out: &mut [u8], at: usize, r: Row) -> usize
    requires { Countable at (values_line (spec.columns_of r)) }
    ensures { Appends (values_line (spec.columns_of r)) out.old out.new at result }
{
    let o = r.other;
    let values = [
        r.kind, r.pad, r.program, r.number, r.own, o.pad, o.program, o.number, r.first, r.count,
        r.rights,
    ];
    text::append_values(out, at, &values)
}
