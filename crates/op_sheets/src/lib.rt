// The lent ink store, 256 sheets of 64 bytes: sheets are cleared, read and written.

#![tactic(auto)]

ghost use Rattle.std.specs.Prelude.{◌≡◌, ◌+◌, ◌<◌, ◌≤◌, length, replicate};
ghost use Rattle.machine.specs.State.{sheet_at, put_sheets, clear_sheets};

// Bytes of a sheet and of the store.
pub const SHEET: usize = 64;

pub const STORE: usize = 16384;

pub type Sheet = [u8; SHEET];

pub type Store = [u8; STORE];

// Every byte becomes 0.
pub fn clear(s: &mut [u8])
    ensures { s.new ≡ replicate (length s.old) 0 }
{
    s.fill(0);
}

// `count` sheets from `first` on become 0.
#[tactic(auto, unfolding(machine::specs::State::clear_sheets), using(crate::proofs::Parts::put_back))]
pub fn clear_sheets(store: &mut Store, first: usize, count: usize)
    requires { first + count ≤ 256 }
    ensures { store.new ≡ clear_sheets first count store.old }
{
    let start = SHEET * first;
    let end = SHEET * (first + count);
    clear(&mut store[start..end]);
}

// Read copies the sheet into the buffer, an array by value: two slices might overlap, for all that the compiler knows, and so
// `copy_from_slice` tests whether they do, in a call of its own (a write: 5.8 ns against 3.2).
#[tactic(auto, using(crate::proofs::Parts::lent_sheet))]
pub fn read_sheet(store: &Store, sheet: usize, buffer: &mut Sheet)
    requires { sheet < 256 }
    ensures { buffer.new ≡ sheet_at sheet store.now }
{
    *buffer = *store[SHEET * sheet..SHEET * (sheet + 1)]
        .as_array()
        .unwrap();
}

// A part of the store becomes `sheet`, an array by value as in a read.
fn put(part: &mut [u8], sheet: &Sheet)
    requires { length part.old ≡ 64 }
    ensures { part.new ≡ sheet.now }
{
    *part.as_mut_array().unwrap() = *sheet;
}

// Write copies the buffer into the sheet.
#[tactic(auto, using(crate::proofs::Parts::put_back))]
pub fn write_sheet(store: &mut Store, sheet: usize, buffer: &Sheet)
    requires { sheet < 256 }
    ensures { store.new ≡ put_sheets sheet buffer.now store.old }
{
    put(&mut store[SHEET * sheet..SHEET * (sheet + 1)], buffer);
}
