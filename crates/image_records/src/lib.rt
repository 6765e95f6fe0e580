// A ticket and an entry written as their bytes in the image.

#![tactic(auto)]

ghost use Rattle.std.specs.Prelude.{◌*◌, ◌≡◌, length};
ghost use Rattle.image.specs.Layout.{ticket_size, entry_size};
ghost use Rattle.image.specs.Numbers.{bytes_of};
ghost use Rattle.image.specs.Image.{kind_number, ticket_bytes, entry_bytes};

use tables::{Entry, Kind, Ticket};

#[tactic(auto, using(lists::proofs::Front::front_none, lists::proofs::Front::front_end, image::proofs::NumberLaws::put_number, image::proofs::NumberLaws::length_bytes))]
pub fn put_numbers(bytes: &mut [u8], numbers: &[u16])
    requires { length bytes.old ≡ 2 * length numbers.now }
    ensures { bytes.new ≡ bytes_of numbers.now }
{
    for (i, n) in numbers.iter().enumerate() {
        bytes[2 * i] = (*n % 256) as u8;
        bytes[2 * i + 1] = (*n / 256) as u8;
    }
}

// No `From` beside `Kind`: which number says which kind is the image's.
fn kind_number(k: Kind) -> u16
    ensures { result ≡ kind_number k }
{
    match k {
        Kind::Free => 0,
        Kind::Taken => 1,
        Kind::Received => 2,
        Kind::Child => 3,
        Kind::Recall => 4,
    }
}

#[tactic(auto, unfolding(image::specs::Image::ticket_bytes, image::specs::Image::ticket_numbers))]
pub fn put_ticket(bytes: &mut [u8], k: Ticket)
    requires { length bytes.old ≡ ticket_size }
    ensures { bytes.new ≡ ticket_bytes k }
{
    let numbers = [
        kind_number(k.kind),
        k.number,
        k.own,
        k.other.pad,
        k.other.program,
        k.other.number,
        k.first,
        k.count,
        k.rights.bits,
        k.dock.pad,
        k.dock.program,
        k.dock.number,
    ];
    put_numbers(bytes, &numbers);
}

#[tactic(auto, unfolding(image::specs::Image::entry_bytes, image::specs::Image::entry_numbers))]
pub fn put_entry(bytes: &mut [u8], e: Entry)
    requires { length bytes.old ≡ entry_size }
    ensures { bytes.new ≡ entry_bytes e }
{
    let numbers = [
        u16::from(e.live),
        e.name.pad,
        e.name.program,
        e.name.number,
        e.parent.pad,
        e.parent.program,
        e.parent.number,
        e.first,
        e.count,
        e.rights.bits,
    ];
    put_numbers(bytes, &numbers);
}
