// The order test: is it an image, and are its tables in order by T1 to T6?
// The tables are read from their image where it lies: nothing is copied.

#![tactic(auto)]

ghost use Rattle.std.specs.Prelude.{◌≡◌, ◌&&◌};
ghost use Rattle.tables.specs.Order.{in_order};
ghost use Rattle.image.specs.Image.{decode, is_image};

use image::Image;

// Is it an image, and are its tables in order? T1, T2 and T4 first: they need nothing but the programs, one by one. T1 makes the numbers an
// index of the tickets for T3, T5 and T6, and T5 notes for T6 where the entries are and lists the grants that need a recall. T3, T5 and T6
// look only at the places that are listed for them.
pub fn image_in_order(image: &Image) -> bool
    ensures { result ≡ (is_image image.now && in_order (decode image.now)) }
{
    let mut numbers = [0u16; 256];
    let mut taken = [0u16; 256];
    let mut children = [0u16; 256];
    let mut recalls = [0u16; 256];
    let Some(listed) = order_programs::programs_ok(
        image,
        &mut numbers,
        &mut taken,
        &mut children,
        &mut recalls,
    ) else {
        return false;
    };
    let taken = &taken[..listed.taken];
    let children = &children[..listed.children];
    let recalls = &recalls[..listed.recalls];
    if !order_children::chains_ok(image, &numbers, children) {
        return false;
    }
    let mut notes = [256u16; 256];
    let mut received = [0u16; 256];
    let Some(lent) = order_entries::entries_ok(image, &numbers, taken, &mut notes, &mut received)
    else {
        return false;
    };
    order_recalls::recalls_ok(
        image,
        &numbers,
        &notes,
        children,
        recalls,
        &received[..lent],
    )
}
