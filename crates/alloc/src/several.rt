// Several pages by one call: the same as calls one after the other, but that the state is checked once and that a refused call frees none.
ghost use Rattle.std.specs.Prelude.{◌≡◌, length};
ghost use Rattle.alloc.specs.Several.{try_allocate_each, places_after, free_each};

use crate::allocator::Allocator;
use crate::answers::Change;
use crate::{checks, marks, state, work};

// Puts a page into each place, until no page is free. The remaining places stay as they were.
pub fn try_allocate_each(a: Allocator, places: &mut [u16]) -> Change<usize>
    ensures answers { result ≡ try_allocate_each a (length places.old) }
    ensures bytes { places.new ≡ places_after a places.old }
{
    if let Err(why) = checks::check_state(a) {
        return Change::refused(why, a);
    }
    // Each in a variable of its own: as fields beside the marks they would be stored at every turn.
    let mut pages = a.pages;
    let mut used = a.used;
    let mut next = a.next_page_id;
    for i in 0..places.len() {
        let Some(page) = marks::first_free(&pages, next, a.page_count) else {
            return Change::answered(
                i,
                Allocator {
                    pages,
                    used,
                    next_page_id: next,
                    ..a
                },
            );
        };
        let p = page.index();
        marks::mark(&mut pages, p);
        used += 1;
        next = state::page_past(p, a.page_count);
        places[i] = page.0;
    }
    Change::answered(
        places.len(),
        Allocator {
            pages,
            used,
            next_page_id: next,
            ..a
        },
    )
}

// Frees all of these pages, or none of them if one cannot be freed.
pub fn free_each(a: Allocator, freed: &[u16]) -> Change<()>
    ensures answers { result ≡ free_each a freed.now }
{
    let mut left = a;
    match work::free_each(&mut left, freed) {
        Ok(()) => Change::answered((), left),
        Err(why) => Change::refused(why, a),
    }
}
