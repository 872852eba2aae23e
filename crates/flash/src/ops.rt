// The operations on a page, and the number of them that is left. An operation that does not lie on the flash is not made, and it is
// not counted.
//
// The forms with `_if` let a call make its operations one line each, with no branch between them. If one is cut, `left` is 0, so
// the remaining ones do nothing.
ghost use Rattle.std.specs.Prelude.{◌≡◌, ◌&&◌, ℕ, ◌+◌, leb, length};
ghost use Rattle.types.specs.Build.{page_size};
ghost use Rattle.flash.specs.Geometry.{page_start, has_page};
ghost use Rattle.flash.specs.Operations.{Op, op_if, made, lies_on, spent_on, allowed_on};

use crate::geometry::{has_page, page_start};
use slices::part;
use types::config::PAGE_SIZE;
use types::page_id::PageID;

// Whether what was due was made, and how many operations are left.
#[derive(Clone, Copy)]
pub struct Spent {
    pub ok: bool,
    pub left: usize,
}

// One store into the page, from the offset on.
pub(crate) fn store(flash: &mut [u8], page: PageID, at: usize, bytes: &[u8])
    ensures bytes { flash.new ≡ made (page_start page.0) (Op.store at bytes.now) flash.old }
{
    let room = PAGE_SIZE.saturating_sub(at);
    let n = bytes.len().min(room);
    let from = (page_start(page) + PAGE_SIZE - room).min(flash.len());
    part::put(&mut flash[from..], &bytes[..n]);
}

// One erase of the page.
pub(crate) fn erase(flash: &mut [u8], page: PageID, value: u8)
    ensures bytes { flash.new ≡ made (page_start page.0) (Op.erase value) flash.old }
{
    let start = page_start(page).min(flash.len());
    let end = (start + PAGE_SIZE).min(flash.len());
    part::wipe(&mut flash[start..end], value);
}

// What one operation of any kind spends, if it is due: none if it does not lie on the flash.
fn spend(due: bool, lies: bool, left: usize) -> Spent
    ensures answers { (n p : ℕ) (op : Op) → lies ≡ lies_on n p op → result ≡ spent_on n p left (op_if due op) }
{
    if due && lies {
        Spent {
            ok: left != 0,
            left: left.saturating_sub(1),
        }
    } else {
        Spent { ok: !due, left }
    }
}

// Whether a store of this many bytes at an offset lies on a flash.
fn holds_store(flash: usize, page: PageID, at: usize, bytes: usize) -> bool
    ensures answers { result ≡ (has_page flash page.0 && leb (at + bytes) page_size) }
{
    has_page(flash, page) && at <= PAGE_SIZE && bytes <= PAGE_SIZE - at
}

// One store, if it is due and one is left.
pub fn store_if(
    due: bool,
    flash: &mut [u8],
    page: PageID,
    at: usize,
    bytes: &[u8],
    left: usize,
) -> Spent
    ensures answers { result ≡ spent_on (length flash.old) page.0 left (op_if due (Op.store at bytes.now)) }
    ensures bytes { flash.new ≡ allowed_on page.0 left (op_if due (Op.store at bytes.now)) flash.old }
{
    let lies = holds_store(flash.len(), page, at, bytes.len());
    if due && lies && left != 0 {
        store(flash, page, at, bytes);
    }
    spend(due, lies, left)
}

// One erase of the page, if it is due and one is left.
pub fn erase_if(due: bool, flash: &mut [u8], page: PageID, value: u8, left: usize) -> Spent
    ensures answers { result ≡ spent_on (length flash.old) page.0 left (op_if due (Op.erase value)) }
    ensures bytes { flash.new ≡ allowed_on page.0 left (op_if due (Op.erase value)) flash.old }
{
    let lies = has_page(flash.len(), page);
    if due && lies && left != 0 {
        erase(flash, page, value);
    }
    spend(due, lies, left)
}
