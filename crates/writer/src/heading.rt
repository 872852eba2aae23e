// Writing the page header.
ghost use Rattle.std.specs.Prelude.{◌≡◌, true, ◌≤◌, length};
ghost use Rattle.types.specs.Build.{max_header_size, erase_value};
ghost use Rattle.flash.specs.Geometry.{page_start};
ghost use Rattle.flash.specs.Operations.{spent, allowed, all_lie_on};
ghost use Rattle.writer.specs.Duties.{heading_duty, hands_back, leaves};
ghost use Rattle.writer.specs.Headings.{header_room, header_ops};

use crate::answers::Ended;
use crate::checks::check_heading;
use crate::outcome::ended_by;
use crate::page_writer::PageWriter;
use crc::crc32;
use flash::ops::{Spent, erase_if, store_if};
use slices::field::put32;
use slices::part::put_at;
use types::config::{ERASE_VALUE, MAX_HEADER_SIZE, PAGE_HEADER_SIZE};
use types::page_id::PageID;

// A page header at the start of an array that has room for the longest one.
fn header_room(magic: u32, page: PageID, header: &[u8]) -> [u8; PAGE_HEADER_SIZE + MAX_HEADER_SIZE]
    ensures answers { result ≡ header_room magic page.0 header.now }
{
    let m = put32(magic);
    let p = put32(page.0 as u32);
    let s = put32(crc32(header));
    let mut room = [0; PAGE_HEADER_SIZE + MAX_HEADER_SIZE];
    put_at(&mut room, 0, &m);
    put_at(&mut room, 4, &p);
    put_at(&mut room, 8, &s);
    put_at(&mut room, PAGE_HEADER_SIZE, header);
    room
}

// The operations of write_header. They lie on the flash.
fn head_page(w: PageWriter, flash: &mut [u8], magic: u32, header: &[u8], left: usize) -> Spent
    requires header_len_bound { length header.now ≤ max_header_size }
    requires header_value { all_lie_on (length flash.old) w.page.0 (header_ops erase_value w magic header.now) ≡ true }
    ensures answers { result ≡ spent left (header_ops erase_value w magic header.now) }
    ensures bytes { flash.new ≡ allowed (page_start w.page.0) left (header_ops erase_value w magic header.now) flash.old }
{
    let page = w.page;
    let room = header_room(magic, page, header);
    let n = PAGE_HEADER_SIZE + header.len();
    let a = erase_if(w.armed, flash, page, ERASE_VALUE, left);
    let b = store_if(true, flash, page, 0, &room[..n], a.left);
    Spent {
        ok: a.ok & b.ok,
        left: b.left,
    }
}

impl PageWriter {
    // Stores the page header.
    pub fn write_header(self, flash: &mut [u8], magic: u32, header: &[u8], left: usize) -> Ended<()>
        ensures answers { result ≡ hands_back (heading_duty erase_value flash.old self magic header.now) self left }
        ensures bytes { flash.new ≡ leaves (heading_duty erase_value flash.old self magic header.now) self left flash.old }
    {
        if let Err(why) = check_heading(flash.len(), self, header.len()) {
            return self.answers(Err(why), left);
        }
        let stores = head_page(self, flash, magic, header, left);
        let next = PageWriter {
            armed: false,
            ..self
        };
        ended_by(stores, (), next, self)
    }
}
