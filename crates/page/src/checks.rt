// The checks of the page that a call is given, in their order, 5, 6, 4 (docs/RULES.md, Order of checks).
ghost use Rattle.std.specs.Prelude.{◌≡◌};
ghost use Rattle.page.specs.Checks.{page_check, open_check};

use crate::header::check_header;
use flash::geometry::{check_flash, has_page};
use types::page_id::PageID;
use types::refusal::Refusal;

// Fine, or 4 where a flash of this many bytes does not have the page.
pub fn check_page(bytes: usize, page: PageID) -> Result<(), Refusal>
    ensures answers { result ≡ page_check bytes page }
{
    if has_page(bytes, page) {
        Ok(())
    } else {
        Err(Refusal::OutOfRange)
    }
}

// The checks before a page is opened whose higher header has h bytes.
#[tactic(auto, unfolding(crate::specs::Checks::open_check))]
pub fn check_open(bytes: usize, h: usize, page: PageID) -> Result<(), Refusal>
    ensures answers { result ≡ open_check bytes h page }
{
    check_flash(bytes)?;
    check_header(h)?;
    check_page(bytes, page)
}
