// Page numbers (types/mod.rs). Raw 0xFFFF is none.
ghost use Rattle.std.specs.Prelude.{◌≡◌, not};
ghost use Rattle.types.specs.PageIDs.{no_page, page_of_raw, is_none};

const NO_PAGE: u16 = 0xFFFF;

// A page number, which is no offset and no run number.
#[derive(Clone, Copy, PartialEq, Eq)]
pub struct PageID(pub u16);

// A page number or none, in 16 bits, as it is written to flash.
#[derive(Clone, Copy, PartialEq, Eq)]
pub struct OptionPageID(pub u16);

impl PageID {
    pub fn zero() -> PageID
        ensures answers { result.0 ≡ 0 }
    {
        PageID(0)
    }

    // None where raw is 0xFFFF.
    pub fn from_raw(raw: u16) -> Option<PageID>
        ensures answers { result ≡ page_of_raw raw }
    {
        if raw == NO_PAGE {
            None
        } else {
            Some(PageID(raw))
        }
    }

    // The place of the page, counted from 0.
    pub fn index(self) -> usize
        ensures answers { result ≡ self.0 }
    {
        self.0 as usize
    }
}

impl OptionPageID {
    pub fn none() -> OptionPageID
        ensures answers { result.0 ≡ no_page }
    {
        OptionPageID(NO_PAGE)
    }

    pub fn some(page: PageID) -> OptionPageID
        ensures answers { result.0 ≡ page.0 }
    {
        OptionPageID(page.0)
    }

    pub fn from_raw(raw: u16) -> OptionPageID
        ensures answers { result.0 ≡ raw }
    {
        OptionPageID(raw)
    }

    pub fn into_raw(self) -> u16
        ensures answers { result ≡ self.0 }
    {
        self.0
    }

    pub fn is_some(self) -> bool
        ensures answers { result ≡ not (is_none self.0) }
    {
        self.0 != NO_PAGE
    }

    pub fn is_none(self) -> bool
        ensures answers { result ≡ is_none self.0 }
    {
        self.0 == NO_PAGE
    }
}

impl From<Option<PageID>> for OptionPageID {
    ghost use Rattle.std.specs.Prelude.{◌≡◌};
    ghost use Rattle.types.specs.PageIDs.{raw_of};

    ghost from_gives = { λ page written. written.0 ≡ raw_of page };

    fn from(page: Option<PageID>) -> OptionPageID {
        match page {
            None => OptionPageID::none(),
            Some(page) => OptionPageID::some(page),
        }
    }
}

impl From<OptionPageID> for Option<PageID> {
    ghost use Rattle.std.specs.Prelude.{◌≡◌};
    ghost use Rattle.types.specs.PageIDs.{page_of_raw};

    ghost from_gives = { λ written page. page ≡ page_of_raw written.0 };

    fn from(written: OptionPageID) -> Option<PageID> {
        PageID::from_raw(written.0)
    }
}
