//! What follows from the definitions of pages, for the crates above. Each function does nothing: its contract is the
//! law, which a caller gets by the call.

ghost use Rattle.ndx_page.specs.HeadLayout.{HeadsAreTold};
ghost use Rattle.ndx_page.specs.PageLayout.{PagesAreTold};

/// The page that 512 bytes tell of stands in them, and a page that stands in bytes is the one that they tell of.
pub fn pages_are_told()
    ensures { PagesAreTold }
{}

/// No two heads stand in the same bytes.
pub fn heads_are_told()
    ensures { HeadsAreTold }
{}
