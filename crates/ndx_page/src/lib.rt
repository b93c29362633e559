//! The pages of an index file: what stands in page 0, and in a page of entries.
#![tactic(auto)]

mod head;
mod head_bytes;
pub mod laws;
mod layout;
mod numbers;
mod page;
mod page_bytes;

pub use head::{Head, HeadFault, MAX_TEXT};
pub use head_bytes::{read_head, write_head};
pub use layout::{MAX_KEY, PAGE_SIZE, most_entries};
pub use page::{Page, PageEntry, PageFault};
pub use page_bytes::{read_page, write_page};
