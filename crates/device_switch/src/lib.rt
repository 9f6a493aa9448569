//! The device switch: which device a word names, what it is, and which calls it offers (book, chapter 14, `conf.h`, `devtab`).
//!
//! The definition is the abstract machine's table of devices (`xinu_model/specs/Devices/Table`):
//!
//! | Number | Device | Offers |
//! |---|---|---|
//! | 0 | the console | all but `seek` |
//! | 1 | the name space | `open` |
//! | 2 | the raw disk | `open`, `close`, `read`, `write`, `control` |
//! | 3 | the file system | `open`, `control` |
//! | 4 to 9 | files | all but `open` |
//!
//! What a call does with a device is the business of the crates above. No call has a condition. The crate depends on `xinu_model`.
#![tactic(auto)]

mod switch;

pub use switch::{NoSuch, device, kind_of, offers};
pub use xinu_base::{Dev, Kind, Op};
