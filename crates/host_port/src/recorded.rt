//! A call that named a file, as the hosts in memory write it down.

use crate::host::Channel;

/// A call that named a file: of `name_out` with its channel, of `fetch` with none.
#[derive(Drop)]
pub(crate) struct RecordedCall {
    pub(crate) name: String,
    pub(crate) channel: Option<Channel>,
}
