//! How the rows of a value are written.

use crate::Layout;
use tlv_head::Kind;

/// How the rows of a value are written.
#[derive(Clone, Copy)]
pub(crate) struct RowForm {
    pub kind: Kind,
    pub layout: Layout,
    /// Whether text is shown beside pairs of digits.
    pub with_text: bool,
}
