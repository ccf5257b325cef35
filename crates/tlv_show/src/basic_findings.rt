//! The listed findings of BER in a primitive by itself.
ghost use Rattle.std.specs.Prelude.{◌≡◌, ◌↔◌, [], false};
ghost use Rattle.tlv_head.specs.Header.{HasAllContents};
ghost use Rattle.tlv_show.specs.ListedFindings.{listed_findings};
ghost use Rattle.tlv_show.specs.Site.{top_site};

use crate::contents_findings::add_contents_findings;
use crate::header_findings::add_header_findings;
use crate::holder_frame::top_frame;
use crate::{Rules, Wanted};
use arrayvec::ArrayVec;
use tlv_head::Header;
use tlv_value::ValueCheck;

/// Whether BER has listed findings in a primitive with this header and all these contents, as the first element of an
/// input.
pub fn has_basic_findings(header: &Header, contents: &[u8]) -> bool
    requires { HasAllContents header.now contents.now }
    ensures { (result ≡ false)
        ↔ (((listed_findings Rules.Ber).of_header top_site header.now ≡ [])
        × ((listed_findings Rules.Ber).of_primitive top_site header.now contents.now ≡ [])) }
{
    let wanted = Wanted::listed(Rules::Ber);
    let mut found = ArrayVec::new();
    add_header_findings(wanted, &top_frame(), header, &mut found);
    if !found.is_empty() {
        return true;
    }
    let mut check = ValueCheck::new(header);
    check.bytes(contents);
    add_contents_findings(wanted, &check, &mut found);
    !found.is_empty()
}
