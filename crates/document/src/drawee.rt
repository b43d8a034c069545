// Code 06: the drawee of a presented document is one that the receiving centre stands for.
ghost use Rattle.std.specs.Prelude.{◌≡◌};
ghost use Rattle.document.specs.Drawee.{drawee_served};

use crate::entities::is_member;
use crate::{DOCUMENT_BYTES, DRAWEE, PRESENTED};
use packed::number::number2;

// Whether a document does not earn 06. The commonest drawee is own, and costs no search.
pub fn drawee_served(d: &[u8; DOCUMENT_BYTES], operation: u8, own: u16, represented: &[u16]) -> bool
    ensures { result ≡ drawee_served operation own represented.now d.now }
{
    let drawee = number2(d, DRAWEE);
    (operation != PRESENTED) | (drawee == own) || is_member(drawee, represented)
}
