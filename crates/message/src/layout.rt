// What the bodies of a fixed length have in common: that length, the mark and an operation, before the fields.
ghost use Rattle.std.specs.Prelude.{◌≡◌, ◌∷◌, [], ◌≤◌, length};
ghost use Rattle.std.proofs.lemmas.List.Edits.{sets};
ghost use Rattle.codes.specs.Body.{free, mark};
ghost use Rattle.message.specs.Layout.{fixed_shape};

use codes::body::MARK;
use packed::writing::copy;

// Where the fields begin.
pub const FIELDS: usize = 3;

// Whether a body has the length, the mark and the operation.
#[tactic(auto, unfolding(crate::specs::Layout::fixed_shape))]
pub fn fixed_shape(body: &[u8], bytes: usize, operation: u8) -> bool
    requires { 3 ≤ bytes }
    ensures { result ≡ fixed_shape bytes operation body.now }
{
    body.len() == bytes && body[1] == MARK && body[2] == operation
}

// Writes what stands before the fields; every other byte keeps its value.
pub fn write_head(out: &mut [u8], operation: u8)
    requires { 3 ≤ length out.old }
    ensures { out.new ≡ sets out.old 0 (free ∷ mark ∷ operation ∷ []) }
{
    copy(out, 0, &[0, MARK, operation]);
}
