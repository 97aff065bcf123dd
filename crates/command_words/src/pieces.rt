ghost use Rattle.std.specs.Prelude.{◌≡◌, IfOk, map};
ghost use Rattle.command_words.specs.Values.{colon, comma, pieces};

use std::alloc::{AllocError, Global};

/// The pieces of the text between its commas.
pub fn comma_pieces<'a>(alloc: Global, text: &'a str) -> Result<Vec<&'a str>, AllocError>
    ensures { IfOk result (λ v. map (λ s. s.now) v.items ≡ pieces comma text.now) }
{
    text.split(',').collect(alloc)
}

/// The pieces of the text between its colons.
pub fn colon_pieces<'a>(alloc: Global, text: &'a str) -> Result<Vec<&'a str>, AllocError>
    ensures { IfOk result (λ v. map (λ s. s.now) v.items ≡ pieces colon text.now) }
{
    text.split(':').collect(alloc)
}
