//! What follows from the definitions alone.
ghost use Rattle.std.specs.Prelude.{◌≡◌, []};
ghost use Rattle.store_model.specs.Contents.{Contents};
ghost use Rattle.store_rows.specs.Stands.{IsHoldable, RingContent, contents_for};
ghost use Rattle.store_rows.specs.Stands.{first_contents_for};

use ring_messages::{one_reply, one_text};

/// A store without rings and requests at hour 0 is one that can be held.
pub fn nothing_is_holdable()
    ensures { IsHoldable (record { state = []; book = []; hour = 0 }) }
{}

/// Tables stand for one content at most.
pub fn one_content()
    ensures { (a b : RingContent) → IsHoldable a → IsHoldable b → contents_for a ≡ contents_for b
        → a ≡ b }
{
    one_text();
    one_reply();
}

/// So do those of schema 1.
pub fn one_first_content()
    ensures { (a b : RingContent) → IsHoldable a → IsHoldable b
        → first_contents_for a ≡ first_contents_for b → a ≡ b }
{
    one_text();
    one_reply();
}
