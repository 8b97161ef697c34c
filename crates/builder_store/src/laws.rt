//! What follows from the definitions alone.
ghost use Rattle.std.specs.Prelude.{◌≡◌, ◌↔◌, ◌<◌, ℕ};
ghost use Rattle.sqlite_trees.specs.Tree.{Trees};
ghost use Rattle.ring_words.specs.declared.command.Command.{Command};
ghost use Rattle.ring_words.specs.declared.command.Reply.{Reply};
ghost use Rattle.ring_words.specs.declared.request.Limits.{Limits};
ghost use Rattle.ring_words.specs.Limits.{long_count};
ghost use Rattle.builder.specs.Safety.{AreValid};
ghost use Rattle.builder.specs.Step.{State, Step};
ghost use Rattle.store_rows.specs.Differences.{IsChangedAt, KeepsOwn};
ghost use Rattle.store_rows.specs.Stands.{RingContent};
ghost use Rattle.builder_store.specs.Opening.{IsMadeOf, IsOpenedAs, Stands};

use store_rows::laws::{one_content, one_first_content};

/// What a crash leaves is what an opening finds. Of tables that stand for a content it finds that
/// content, and of whatever tables, of either schema, it finds one at most. Of what an earlier
/// opening made of tables it finds what it would have found of those.
pub fn opening_finds_what_is_left()
    ensures opens { (db : Trees) (content : RingContent) → Stands db content
        → IsOpenedAs db content }
    ensures only { (db : Trees) (content other : RingContent) → IsOpenedAs db content
        → IsOpenedAs db other → other ≡ content }
    ensures made { (old db : Trees) (content : RingContent) → IsMadeOf old db
        → IsOpenedAs db content ↔ IsOpenedAs old content }
{
    one_content();
    one_first_content();
}

/// What an opening finds is valid, whatever tables it finds it in: the rings are, and the hour is
/// one of 32 bits. So what is said of the life of a store needs no word on the rings that its file
/// began with.
pub fn what_is_opened_is_valid()
    ensures { (db : Trees) (content : RingContent) → IsOpenedAs db content
        → AreValid content.state × (content.hour < long_count) }
{}

/// A step of the builder leaves every ring as it was that its command does not name, and takes no
/// ring, no partition and no published text away. So a commit may look at the named ring alone.
pub fn steps_change_one_ring()
    ensures { (limits : Limits) (old new : State) (hour : ℕ) (command : Command) (reply : Reply)
        → Step limits old hour command reply new → IsChangedAt command.ring old new }
{}

/// A step of the builder publishes nothing but a ring's own text. So what a store commits opens again
/// with all its texts.
pub fn steps_publish_own_texts()
    ensures { (limits : Limits) (old new : State) (hour : ℕ) (command : Command) (reply : Reply)
        → Step limits old hour command reply new → KeepsOwn old new }
{}
