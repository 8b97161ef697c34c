//! What follows from the definitions alone.
ghost use Rattle.std.specs.Prelude.{◌<◌, ◌≤◌, IsTrue, IsUtf8};
ghost use Rattle.line_api.specs.Lines.{Asks};
ghost use Rattle.request_book.specs.Log.{delivery_of};
ghost use Rattle.ring_log.specs.Log.{DecidedEntry, delivery_line};
ghost use Rattle.ring_messages.specs.Commands.{IsProperCommand};
ghost use Rattle.ring_messages.specs.Message.{message_text};
ghost use Rattle.ring_words.specs.Limits.{greatest_long, long_count};
ghost use Rattle.ring_words.specs.Texts.{is_label};

/// The line that is told of a decided request asks for its delivery at the hour that it was decided
/// at. So the log, told as lines, asks for the decided deliveries in their order.
pub fn a_told_delivery_is_asked_for()
    ensures { (entry : DecidedEntry) → IsTrue (is_label entry.key.caller)
        → entry.key.number ≤ greatest_long → entry.hour < long_count
        → IsProperCommand entry.command → IsUtf8 (message_text entry.key entry.command)
        → Asks (delivery_line entry) (delivery_of entry) }
{}
