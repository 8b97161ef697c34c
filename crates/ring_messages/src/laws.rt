//! What follows of messages and texts.
ghost use Rattle.std.specs.Prelude.{◌≡◌, ◌≤◌, ℕ, IsTrue, IsUtf8, List};
ghost use Rattle.ring_words.specs.Limits.{greatest_long};
ghost use Rattle.ring_words.specs.Texts.{is_label};
ghost use Rattle.ring_words.specs.declared.command.Command.{Command};
ghost use Rattle.ring_words.specs.declared.command.Reply.{Reply};
ghost use Rattle.ring_words.specs.declared.request.Key.{Key};
ghost use Rattle.ring_messages.specs.Message.{IsMessage, message_text};
ghost use Rattle.ring_messages.specs.Commands.{canonical, IsProperCommand};
ghost use Rattle.ring_messages.specs.Replies.{reply_text, IsProperReply};

/// Commands with one text are one command.
pub fn one_text()
    ensures { (c d : Command) → IsProperCommand c → IsProperCommand d
        → canonical c ≡ canonical d → c ≡ d }
{}

/// Replies with one text are one reply.
pub fn one_reply()
    ensures { (r s : Reply) → IsProperReply r → IsProperReply s
        → reply_text r ≡ reply_text s → r ≡ s }
{}

/// No bytes are a message of two keys, or of two commands.
pub fn one_message()
    ensures { (bytes : List ℕ) (k j : Key) (c d : Command)
        → IsMessage bytes k c → IsMessage bytes j d
        → (k ≡ j) × (c ≡ d) }
{}

/// What is written of a request is a message of its key and its command.
pub fn a_message_is_read_back()
    ensures { (k : Key) (c : Command) → IsTrue (is_label k.caller) → k.number ≤ greatest_long
        → IsProperCommand c → IsUtf8 (message_text k c) → IsMessage (message_text k c) k c }
{}
