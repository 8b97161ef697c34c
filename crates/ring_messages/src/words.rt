//! The words of commands, in messages and in replies, and what a reply with such a word tells.
ghost use Rattle.std.specs.Prelude.{◌≡◌, IfSome, IfNone, Some, codes};
ghost use Rattle.serde_json.specs.Data.{string};
ghost use Rattle.serde_json.specs.Find.{get};
ghost use Rattle.serde_json.specs.View.{view};
ghost use Rattle.ring_words.specs.declared.command.Deed.TheVariants as deed;
ghost use Rattle.ring_words.specs.declared.command.Kind.{Kind};
ghost use Rattle.ring_words.specs.Kinds.{deed_kind};
ghost use Rattle.ring_words.specs.Spelling.{Reads};
ghost use Rattle.ring_messages.specs.Inner.Says.{HasFields};
ghost use Rattle.ring_messages.specs.Replies.{deed_fields, figures};
ghost use Rattle.ring_messages.specs.Words.{kind_word};

use crate::MessageFault;
use crate::parts::{number, number16_at, number32_at, text};
use ring_words::{Deed, Kind};
use serde_json::Value;

/// The word of a command.
pub(crate) fn word_of(kind: Kind) -> &'static str
    ensures { result.now ≡ kind_word kind }
{
    match kind {
        Kind::Create => "create",
        Kind::Add => "add",
        Kind::SetWeight => "set_weight",
        Kind::Remove => "remove",
        Kind::Keep => "keep",
        Kind::SetHours => "set_hours",
        Kind::PretendPassed => "pretend_passed",
        Kind::RaisePower => "raise_power",
        Kind::Import => "import",
        Kind::Publish => "publish",
        Kind::Rebalance => "rebalance",
        Kind::RebalanceAs => "rebalance_as",
    }
}

/// The command of a word.
fn kind_of(word: &str) -> Option<Kind>
    ensures found { IfSome result (λ kind. kind_word kind ≡ word.now) }
    ensures none { IfNone result ((kind : Kind) → kind_word kind ≡ word.now → ⊥) }
{
    match word {
        "create" => Some(Kind::Create),
        "add" => Some(Kind::Add),
        "set_weight" => Some(Kind::SetWeight),
        "remove" => Some(Kind::Remove),
        "keep" => Some(Kind::Keep),
        "set_hours" => Some(Kind::SetHours),
        "pretend_passed" => Some(Kind::PretendPassed),
        "raise_power" => Some(Kind::RaisePower),
        "import" => Some(Kind::Import),
        "publish" => Some(Kind::Publish),
        "rebalance" => Some(Kind::Rebalance),
        "rebalance_as" => Some(Kind::RebalanceAs),
        _ => None,
    }
}

/// The command whose word stands under a key.
pub(crate) fn kind_at(value: &Value, key: &str) -> Option<Kind>
    ensures found { IfSome result (λ kind. get key.now (view value.now)
        ≡ Some (string (kind_word kind))) }
    ensures none { IfNone result ((kind : Kind) → get key.now (view value.now)
        ≡ Some (string (kind_word kind)) → ⊥) }
{
    kind_of(text(value.get(key))?)
}

/// The figures of a rebalance: its balance, how many seats it changed, and its dispersion.
fn figures(value: &Value) -> Result<(u32, u32, u32), MessageFault>
    ensures { Reads (λ f. HasFields (view value.now) (figures f.0 f.1 f.2)) result }
{
    let balance = number32_at(value, "balance")?;
    let changed = number32_at(value, "changed")?;
    let dispersion = number32_at(value, "dispersion")?;
    Ok((balance, changed, dispersion))
}

/// How many devices an import added, and how many got another weight.
fn imported(value: &Value) -> Result<(u64, u64), MessageFault>
    ensures { Reads (λ n. HasFields (view value.now) (deed_fields (deed.Import n.0 n.1))) result }
{
    let added = number(value.get("added"), u64::MAX)?;
    let reweighted = number(value.get("reweighted"), u64::MAX)?;
    Ok((added, reweighted))
}

/// What a reply with this command's word under the key `done` tells that was done.
pub(crate) fn deed_of(value: &Value, kind: Kind) -> Result<Deed, MessageFault>
    requires word { get (codes "done") (view value.now) ≡ Some (string (kind_word kind)) }
    ensures { Reads (λ x. (get (codes "done") (view value.now)
        ≡ Some (string (kind_word (deed_kind x))))
        × HasFields (view value.now) (deed_fields x)) result }
{
    match kind {
        Kind::Create => Ok(Deed::Create),
        Kind::Add => Ok(Deed::Add {
            id: number16_at(value, "id")?,
        }),
        Kind::SetWeight => Ok(Deed::SetWeight),
        Kind::Remove => Ok(Deed::Remove),
        Kind::Keep => Ok(Deed::Keep),
        Kind::SetHours => Ok(Deed::SetHours),
        Kind::PretendPassed => Ok(Deed::PretendPassed),
        Kind::RaisePower => Ok(Deed::RaisePower),
        Kind::Publish => Ok(Deed::Publish),
        Kind::Rebalance => {
            let (balance, changed, dispersion) = figures(value)?;
            Ok(Deed::Rebalance {
                balance,
                changed,
                dispersion,
            })
        }
        Kind::RebalanceAs => {
            let (balance, changed, dispersion) = figures(value)?;
            Ok(Deed::RebalanceAs {
                balance,
                changed,
                dispersion,
            })
        }
        Kind::Import => {
            let (added, reweighted) = imported(value)?;
            Ok(Deed::Import { added, reweighted })
        }
    }
}
