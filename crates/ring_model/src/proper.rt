//! What is known of every part of a ring, by its type. A value's bounds come from its type, and a
//! clause can cite them only where the value was read: these functions read, for the prover alone.
ghost use Rattle.std.specs.Prelude.{◌<◌, All};
ghost use Rattle.ring_words.specs.Limits.{long_count};
ghost use Rattle.ring_words.specs.Rows.{IsProperRow};
ghost use Rattle.ring_model.specs.Parts.{texts_of};
ghost use Rattle.ring_model.specs.Valid.{IsHour, IsVersioned};

use ring_words::{Device, Hour, Row};
use std::rc::RcStr;

/// A row has numbers within their bounds and a name.
pub(crate) fn row_is_proper(row: &Row)
    ensures { IsProperRow row.now }
{
    let _region = row.region;
    let _zone = row.zone;
    let _address = row.address.bits();
    let _port = row.port.get();
    let _name = row.name.as_str();
    let _weight = row.weight.hundredths();
}

/// Each device has a proper row.
pub(crate) fn devices_are_proper(devices: &[Device])
    ensures { All (λ device. IsProperRow device.row) devices.now }
{
    for device in devices {
        row_is_proper(&device.row);
    }
}

fn hour_is_proper(hour: Option<Hour>)
    ensures { IsHour hour }
{
    if let Some(hour) = hour {
        let _hour = hour;
    }
}

/// Each hour of a move has 32 bits.
pub(crate) fn moves_are_proper(moves: &[Option<Hour>])
    ensures { All IsHour moves.now }
{
    for hour in moves {
        hour_is_proper(*hour);
    }
}

fn text_is_proper(text: &(u32, RcStr))
    ensures { text.now.0 < long_count }
{
    let _version = text.0;
}

/// Each version of a text has 32 bits.
pub(crate) fn texts_are_proper(texts: &[(u32, RcStr)])
    ensures { All IsVersioned (texts_of texts.now) }
{
    for text in texts {
        text_is_proper(text);
    }
}
