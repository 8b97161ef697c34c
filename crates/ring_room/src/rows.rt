//! The devices of a partition's seats.
ghost use Rattle.std.specs.Prelude.{◌≡◌, ◌≤◌, length, take};
ghost use Rattle.ring_words.specs.Limits.{most_replicas};
ghost use Rattle.ring_room.specs.Rows.{devices_on};

use ring_words::{DeviceId, MOST_REPLICAS};

/// The devices of a partition's seats that aren't empty, by replica, and how many they are. What
/// stands behind them is left over.
pub fn devices_on(row: &[Option<DeviceId>]) -> ([DeviceId; MOST_REPLICAS], usize)
    requires { length row.now ≤ most_replicas }
    ensures devices { take result.1 result.0 ≡ devices_on row.now }
    ensures few { result.1 ≤ most_replicas }
{
    let mut ids = [0; MOST_REPLICAS];
    let mut count = 0;
    for seat in row {
        if let Some(id) = *seat {
            ids[count] = id;
            count += 1;
        }
    }
    (ids, count)
}
