//! How crowded a device is, tier by tier.
ghost use Rattle.std.specs.Prelude.{◌≡◌, ◌⊎◌, false};
ghost use Rattle.ring_share.specs.Crowd.{is_less as is_less_crowded};
ghost use Rattle.ring_room.specs.Inner.Lists.{cut};

use ring_share::Tier;

/// How many seats are in a device's region, in its zone and on its server.
pub type Crowd = (u32, u32, u32);

/// Whether the one is less crowded: compared by region, then by zone, then by server.
pub fn is_less(one: Crowd, other: Crowd) -> bool
    ensures { result ≡ is_less_crowded one other }
{
    // without a branch: which one it is can't be foreseen
    (one.0 < other.0)
        | ((one.0 == other.0) & ((one.1 < other.1) | ((one.1 == other.1) & (one.2 < other.2))))
}

/// The less crowded of two.
pub fn lesser(one: Crowd, other: Crowd) -> Crowd
    ensures one { is_less_crowded one result ≡ false }
    ensures other { is_less_crowded other result ≡ false }
    ensures either { (result ≡ one) ⊎ (result ≡ other) }
{
    if is_less(one, other) { one } else { other }
}

/// A crowd down to a tier, without the tiers below.
pub fn cut(tier: Tier, crowd: Crowd) -> Crowd
    ensures { result ≡ cut tier crowd }
{
    match tier {
        Tier::Region => (crowd.0, 0, 0),
        Tier::Zone => (crowd.0, crowd.1, 0),
        Tier::Server => crowd,
    }
}
