//! Laws of the definitions.
ghost use Rattle.std.specs.Prelude.{◌≡◌, ◌++◌, ℕ, List};
ghost use Rattle.http_messages.specs.Requests.{Ask, HasAsk, IsFaulty, StopsShort};
ghost use Rattle.http_messages.specs.declared.audience.Audience.{Audience};
ghost use Rattle.http_messages.specs.declared.request.HeadFault.{HeadFault};
ghost use Rattle.http_messages.specs.declared.request.HeadFault.TheVariants.{BadHead};

/// Bytes begin with one request alone: where they begin with a whole one, they begin with no other,
/// with none that is refused, and don't end within it; and where one is refused, it is for one
/// reason. Only where the bytes end within a head may httparse have refused it already.
pub fn one_request()
    ensures one { (audience : Audience) (bytes : List ℕ) (a b : Ask) (rest left : List ℕ) → HasAsk audience bytes a rest →
        HasAsk audience bytes b left
        → (a ≡ b) × (rest ≡ left) }
    ensures not_refused { (audience : Audience) (bytes : List ℕ) (ask : Ask) (rest : List ℕ) (why : HeadFault) →
        HasAsk audience bytes ask rest
        → IsFaulty audience bytes why → ⊥ }
    ensures not_short { (audience : Audience) (bytes : List ℕ) (ask : Ask) (rest : List ℕ) → HasAsk audience bytes ask rest →
        StopsShort audience bytes → ⊥ }
    ensures one_reason { (audience : Audience) (bytes : List ℕ) (why other : HeadFault) → IsFaulty audience bytes why →
        IsFaulty audience bytes other
        → why ≡ other }
    ensures refused_early { (audience : Audience) (bytes : List ℕ) (why : HeadFault) → IsFaulty audience bytes why →
        StopsShort audience bytes
        → why ≡ BadHead }
{}

/// What bytes begin with they begin with whatever follows.
pub fn more_change_nothing()
    ensures whole { (audience : Audience) (bytes more : List ℕ) (ask : Ask) (rest : List ℕ) → HasAsk audience bytes ask rest
        → HasAsk audience (bytes ++ more) ask (rest ++ more) }
    ensures refused { (audience : Audience) (bytes more : List ℕ) (why : HeadFault) → IsFaulty audience bytes why →
        IsFaulty audience (bytes ++ more) why }
{}
